//! Bytes, and the runs of them that stand between tokens and in words and numbers.
ghost use Rattle.std.specs.Prelude.{◌≡◌, ◌<◌, ◌≤◌, ◌^◌, length, IfSome, IfNone};
ghost use Rattle.std.specs.List.{prefix_len};
ghost use Rattle.source_tokens.specs.Lexemes.{is_separator, is_digit, begins_word, is_part};
ghost use Rattle.source_tokens.specs.Inside.Gaps.{is_passed, keeps_comment, begins};
ghost use Rattle.priml_io.specs.Words.{value_of};

use priml_io::capped_value;

fn is_separator(byte: u8) -> bool
    ensures { result ≡ is_separator byte }
{
    byte == b' ' || byte == b'\t' || byte == b'\r' || byte == b'\n'
}

fn is_passed(in_comment: bool, byte: u8) -> bool
    ensures { result ≡ is_passed in_comment byte }
{
    in_comment || is_separator(byte) || byte == b'#'
}

fn keeps_comment(in_comment: bool, byte: u8) -> bool
    ensures { result ≡ keeps_comment in_comment byte }
{
    if in_comment {
        byte != b'\n'
    } else {
        byte == b'#'
    }
}

/// What is left of a text behind separators and comments.
pub(crate) fn skip(text: &[u8]) -> &[u8]
    ensures left { result.now ≡ begins text.now }
    ensures shorter { length result.now ≤ length text.now }
{
    let (_, rest) = text.split_at(separators_len(text));
    if rest.is_empty() {
        return rest;
    }
    if rest[0] != b'#' {
        return rest;
    }
    skip_comments(rest)
}

/// How many separators stand at the front.
fn separators_len(text: &[u8]) -> usize
    ensures value { result ≡ prefix_len is_separator text.now }
    ensures within { result ≤ length text.now }
{
    text.iter().take_while(|b| is_separator(**b)).count()
}

/// What is left of a text behind comments and separators, by a look at each byte.
fn skip_comments(text: &[u8]) -> &[u8]
    ensures left { result.now ≡ begins text.now }
    ensures shorter { length result.now ≤ length text.now }
{
    let mut in_comment = false;
    let mut at = 0;
    while at < text.len() && is_passed(in_comment, text[at]) {
        in_comment = keeps_comment(in_comment, text[at]);
        at += 1;
    }
    &text[at..]
}

pub(crate) fn is_digit(byte: u8) -> bool
    ensures { result ≡ is_digit byte }
{
    byte.is_ascii_digit()
}

/// Whether a word may begin with this byte.
pub(crate) fn begins_word(byte: u8) -> bool
    ensures { result ≡ begins_word byte }
{
    byte.is_ascii_alphabetic() || byte == b'_'
}

fn is_part(byte: u8) -> bool
    ensures { result ≡ is_part byte }
{
    begins_word(byte) || is_digit(byte)
}

/// How many bytes from the front may stand in a word.
pub(crate) fn word_len(bytes: &[u8]) -> usize
    ensures { result ≡ prefix_len is_part bytes.now }
{
    bytes.iter().take_while(|b| is_part(**b)).count()
}

/// How many digits stand at the front.
pub(crate) fn digits_len(bytes: &[u8]) -> usize
    ensures { result ≡ prefix_len is_digit bytes.now }
{
    bytes.iter().take_while(|b| is_digit(**b)).count()
}

/// The value of digits, if it is below two to the 63.
pub(crate) fn number(digits: &[u8]) -> Option<u64>
    ensures found { IfSome result (λ n. (n ≡ value_of digits.now) × (n < 2 ^ 63)) }
    ensures none { IfNone result (2 ^ 63 ≤ value_of digits.now) }
{
    let n = capped_value(digits);
    if n < 1 << 63 { Some(n) } else { None }
}
