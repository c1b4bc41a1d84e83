//! The longest lexeme at the front of a text.
ghost use Rattle.std.specs.Prelude.{◌≡◌, ◌≤◌, length, take, drop, IfSome, IfNone};
ghost use Rattle.source_tokens.specs.declared.token.Sign.{Sign};
ghost use Rattle.source_tokens.specs.Lexemes.{IsLongest, BeginsNone, sign_spelling};
ghost use Rattle.source_tokens.specs.Inside.Forms.{IsSignAt, IsForm};

use crate::bytes::{begins_word, digits_len, is_digit, word_len};
use crate::token::Sign;

/// What a lexeme is by its form.
#[derive(Clone, Copy)]
pub(crate) enum Form {
    Word,
    Number,
    Sign(Sign),
}

fn sign_before(second: u8) -> Sign
    ensures { IsSignAt result 60 second }
{
    match second {
        b'-' => Sign::Arrow,
        b'=' => Sign::AtMost,
        _ => Sign::Less,
    }
}

/// The sign whose first byte is this, where `second` follows, or 0 at the end of the text.
fn sign(first: u8, second: u8) -> Option<Sign>
    ensures found { IfSome result (λ s. IsSignAt s first second) }
    ensures none { IfNone result ((s : Sign) → IsSignAt s first second → ⊥) }
{
    match first {
        b'<' => Some(sign_before(second)),
        b'=' if second == b'=' => Some(Sign::Equal),
        b'+' => Some(Sign::Plus),
        b'-' => Some(Sign::Minus),
        b'*' => Some(Sign::Star),
        b'/' => Some(Sign::Slash),
        b'%' => Some(Sign::Percent),
        b'(' => Some(Sign::OpenParen),
        b')' => Some(Sign::CloseParen),
        b'{' => Some(Sign::OpenBrace),
        b'}' => Some(Sign::CloseBrace),
        b'[' => Some(Sign::OpenBracket),
        b']' => Some(Sign::CloseBracket),
        b',' => Some(Sign::Comma),
        b';' => Some(Sign::Semicolon),
        b':' => Some(Sign::Colon),
        _ => None,
    }
}

fn sign_len(sign: Sign) -> usize
    ensures { result ≡ length (sign_spelling sign) }
{
    match sign {
        Sign::Arrow | Sign::AtMost | Sign::Equal => 2,
        _ => 1,
    }
}

/// The form and the length of the longest lexeme at the front of a text.
pub(crate) fn lexeme(text: &[u8]) -> Option<(Form, usize)>
    ensures within { IfSome result (λ r. r.1 ≤ length text.now) }
    ensures formed { IfSome result (λ r. IsForm r.0 (take r.1 text.now)) }
    ensures longest { IfSome result (λ r. IsLongest (take r.1 text.now) (drop r.1 text.now)) }
    ensures none { IfNone result (BeginsNone text.now) }
{
    let (first, tail) = text.split_first()?;
    let first = *first;
    if begins_word(first) {
        return Some((Form::Word, word_len(text)));
    }
    if is_digit(first) {
        return Some((Form::Number, digits_len(text)));
    }
    let second = tail.first().copied().unwrap_or(0);
    let sign = sign(first, second)?;
    Some((Form::Sign(sign), sign_len(sign)))
}
