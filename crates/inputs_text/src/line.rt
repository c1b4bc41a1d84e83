//! One line of the inputs.
ghost use Rattle.std.specs.Prelude.{◌≢◌, List, ℤ, None, All, IfOk, MatchOption, MatchBool};
ghost use Rattle.inputs_text.specs.InputLines.{IsValue, IsNegated, IsNumberText, AreNumbers, IsInputLine, IsCutAtColon};
ghost use Rattle.inputs_text.specs.Inside.Forms.{HasForm};

use crate::path::read_path;
use priml_io::{are_blank, capped_value, is_blank, is_digits};
use priml_syntax::Path;
use std::alloc::{AllocError, Global};

/// What a line of the inputs says.
#[derive(Drop)]
pub(crate) enum Line {
    /// It is blank or a comment.
    Nothing,
    /// It gives these numbers to the path.
    Numbers(Path, Vec<i64>),
    /// It has no form.
    Bad,
}

/// Reads a line, given without its line feed.
pub(crate) fn read_line(alloc: Global, line: &[u8]) -> Result<Line, AllocError>
    ensures { IfOk result (HasForm line.now) }
{
    if says_nothing(line) {
        return Ok(Line::Nothing);
    }
    let Some((path, numbers)) = cut(line) else {
        return Ok(Line::Bad);
    };
    let Some(path) = read_path(alloc, path, 0)? else {
        return Ok(Line::Bad);
    };
    let Some(numbers) = read_numbers(alloc, numbers)? else {
        return Ok(Line::Bad);
    };
    Ok(Line::Numbers(path, numbers))
}

/// Whether a line is blank or a comment.
fn says_nothing(line: &[u8]) -> bool
    ensures { MatchBool result (IsInputLine line.now None) (¬ IsInputLine line.now None) }
{
    if line.is_empty() {
        return true;
    }
    if line[0] == b'#' {
        return true;
    }
    are_blank(line)
}

/// What stands before the first colon, and what after it; None where there is no colon.
pub fn cut(line: &[u8]) -> Option<(&[u8], &[u8])>
    ensures { MatchOption result (All (λ b. b ≢ 58) line.now) (λ p. IsCutAtColon line.now p.0.now p.1.now) }
{
    for i in 0..line.len() {
        if line[i] == b':' {
            return Some((&line[..i], &line[i + 1..]));
        }
    }
    None
}

fn read_numbers(alloc: Global, text: &[u8]) -> Result<Option<Vec<i64>>, AllocError>
    ensures { IfOk result (λ r. MatchOption r ((ns : List ℤ) → ¬ AreNumbers text.now ns) (λ v. AreNumbers text.now v.items)) }
{
    let mut numbers = Vec::new(alloc);
    for word in text.split(|b| is_blank(*b)).filter(|word| !word.is_empty()) {
        let Some(number) = read_number(word) else {
            return Ok(None);
        };
        numbers.push(number)?;
    }
    Ok(Some(numbers))
}

fn read_number(word: &[u8]) -> Option<i64>
    ensures { MatchOption result ((n : ℤ) → ¬ IsNumberText word.now n) (IsNumberText word.now) }
{
    if word.is_empty() {
        return None;
    }
    if word[0] == b'-' {
        return negative(&word[1..]);
    }
    positive(word)
}

/// The number of these digits.
fn positive(digits: &[u8]) -> Option<i64>
    ensures { MatchOption result ((n : ℤ) → ¬ IsValue digits.now n) (IsValue digits.now) }
{
    if !is_digits(digits) {
        return None;
    }
    0i64.checked_add_unsigned(capped_value(digits))
}

/// The number of these digits with a minus before them.
fn negative(digits: &[u8]) -> Option<i64>
    ensures { MatchOption result ((n : ℤ) → ¬ IsNegated digits.now n) (IsNegated digits.now) }
{
    if !is_digits(digits) {
        return None;
    }
    0i64.checked_sub_unsigned(capped_value(digits))
}
