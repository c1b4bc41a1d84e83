//! The text of a path.
ghost use Rattle.std.specs.Prelude.{◌≡◌, ◌≢◌, ◌<◌, ◌≤◌, List, ℕ, length, slice_index, IfOk, MatchOption, MatchBool};
ghost use Rattle.priml_syntax.specs.Limits.{most_parts};
ghost use Rattle.inputs_text.specs.PathText.{Pairwise, between_dots, IsPartText, IsPathText};

use priml_io::{capped_value, is_digits};
use priml_syntax::{MOST_PARTS, Path};
use std::alloc::{AllocError, Global};

/// Reads a path: at most 32 numbers below 2 to the 32, the first of them, its root, at most `last`, in decimal digits
/// without leading zeros and with a dot between. None where the text is no such path.
pub fn read_path(alloc: Global, text: &[u8], last: u32) -> Result<Option<Path>, AllocError>
    ensures { IfOk result (λ r. MatchOption r ((p : List ℕ) → ¬ IsPathText last text.now p) (IsPathText last text.now)) }
{
    let Some(parts) = read_parts(alloc, text)? else {
        return Ok(None);
    };
    if !is_path(&parts, last) {
        return Ok(None);
    }
    Ok(Some(Path::of_parts(parts)))
}

/// Whether these parts, at least one, are a path's.
fn is_path(parts: &[u32], last: u32) -> bool
    requires { 0 < length parts.now }
    ensures { MatchBool result ((slice_index parts.now 0 ≤ last) × (length parts.now ≤ most_parts))
        (¬ ((slice_index parts.now 0 ≤ last) × (length parts.now ≤ most_parts))) }
{
    if parts[0] > last {
        return false;
    }
    parts.len() <= MOST_PARTS
}

fn read_parts(alloc: Global, text: &[u8]) -> Result<Option<Vec<u32>>, AllocError>
    ensures { IfOk result (λ r. MatchOption r ((p : List ℕ) → ¬ Pairwise IsPartText (between_dots text.now) p)
        (λ v. Pairwise IsPartText (between_dots text.now) v.items)) }
{
    // a part takes two bytes, but for the last
    let mut parts = Vec::with_capacity(alloc, (text.len() / 2 + 1).min(MOST_PARTS))?;
    for part in text.split(|b| *b == b'.') {
        let Some(number) = read_part(part) else {
            return Ok(None);
        };
        parts.push(number)?;
    }
    Ok(Some(parts))
}

/// Reads a part of a path: a number below 2 to the 32, in decimal digits without leading zeros. None where the text is
/// no part.
pub fn read_part(text: &[u8]) -> Option<u32>
    ensures { MatchOption result ((n : ℕ) → ¬ IsPartText text.now n) (IsPartText text.now) }
{
    if !is_digits(text) {
        return None;
    }
    if has_leading_zero(text) {
        return None;
    }
    let value = capped_value(text);
    if value >= 1 << 32 {
        return None;
    }
    Some(value as u32)
}

fn has_leading_zero(text: &[u8]) -> bool
    requires { 0 < length text.now }
    ensures { MatchBool result ((slice_index text.now 0 ≡ 48) × (length text.now ≢ 1)) (slice_index text.now 0 ≡ 48 → length text.now ≡ 1) }
{
    if text[0] != b'0' {
        return false;
    }
    text.len() != 1
}
