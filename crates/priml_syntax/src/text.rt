//! Paths as text. The room for a piece is made first, so that it is appended whole or not at all.
ghost use Rattle.std.specs.Prelude.{◌≡◌, ◌+◌, ◌*◌, ◌<◌, ◌≤◌, ◌++◌, length, OnOk, OnErr};
ghost use Rattle.std.specs.String.{string_bytes, string_len, string_capacity};
ghost use Rattle.std.specs.List.{flat_map};
ghost use Rattle.std.specs.Fmt.{decimal};
ghost use Rattle.priml_syntax.specs.Text.{dotted, path_text};

use crate::path::Path;
use itoa::Buffer;
use std::alloc::AllocError;

// The most bytes of a number with a mark before it.
const MOST_BYTES: usize = 11;

/// Appends the numbers of a path with a dot between. Where memory is wanting the text stays as it was.
pub fn push_path(text: &mut String, path: &Path) -> Result<(), AllocError>
    ensures ok { OnOk result (string_bytes text.new ≡ string_bytes text.old ++ path_text path.now) }
    ensures kept { OnErr result (string_bytes text.new ≡ string_bytes text.old) }
{
    let parts = path.parts();
    text.reserve(MOST_BYTES * parts.len())?;
    put_path(text, parts);
    Ok(())
}

/// Appends a path, a mark of at most one byte, and a number. Where memory is wanting the text stays as it was.
pub fn push_path_and(
    text: &mut String,
    path: &Path,
    mark: &str,
    number: u32,
) -> Result<(), AllocError>
    requires { length mark.now ≤ 1 }
    ensures ok { OnOk result (string_bytes text.new ≡ string_bytes text.old ++ (path_text path.now ++ (mark.now ++ decimal number))) }
    ensures kept { OnErr result (string_bytes text.new ≡ string_bytes text.old) }
{
    let parts = path.parts();
    text.reserve(MOST_BYTES * (parts.len() + 1))?;
    put_path(text, parts);
    put(text, mark, number);
    Ok(())
}

// Appends the numbers of a path with a dot between, for which there is room.
fn put_path(text: &mut String, parts: &[u32])
    requires some { 0 < length parts.now }
    requires room { string_len text.old + MOST_BYTES * length parts.now ≤ string_capacity text.old }
    ensures bytes { string_bytes text.new ≡ string_bytes text.old ++ path_text parts.now }
    ensures len { string_len text.new ≤ string_len text.old + MOST_BYTES * length parts.now }
    ensures capacity { string_capacity text.old ≤ string_capacity text.new }
{
    put(text, "", parts[0]);
    put_dotted(text, &parts[1..]);
}

// Appends each number with a dot before it, for which there is room.
fn put_dotted(text: &mut String, numbers: &[u32])
    requires room { string_len text.old + MOST_BYTES * length numbers.now ≤ string_capacity text.old }
    ensures bytes { string_bytes text.new ≡ string_bytes text.old ++ flat_map dotted numbers.now }
    ensures len { string_len text.new ≤ string_len text.old + MOST_BYTES * length numbers.now }
    ensures capacity { string_capacity text.old ≤ string_capacity text.new }
{
    for number in numbers {
        put(text, ".", *number);
    }
}

// Appends a number with a mark before it, for which there is room.
fn put(text: &mut String, mark: &str, number: u32)
    requires mark { length mark.now ≤ 1 }
    requires room { string_len text.old + MOST_BYTES ≤ string_capacity text.old }
    ensures bytes { string_bytes text.new ≡ string_bytes text.old ++ (mark.now ++ decimal number) }
    ensures len { string_len text.new ≤ string_len text.old + MOST_BYTES }
    ensures capacity { string_capacity text.old ≤ string_capacity text.new }
{
    let mut buffer = Buffer::new();
    text.push_str(mark).unwrap();
    text.push_str(buffer.format(number)).unwrap();
}
