ghost use Rattle.std.specs.Prelude.{◌≡◌, ◌≢◌, ◌+◌, ◌<◌, ◌≤◌, ◌++◌, ◌⊎◌, ℕ, List, [], length, take, slice_index, All, IfOk, IfErr, MatchBool};
ghost use Rattle.priml_io.specs.Lines.{lines};
ghost use Rattle.priml_io.specs.Sections.{bytes_of, IsPadded, IsRow, IsPart, IsMarked, Cuts, HasSectionFault, CutsOneWay};

use crate::blanks::are_blank;

/// The texts of an input: the program, and the bodies of the sections that stand in it.
#[derive(Clone, Copy, Debug, PartialEq, Eq)]
pub struct Sections<'a> {
    /// All before the first line that begins a section. It begins the input, so places in it are places in the input.
    pub program: &'a [u8],
    /// The body of the section `inputs`.
    pub inputs: Option<&'a [u8]>,
    /// The body of the section `schedule`.
    pub schedule: Option<&'a [u8]>,
}

/// Why an input has no sections. Lines are counted from 1, in the whole input.
#[derive(Clone, Copy, Debug, PartialEq, Eq)]
pub enum SectionFault {
    /// This line begins a section of another name.
    UnknownSection(u64),
    /// This line begins a section that an earlier line began.
    TwiceSection(u64),
}

/// Cuts the input into the program and the sections after it. A line whose first three bytes are `===` begins a section;
/// its rest, without spaces, tabs and carriage returns at the end, is the name. The first line at fault decides.
pub fn split(input: &[u8]) -> Result<Sections<'_>, SectionFault>
    ensures ok { IfOk result (λ s. Cuts input.now s.program.now (bytes_of s.inputs) (bytes_of s.schedule)) }
    ensures fault { IfErr result (HasSectionFault input.now) }
    ensures one_way { CutsOneWay input.now }
{
    cut(input)
}

/// The program and the sections, or the first line at fault.
fn cut(input: &[u8]) -> Result<Sections<'_>, SectionFault>
    ensures ok { IfOk result (λ s. Cuts input.now s.program.now (bytes_of s.inputs) (bytes_of s.schedule)) }
    ensures fault { IfErr result (HasSectionFault input.now) }
{
    let (program, mut rest, count) = next_part(input);
    let mut inputs = None;
    let mut schedule = None;
    let mut number = 1 + count;
    while !rest.is_empty() {
        let (line, text) = next_line(rest);
        let (body, after, count) = next_part(text);
        if is_heading(line, b"===inputs") {
            if inputs.is_some() {
                return Err(SectionFault::TwiceSection(number as u64));
            }
            inputs = Some(body);
        } else if is_heading(line, b"===schedule") {
            if schedule.is_some() {
                return Err(SectionFault::TwiceSection(number as u64));
            }
            schedule = Some(body);
        } else {
            return Err(SectionFault::UnknownSection(number as u64));
        }
        number += 1 + count;
        rest = after;
    }
    Ok(Sections {
        program,
        inputs,
        schedule,
    })
}

/// The text before the first line that begins a section, the text from that line on, and how many lines come before it.
fn next_part(text: &[u8]) -> (&[u8], &[u8], usize)
    ensures part { IsPart result.0.now result.1.now }
    ensures whole { text.now ≡ result.0.now ++ result.1.now }
    ensures count { result.2 ≡ length (lines result.0.now) }
    ensures few { result.2 ≤ length result.0.now }
{
    let mut rest = text;
    let mut count = 0;
    while goes_on(rest) {
        rest = next_line(rest).1;
        count += 1;
    }
    (&text[..text.len() - rest.len()], rest, count)
}

/// Whether there is a first line, and it begins no section.
fn goes_on(text: &[u8]) -> bool
    ensures { MatchBool result ((0 < length text.now) × ¬ IsMarked text.now) ((text.now ≡ []) ⊎ IsMarked text.now) }
{
    if text.is_empty() {
        return false;
    }
    !is_marked(text)
}

/// The first line without its line feed, and the text after it.
pub fn next_line(text: &[u8]) -> (&[u8], &[u8])
    ensures row { (bytes : List ℕ) × IsRow bytes result.0.now result.1.now × (text.now ≡ bytes ++ result.1.now) }
    ensures shorter { 0 < length text.now → length result.1.now < length text.now }
{
    let end = line_end(text);
    if end == text.len() {
        return (text, &text[end..]);
    }
    (&text[..end], &text[end + 1..])
}

/// The place of the first line feed, or the text's length.
fn line_end(text: &[u8]) -> usize
    ensures within { result ≤ length text.now }
    ensures plain { All (λ b. b ≢ 10) (take result text.now) }
    ensures feed { result < length text.now → slice_index text.now result ≡ 10 }
{
    for i in 0..text.len() {
        if text[i] == b'\n' {
            return i;
        }
    }
    text.len()
}

fn is_marked(text: &[u8]) -> bool
    ensures { MatchBool result (IsMarked text.now) (¬ IsMarked text.now) }
{
    begins_with(text, b"===")
}

/// Whether a line is this start and then blanks.
fn is_heading(line: &[u8], start: &[u8]) -> bool
    ensures { MatchBool result (IsPadded start.now line.now) (¬ IsPadded start.now line.now) }
{
    if !begins_with(line, start) {
        return false;
    }
    are_blank(&line[start.len()..])
}

fn begins_with(text: &[u8], start: &[u8]) -> bool
    ensures { MatchBool result (take (length start.now) text.now ≡ start.now) (¬ (take (length start.now) text.now ≡ start.now)) }
{
    if text.len() < start.len() {
        return false;
    }
    &text[..start.len()] == start
}
