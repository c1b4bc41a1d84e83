//! The inputs: the lists of numbers that threads read.
ghost use Rattle.std.specs.Prelude.{◌≡◌, ◌+◌, ◌<◌, ◌∷◌, ◌++◌, [], IfOk, IfErr, OnOk};
ghost use Rattle.priml_io.specs.Lines.{lines};
ghost use Rattle.priml_syntax.specs.Inputs.{read_lists as lists_of};
ghost use Rattle.inputs_text.specs.Inputs.{AreInputs, IsInputs, HasInputFault, ReadsOneWay};
ghost use Rattle.inputs_text.specs.Inside.Forms.{paths_in, paths_of, AddsPath, AddsLine, StopsAt};

use crate::line::{Line, read_line};
use indexmap::IndexSet;
use priml_syntax::{Inputs, Path};
use std::alloc::{AllocError, Global};

/// Why a text is no inputs. Lines are counted from 1.
#[derive(Clone, Copy, Debug, PartialEq, Eq)]
pub enum InputFault {
    /// This line is neither blank nor a comment, nor a path with its numbers.
    BadLine(u64),
    /// An earlier line has the path of this line.
    TwicePath(u64),
    /// Want of memory.
    OutOfMemory,
}

impl From<AllocError> for InputFault {
    ghost use Rattle.inputs_text.specs.declared.inputs.InputFault.TheVariants.{OutOfMemory};

    ghost from_gives = { λ _ fault. fault ≡ OutOfMemory };

    fn from(_: AllocError) -> InputFault {
        InputFault::OutOfMemory
    }
}

/// Reads the inputs. A line is blank, or begins with `#`, or is a path, a colon at once, and decimal numbers in the
/// range of i64 with spaces, tabs or carriage returns between; these may also stand after the colon and at the line's
/// end. A path stands on one line at most. The first line at fault decides.
pub fn read_inputs(alloc: Global, text: &[u8]) -> Result<Inputs, InputFault>
    ensures ok { IfOk result (AreInputs (lines text.now)) }
    ensures fault { IfErr result (HasInputFault (lines text.now)) }
    ensures one_way { ReadsOneWay (lines text.now) }
{
    let lists = read_lists(alloc, text)?;
    Ok(Inputs::of_lists(lists))
}

/// The lists of a text, in the order of their lines.
fn read_lists(alloc: Global, text: &[u8]) -> Result<Vec<(Path, Vec<i64>)>, InputFault>
    ensures ok { IfOk result (λ v. IsInputs (lines text.now) (lists_of v.items)) }
    ensures fault { IfErr result (HasInputFault (lines text.now)) }
{
    let mut lists = Vec::new(alloc);
    let mut paths = IndexSet::new(alloc);
    let mut number = 0;
    for line in text.split(|b| *b == b'\n') {
        number += 1;
        add_line(alloc, &mut lists, &mut paths, number, line)?;
    }
    Ok(lists)
}

/// Adds what a line says to the lists and paths of the earlier lines.
fn add_line(
    alloc: Global,
    lists: &mut Vec<(Path, Vec<i64>)>,
    paths: &mut IndexSet<Vec<u32>>,
    number: u64,
    line: &[u8],
) -> Result<(), InputFault>
    requires { paths_in paths.old ≡ paths_of (lists_of lists.old.items) }
    ensures paths { OnOk result (paths_in paths.new ≡ paths_of (lists_of lists.new.items)) }
    ensures line { OnOk result (AddsLine line.now (lists_of lists.old.items) (lists_of lists.new.items)) }
    ensures stop { IfErr result (StopsAt number line.now (lists_of lists.old.items)) }
{
    match read_line(alloc, line)? {
        Line::Nothing => Ok(()),
        Line::Bad => Err(InputFault::BadLine(number)),
        Line::Numbers(path, numbers) => {
            if !add_path(alloc, paths, path.parts())? {
                return Err(InputFault::TwicePath(number));
            }
            Ok(add_list(lists, path, numbers)?)
        }
    }
}

/// Adds a path to a set; whether it is new.
fn add_path(alloc: Global, paths: &mut IndexSet<Vec<u32>>, path: &[u32]) -> Result<bool, AllocError>
    ensures { IfOk result (λ added. AddsPath (paths_in paths.old) path.now added (paths_in paths.new)) }
{
    if let Some(_) = paths.get_index_of(path) {
        return Ok(false);
    }
    paths.insert(Vec::from_slice(alloc, path)?)?;
    Ok(true)
}

fn add_list(
    lists: &mut Vec<(Path, Vec<i64>)>,
    path: Path,
    numbers: Vec<i64>,
) -> Result<(), AllocError>
    ensures { OnOk result (lists_of lists.new.items ≡ lists_of lists.old.items ++ (path, numbers.items) ∷ []) }
{
    lists.push((path, numbers))?;
    Ok(())
}
