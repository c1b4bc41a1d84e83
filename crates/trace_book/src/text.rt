//! Cuts as text.
ghost use Rattle.std.specs.Prelude.{◌≡◌, ◌++◌, OnOk};
ghost use Rattle.std.specs.String.{string_bytes};
ghost use Rattle.std.specs.List.{flat_map};
ghost use Rattle.trace_book.specs.CutsText.{cut_line};

use crate::segment::Cut;
use priml_syntax::{Path, push_path};
use std::alloc::AllocError;
use std::fmt::Write;

// Appends the lines of a thread's cuts.
pub(crate) fn push_cuts(text: &mut String, path: &Path, cuts: &[Cut]) -> Result<(), AllocError>
    ensures { OnOk result (string_bytes text.new ≡ string_bytes text.old ++ flat_map (cut_line path.now) cuts.now) }
{
    for cut in cuts {
        push_cut(text, path, *cut)?;
    }
    Ok(())
}

// Appends the line of a cut.
fn push_cut(text: &mut String, path: &Path, cut: Cut) -> Result<(), AllocError>
    ensures { OnOk result (string_bytes text.new ≡ string_bytes text.old ++ cut_line path.now cut) }
{
    write!(text, "cut ")?;
    push_path(text, path)?;
    writeln!(
        text,
        " from {} steps {} worker {}",
        cut.from, cut.steps, cut.worker
    )
}
