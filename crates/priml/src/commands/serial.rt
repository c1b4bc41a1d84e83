//! `serial`: the run of the program, each thread whole before its parent goes on.
ghost use Rattle.priml_io.specs.declared.words.Command.{Command};
ghost use Rattle.priml.specs.Commands.{Of};
ghost use Rattle.priml.specs.Inside.Reply.{Replies};

use crate::layers::done;
use crate::prefixes::recorded;
use crate::refusal::Stop;
use serial_meaning::run_text;
use std::alloc::Global;
use std::mem::forget;

/// Answers the text of the run, which has at most so many steps.
pub fn serial(alloc: Global, most: u64, input: &[u8]) -> Result<Vec<u8>, Stop>
    ensures { Replies (Of (Command.Serial most) input.now) result }
{
    let (_, job, records) = recorded(alloc, input, most)?;
    let text = run_text(alloc, &records, job.order());
    // the process ends soon: to free the program and the records takes time for nothing
    forget(job);
    forget(records);
    done(text)
}
