//! `judge`: the run, and the response of each thread under the schedule of the input.
ghost use Rattle.std.specs.Prelude.{◌<◌, ◌≤◌, ◌^◌};
ghost use Rattle.priml_io.specs.declared.words.Command.{Command};
ghost use Rattle.priml.specs.Commands.{Of};
ghost use Rattle.priml.specs.Inside.Reply.{Replies};

use crate::graphs::{prompt, report, schedule};
use crate::prefixes::graphed;
use crate::refusal::Stop;
use std::alloc::Global;
use std::mem::forget;

/// Answers the report on the schedule of the input on so many cores, where it is prompt, of a run of at most so many steps.
pub fn judge(alloc: Global, cores: u32, most: u64, input: &[u8]) -> Result<Vec<u8>, Stop>
    requires some { 1 ≤ cores }
    requires few { cores ≤ 1024 }
    requires most { most < 2 ^ 32 }
    ensures { Replies (Of (Command.Judge cores most) input.now) result }
{
    let (sections, job, records, graph) = graphed(alloc, input, most)?;
    let schedule = schedule(alloc, &graph, sections.schedule)?;
    let order = job.order();
    let judged = prompt(alloc, graph, order, cores, &schedule)?;
    let reply = report(alloc, order, &records, &judged, cores, &schedule);
    // as in `serial`
    forget(job);
    forget(records);
    forget(judged);
    reply
}
