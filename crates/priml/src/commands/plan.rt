//! `plan`: the canonical plan of the run's cost graph.
ghost use Rattle.std.specs.Prelude.{◌<◌, ◌≤◌, ◌^◌};
ghost use Rattle.priml_io.specs.declared.words.Command.{Command};
ghost use Rattle.priml.specs.Commands.{Of};
ghost use Rattle.priml.specs.Inside.Reply.{Replies};

use crate::graphs::plan as the_plan;
use crate::layers::done;
use crate::prefixes::graphed;
use crate::refusal::Stop;
use prompt_checker::plan_text;
use std::alloc::Global;
use std::mem::forget;

/// Answers the text of the canonical plan on so many cores of a run of at most so many steps.
pub fn plan(alloc: Global, cores: u32, most: u64, input: &[u8]) -> Result<Vec<u8>, Stop>
    requires cores { 1 ≤ cores }
    requires most { most < 2 ^ 32 }
    ensures { Replies (Of (Command.Plan cores most) input.now) result }
{
    let (_, job, records, graph) = graphed(alloc, input, most)?;
    let order = job.order();
    let schedule = the_plan(alloc, &graph, order, cores)?;
    let text = plan_text(alloc, &graph, &schedule);
    // as in `serial`
    forget(job);
    forget(records);
    forget(graph);
    done(text)
}
