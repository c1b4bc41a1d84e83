//! `graph`: the cost graph of the run.
ghost use Rattle.std.specs.Prelude.{◌<◌, ◌^◌};
ghost use Rattle.priml_io.specs.declared.words.Command.{Command};
ghost use Rattle.priml.specs.Commands.{Of};
ghost use Rattle.priml.specs.Inside.Reply.{Replies};

use crate::layers::done;
use crate::prefixes::graphed;
use crate::refusal::Stop;
use std::alloc::Global;
use std::mem::forget;

/// Answers the text of the cost graph of the run, which has at most so many steps.
pub fn graph(alloc: Global, most: u64, input: &[u8]) -> Result<Vec<u8>, Stop>
    requires { most < 2 ^ 32 }
    ensures { Replies (Of (Command.Graph most) input.now) result }
{
    let (_, job, records, graph) = graphed(alloc, input, most)?;
    let text = graph.graph_text(alloc, job.order());
    // as in `serial`
    forget(job);
    forget(records);
    forget(graph);
    done(text)
}
