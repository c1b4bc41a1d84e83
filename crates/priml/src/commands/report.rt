//! `report`: the run, and the response of each thread under the canonical plan.
ghost use Rattle.std.specs.Prelude.{ℕ, List, map, length, ◌<◌, ◌≤◌, ◌^◌};
ghost use Rattle.std.specs.List.{All};
ghost use Rattle.priml_io.specs.Sections.{Sections};
ghost use Rattle.priml_io.specs.declared.words.Command.{Command};
ghost use Rattle.priml_syntax.specs.Read.{read_program, read_record};
ghost use Rattle.priml_syntax.specs.declared.record.Record.{Record as TheRecord};
ghost use Rattle.priority_order.specs.Order.{Names};
ghost use Rattle.type_rules.specs.Stops.{IsOrderOf};
ghost use Rattle.priml.specs.Commands.{Of, Planned};
ghost use Rattle.priml.specs.Inside.Prefixes.{IsGraphed, IsSound};
ghost use Rattle.priml.specs.Inside.Reply.{Replies};

use crate::graphs::{plan, report as the_report};
use crate::prefixes::graphed;
use crate::refusal::Stop;
use cost_graph::Graph;
use priml_syntax::Records;
use std::alloc::Global;
use std::mem::forget;
use type_rules::Job;

/// Answers the report on the canonical plan on so many cores of a run of at most so many steps.
pub fn report(alloc: Global, cores: u32, most: u64, input: &[u8]) -> Result<Vec<u8>, Stop>
    requires some { 1 ≤ cores }
    requires few { cores ≤ 1024 }
    requires most { most < 2 ^ 32 }
    ensures { Replies (Of (Command.Report cores most) input.now) result }
{
    let (_, job, records, graph) = graphed(alloc, input, most)?;
    planned(alloc, cores, job, records, graph)
}

/// Answers the report on the canonical plan of a cost graph, on so many cores.
pub fn planned(
    alloc: Global,
    cores: u32,
    job: Job,
    records: Records,
    graph: Graph,
) -> Result<Vec<u8>, Stop>
    requires declared { All (λ (r : TheRecord). r.prio < length (read_program job.program).names) records }
    requires sound { (o : Names) → IsOrderOf (read_program job.program) o → IsSound graph o }
    requires some { 1 ≤ cores }
    requires few { cores ≤ 1024 }
    ensures { (most : ℕ) (input : List ℕ) (s : Sections) →
        IsGraphed most input s (read_program job.program) (map read_record records) graph → Replies (Planned cores most input) result }
{
    let order = job.order();
    let schedule = plan(alloc, &graph, order, cores)?;
    let reply = the_report(alloc, order, &records, &graph, cores, &schedule);
    // as in `serial`
    forget(job);
    forget(records);
    forget(graph);
    reply
}
