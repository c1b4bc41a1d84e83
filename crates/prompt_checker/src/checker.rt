ghost use Rattle.std.specs.Prelude.{◌≡◌, ◌+◌, ◌<◌, ◌≤◌, ◌^◌, length, IfOk};
ghost use Rattle.std.specs.List.{All};
ghost use Rattle.cost_graph.specs.declared.graph.Thread.{Thread as TheThread};
ghost use Rattle.cost_graph.specs.Graph.{vertex_total, IsAcyclic, IsVertexBelow};
ghost use Rattle.prompt_checker.specs.declared.schedule.Verdict.{Verdict as TheVerdict};
ghost use Rattle.prompt_checker.specs.Read.{steps_of};
ghost use Rattle.prompt_checker.specs.Verdict.{IsVerdict};

use crate::marks::{broken, first_missing};
use crate::ready::{add_ready, empty_sets, unfair};
use crate::schedule::{Flaw, FlawKind, Schedule, Verdict};
use cost_graph::{Frontier, Graph};
use priority_order::Order;
use std::alloc::{AllocError, Global};

/// Whether the schedule is prompt on so many cores, which are at least 1, or its first flaw: the least step decides,
/// then the least kind, then the first vertex, in the order of the step's line or else by number. The graph has no
/// cycle, and the schedule's vertices and the threads' priorities are below the counts.
pub fn judge(
    alloc: Global,
    graph: &Graph,
    order: &Order,
    cores: u32,
    schedule: &Schedule,
) -> Result<Verdict, AllocError>
    requires acyclic { IsAcyclic graph.now }
    requires cores { 1 ≤ cores }
    requires vertices { All (λ s. All (λ v. v < vertex_total graph.now) s) (steps_of schedule.now) }
    requires priorities { All (λ (t : TheThread). t.priority < length order.now.names) graph.now.threads }
    ensures verdict { IfOk result (IsVerdict graph.now (IsVertexBelow graph.now order.now.pairs) cores (steps_of schedule.now)) }
    ensures only { IfOk result (λ v. (other : TheVerdict) →
        IsVerdict graph.now (IsVertexBelow graph.now order.now.pairs) cores (steps_of schedule.now) other → other ≡ v) }
{
    let count = graph.vertex_count();
    let mut stood = vec![in alloc; false; count as usize]?;
    let mut frontier = Frontier::start(alloc, graph)?;
    let mut ready = empty_sets(alloc, order.count())?;
    let start = frontier.ready(alloc)?;
    add_ready(graph, &mut ready, &start)?;
    for i in 0..schedule.steps.len() {
        let line = &schedule.steps[i];
        if let Some(kind) = broken(&frontier, cores, &mut stood, line) {
            return Ok(flaw_at(i, kind));
        }
        if let Some(kind) = unfair(graph, order, cores, &mut ready, line) {
            return Ok(flaw_at(i, kind));
        }
        let freed = frontier.step(alloc, line)?;
        add_ready(graph, &mut ready, &freed)?;
    }
    match first_missing(&frontier, count) {
        Some(vertex) => Ok(flaw_at(schedule.steps.len(), FlawKind::Unfinished(vertex))),
        None => Ok(Verdict::Prompt),
    }
}

// The flaw of a step that is counted from 0.
fn flaw_at(step: usize, kind: FlawKind) -> Verdict
    requires { step < 2 ^ 63 }
    ensures { result ≡ Verdict.Flaw (record { step = step + 1; kind = kind }) }
{
    Verdict::Flaw(Flaw {
        step: step as u64 + 1,
        kind,
    })
}
