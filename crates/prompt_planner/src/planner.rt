ghost use Rattle.std.specs.Prelude.{◌≡◌, ℕ, ◌<◌, ◌≤◌, ◌↔◌, ◌⊎◌, length, List, map, take, drop, OnOk, IfOk, slice_index};
ghost use Rattle.std.specs.List.{All, Contains};
ghost use Rattle.cost_graph.specs.declared.graph.Thread.{Thread as TheThread};
ghost use Rattle.cost_graph.specs.Graph.{vertex_total, IsAcyclic, IsVertexBelow};
ghost use Rattle.prompt_checker.specs.Plan.{IsPlan};
ghost use Rattle.prompt_checker.specs.Schedule.{IsPrompt};
ghost use Rattle.prompt_checker.specs.Read.{steps_of};
ghost use Rattle.prompt_planner.specs.Lanes.{LanesFit, IsCanonical};

use crate::lanes::lanes_of;
use cost_graph::{Frontier, Graph};
use priority_order::Order;
use prompt_checker::Schedule;
use std::alloc::{AllocError, Global};
use std::collections::BTreeSet;

// Takes up to `cores` of the first keys out of the set, and answers their vertices.
fn take_first(
    alloc: Global,
    ready: &mut BTreeSet<(u32, u32)>,
    cores: u32,
) -> Result<Vec<u32>, AllocError>
    ensures taken { IfOk result (λ step. step.items ≡ map (λ k. k.1) (take cores ready.old.keys)) }
    ensures left { OnOk result (ready.new.keys ≡ drop cores ready.old.keys) }
{
    let mut step = Vec::new(alloc);
    for _ in 0..cores {
        match ready.pop_first() {
            Some((_, vertex)) => step.push(vertex)?,
            None => return Ok(step),
        }
    }
    Ok(step)
}

// Adds the vertices, each behind its lane.
fn add_ready(
    ready: &mut BTreeSet<(u32, u32)>,
    lanes: &[u32],
    vertices: &Vec<u32>,
) -> Result<(), AllocError>
    requires { All (λ v. v < length lanes.now) vertices.now.items }
    ensures { OnOk result ((k : ℕ × ℕ) → Contains ready.new.keys k
        ↔ (Contains ready.old.keys k ⊎ (Contains vertices.now.items k.1 × (k.0 ≡ slice_index lanes.now k.1)))) }
{
    for vertex in vertices {
        ready.insert((lanes[*vertex as usize], *vertex))?;
    }
    Ok(())
}

/// The canonical plan on so many cores: at each step the first ready vertices, by lane and then by number, until none
/// is left. `lanes` has the lane of each vertex.
pub fn plan_by_lanes(
    alloc: Global,
    graph: &Graph,
    lanes: &[u32],
    cores: u32,
) -> Result<Schedule, AllocError>
    requires cores { 1 ≤ cores }
    requires lanes { length lanes.now ≡ vertex_total graph.now }
    ensures plan { IfOk result (λ s. IsPlan graph.now lanes.now cores (steps_of s)) }
    ensures unique { IfOk result (λ s. (other : List (List ℕ)) → IsPlan graph.now lanes.now cores other → other ≡ steps_of s) }
    ensures prompt { IfOk result (λ s. (pairs : List (ℕ × ℕ)) → IsAcyclic graph.now → LanesFit graph.now pairs lanes.now →
        IsPrompt graph.now (IsVertexBelow graph.now pairs) cores (steps_of s)) }
{
    let _count = graph.vertex_count();
    let mut frontier = Frontier::start(alloc, graph)?;
    let mut ready = BTreeSet::new(alloc);
    let start = frontier.ready(alloc)?;
    add_ready(&mut ready, lanes, &start)?;
    let mut steps = Vec::new(alloc);
    'steps: while ready.len() > 0 {
        let step = take_first(alloc, &mut ready, cores)?;
        let freed = frontier.step(alloc, &step)?;
        add_ready(&mut ready, lanes, &freed)?;
        steps.push(step)?;
    }
    Ok(Schedule { steps })
}

/// The canonical plan on so many cores, which are at least 1: at each step the first ready vertices, by the lane of
/// their priority and then by number, until none is left. The graph has no cycle, and the priorities of its threads
/// are below the order's count. The plan is prompt.
pub fn plan(alloc: Global, graph: &Graph, order: &Order, cores: u32) -> Result<Schedule, AllocError>
    requires acyclic { IsAcyclic graph.now }
    requires cores { 1 ≤ cores }
    requires priorities { All (λ (t : TheThread). t.priority < length order.now.names) graph.now.threads }
    ensures plan { IfOk result (λ s. IsCanonical graph.now order.now.pairs (length order.now.names) cores (steps_of s)) }
    ensures unique { IfOk result (λ s. (other : List (List ℕ)) →
        IsCanonical graph.now order.now.pairs (length order.now.names) cores other → other ≡ steps_of s) }
    ensures prompt { IfOk result (λ s. IsPrompt graph.now (IsVertexBelow graph.now order.now.pairs) cores (steps_of s)) }
    ensures within { IfOk result (λ s. All (λ step. All (λ v. v < vertex_total graph.now) step) (steps_of s)) }
{
    let lanes = lanes_of(alloc, graph, order)?;
    plan_by_lanes(alloc, graph, &lanes, cores)
}
