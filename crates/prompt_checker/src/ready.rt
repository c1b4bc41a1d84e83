//! The vertices that are ready, by priority.
ghost use Rattle.std.specs.Prelude.{◌≡◌, ℕ, ◌<◌, ◌↔◌, ◌⊎◌, length, true, false, None, OnOk, IfOk, MatchBool, IfSome};
ghost use Rattle.std.specs.List.{All, Contains};
ghost use Rattle.cost_graph.specs.declared.graph.Thread.{Thread as TheThread};
ghost use Rattle.cost_graph.specs.Graph.{vertex_total, vertex_priority};
ghost use Rattle.prompt_checker.specs.Inside.Watch.{IsLeastOf, lesser_of, holds, IsAbove, IsHeld, IsIdle, IsOvertaken, IsUnfair};

use crate::schedule::FlawKind;
use cost_graph::Graph;
use priority_order::Order;
use std::alloc::{AllocError, Global};
use std::collections::BTreeSet;

/// So many empty sets.
pub(crate) fn empty_sets(alloc: Global, count: u32) -> Result<Vec<BTreeSet<u32>>, AllocError>
    ensures long { IfOk result (λ s. length s.items ≡ count) }
    ensures empty { IfOk result (λ s. (p v : ℕ) → holds s.items p v ≡ false) }
{
    let mut sets = Vec::new(alloc);
    for _ in 0..count {
        sets.push(BTreeSet::new(alloc))?;
    }
    Ok(sets)
}

/// Puts the vertices into the sets of their priorities.
pub(crate) fn add_ready(
    graph: &Graph,
    ready: &mut Vec<BTreeSet<u32>>,
    vertices: &Vec<u32>,
) -> Result<(), AllocError>
    requires vertices { All (λ v. v < vertex_total graph.now) vertices.now.items }
    requires priorities { All (λ (t : TheThread). t.priority < length ready.old.items) graph.now.threads }
    ensures long { length ready.new.items ≡ length ready.old.items }
    ensures held { OnOk result ((p v : ℕ) → (holds ready.new.items p v ≡ true)
        ↔ ((holds ready.old.items p v ≡ true) ⊎ (Contains vertices.now.items v × (vertex_priority graph.now v ≡ p)))) }
{
    for vertex in vertices {
        let p = graph.priority_of_vertex(*vertex) as usize;
        ready[p].insert(*vertex)?;
    }
    Ok(())
}

// Takes the vertices of the line out of the sets of their priorities.
fn take_out(graph: &Graph, ready: &mut Vec<BTreeSet<u32>>, line: &Vec<u32>)
    requires vertices { All (λ v. v < vertex_total graph.now) line.now.items }
    requires priorities { All (λ (t : TheThread). t.priority < length ready.old.items) graph.now.threads }
    ensures long { length ready.new.items ≡ length ready.old.items }
    ensures held { (p v : ℕ) → (holds ready.new.items p v ≡ true)
        ↔ ((holds ready.old.items p v ≡ true) × ((Contains line.now.items v × (vertex_priority graph.now v ≡ p)) → Prim.⊥)) }
{
    for vertex in line {
        let p = graph.priority_of_vertex(*vertex) as usize;
        ready[p].remove(vertex);
    }
}

/// Takes the line out of the sets, and answers what is wrong with it by the vertices that stay there: a core is
/// idle, or one of them is of a priority strictly above that of a vertex of the line. None where nothing is.
pub(crate) fn unfair(
    graph: &Graph,
    order: &Order,
    cores: u32,
    ready: &mut Vec<BTreeSet<u32>>,
    line: &Vec<u32>,
) -> Option<FlawKind>
    requires vertices { All (λ v. v < vertex_total graph.now) line.now.items }
    requires priorities { All (λ (t : TheThread). t.priority < length order.now.names) graph.now.threads }
    requires sets { length ready.old.items ≡ length order.now.names }
    ensures long { length ready.new.items ≡ length ready.old.items }
    ensures held { (p v : ℕ) → (holds ready.new.items p v ≡ true)
        ↔ ((holds ready.old.items p v ≡ true) × ((Contains line.now.items v × (vertex_priority graph.now v ≡ p)) → Prim.⊥)) }
    ensures flaw { IsUnfair graph.now order.now.pairs cores ready.new.items line.now.items result }
{
    take_out(graph, ready, line);
    if let Some(vertex) = idle(order, cores, ready, line) {
        return Some(FlawKind::IdleCore(vertex));
    }
    match overtaken(graph, order, ready, line) {
        Some((vertex, other)) => Some(FlawKind::Inverted(vertex, other)),
        None => None,
    }
}

// The least vertex of the sets, where the line leaves a core idle.
fn idle(order: &Order, cores: u32, ready: &Vec<BTreeSet<u32>>, line: &Vec<u32>) -> Option<u32>
    requires { length ready.now.items ≡ length order.now.names }
    ensures { IsIdle order.now.pairs cores ready.now.items line.now.items result }
{
    if line.len() >= cores as usize {
        return None;
    }
    match least_held(order, ready, None) {
        Some(vertex) => Some(vertex),
        None => None,
    }
}

// The first vertex of the line with one above it in the sets, and the least such one.
fn overtaken(
    graph: &Graph,
    order: &Order,
    ready: &Vec<BTreeSet<u32>>,
    line: &Vec<u32>,
) -> Option<(u32, u32)>
    requires vertices { All (λ v. v < vertex_total graph.now) line.now.items }
    requires priorities { All (λ (t : TheThread). t.priority < length order.now.names) graph.now.threads }
    requires sets { length ready.now.items ≡ length order.now.names }
    ensures { IsOvertaken graph.now order.now.pairs ready.now.items line.now.items result }
{
    for vertex in line {
        let low = graph.priority_of_vertex(*vertex);
        if let Some(other) = least_held(order, ready, Some(low)) {
            return Some((*vertex, other));
        }
    }
    None
}

// The least vertex in the sets of the priorities above; of all sets where none is given.
fn least_held(order: &Order, ready: &Vec<BTreeSet<u32>>, low: Option<u32>) -> Option<u32>
    requires sets { length ready.now.items ≡ length order.now.names }
    requires low { IfSome low (λ a. a < length order.now.names) }
    ensures { IsLeastOf (IsHeld order.now.pairs ready.now.items low) result }
{
    let mut best = None;
    for p in 0..order.count() {
        best = lesser(best, least_at(order, ready, low, p));
    }
    best
}

// The least vertex in the set of priority p, where p is above.
fn least_at(order: &Order, ready: &Vec<BTreeSet<u32>>, low: Option<u32>, p: u32) -> Option<u32>
    requires sets { length ready.now.items ≡ length order.now.names }
    requires low { IfSome low (λ a. a < length order.now.names) }
    requires p { p < length order.now.names }
    ensures { IsLeastOf (λ v. IsAbove order.now.pairs low p × (holds ready.now.items p v ≡ true)) result }
{
    if !is_above(order, low, p) {
        return None;
    }
    match ready[p as usize].first() {
        Some(vertex) => Some(*vertex),
        None => None,
    }
}

fn is_above(order: &Order, low: Option<u32>, p: u32) -> bool
    requires low { IfSome low (λ a. a < length order.now.names) }
    requires p { p < length order.now.names }
    ensures { MatchBool result (IsAbove order.now.pairs low p) (IsAbove order.now.pairs low p → Prim.⊥) }
{
    match low {
        Some(a) => order.less(a, p),
        None => true,
    }
}

fn lesser(a: Option<u32>, b: Option<u32>) -> Option<u32>
    ensures { result ≡ lesser_of a b }
{
    match a {
        None => b,
        Some(x) => match b {
            None => Some(x),
            Some(y) => Some(x.min(y)),
        },
    }
}
