//! Whether a graph is well formed.
ghost use Rattle.std.specs.Prelude.{◌≡◌, ◌*◌, ◌<◌, ◌≤◌, ◌↔◌, length, Err, IsTrue, IfOk, MatchBool, MatchOption};
ghost use Rattle.std.specs.List.{All};
ghost use Rattle.cost_graph.specs.declared.graph.Thread.{Thread as TheThread};
ghost use Rattle.cost_graph.specs.declared.stop.GraphStop.TheVariants.{TooLarge};
ghost use Rattle.cost_graph.specs.Graph.{most_looks, vertex_total, thread_total, first_vertex, last_vertex, IsAcyclic, IsAncestor, IsProperAncestor, IsWellFormed, IsThreadWellFormed};
ghost use Rattle.cost_graph.specs.Order.{IsTopological, AreMarked};
ghost use Rattle.cost_graph.specs.Shape.{IsShape, IsUnfit, IsFirstUnfit};
ghost use Rattle.cost_graph.specs.Inside.Shape.{IsFit};

use crate::graph::Graph;
use crate::order::topological;
use crate::reachability::ancestors;
use crate::stop::{GraphStop, Shape};
use priority_order::Order;
use std::alloc::{AllocError, Global};

/// The most that threads times vertices may be where each thread looks at each vertex.
pub const MOST_LOOKS: u64 = 134_217_728;

/// Whether the graph is well formed over the order, or the first thread for which it is not, with its first vertex
/// that shows it. The graph has no cycle, and the priorities of its threads are below the order's count. TooLarge
/// exactly where threads times vertices exceeds 134,217,728.
pub fn well_formed(alloc: Global, graph: &Graph, order: &Order) -> Result<Shape, GraphStop>
    requires acyclic { IsAcyclic graph.now }
    requires priorities { All (λ (t : TheThread). t.priority < length order.now.names) graph.now.threads }
    ensures shape { IfOk result (IsShape graph.now order.now.pairs) }
    ensures good { IfOk result (λ s. (s ≡ Shape.Good) ↔ IsWellFormed graph.now order.now.pairs) }
    ensures fits { IfOk result (λ _. thread_total graph.now * vertex_total graph.now ≤ most_looks) }
    ensures large { result ≡ Err TooLarge → most_looks < thread_total graph.now * vertex_total graph.now }
    ensures exact { most_looks < thread_total graph.now * vertex_total graph.now → result ≡ Err TooLarge }
{
    if u64::from(graph.thread_count()) * u64::from(graph.vertex_count()) > MOST_LOOKS {
        return Err(GraphStop::TooLarge);
    }
    Ok(shape_of(alloc, graph, order)?)
}

// Whether the graph is well formed.
fn shape_of(alloc: Global, graph: &Graph, order: &Order) -> Result<Shape, AllocError>
    requires acyclic { IsAcyclic graph.now }
    requires priorities { All (λ (t : TheThread). t.priority < length order.now.names) graph.now.threads }
    ensures { IfOk result (IsShape graph.now order.now.pairs) }
{
    let along = topological(alloc, graph)?;
    for thread in 0..graph.thread_count() {
        if let Some(vertex) = first_unfit(alloc, graph, order, &along, thread)? {
            return Ok(Shape::Bad(thread, vertex));
        }
    }
    Ok(Shape::Good)
}

// The first vertex that shows that the thread is not well formed.
fn first_unfit(
    alloc: Global,
    graph: &Graph,
    order: &Order,
    along: &Vec<u32>,
    thread: u32,
) -> Result<Option<u32>, AllocError>
    requires acyclic { IsAcyclic graph.now }
    requires along { IsTopological graph.now along.now.items }
    requires thread { thread < thread_total graph.now }
    requires priorities { All (λ (t : TheThread). t.priority < length order.now.names) graph.now.threads }
    ensures { IfOk result (λ r. MatchOption r (IsThreadWellFormed graph.now order.now.pairs thread) (IsFirstUnfit graph.now order.now.pairs thread)) }
{
    let last = ancestors(alloc, graph, along, graph.last_of(thread))?;
    let first = ancestors(alloc, graph, along, graph.first_of(thread))?;
    Ok(search(graph, order, thread, &last, &first))
}

// The same, where the proper ancestors of the thread's last vertex and of its first are marked.
fn search(
    graph: &Graph,
    order: &Order,
    thread: u32,
    last: &Vec<bool>,
    first: &Vec<bool>,
) -> Option<u32>
    requires thread { thread < thread_total graph.now }
    requires priorities { All (λ (t : TheThread). t.priority < length order.now.names) graph.now.threads }
    requires last { AreMarked graph.now (λ v. IsProperAncestor graph.now v (last_vertex graph.now thread)) last.now.items }
    requires first { AreMarked graph.now (λ v. IsProperAncestor graph.now v (first_vertex graph.now thread)) first.now.items }
    ensures { MatchOption result (IsThreadWellFormed graph.now order.now.pairs thread) (IsFirstUnfit graph.now order.now.pairs thread) }
{
    for vertex in 0..graph.vertex_count() {
        if is_unfit(graph, order, thread, vertex, last, first) {
            return Some(vertex);
        }
    }
    None
}

// Whether the vertex is an ancestor of the thread's last vertex and not of its first, and has not at least its priority.
fn is_unfit(
    graph: &Graph,
    order: &Order,
    thread: u32,
    vertex: u32,
    last: &Vec<bool>,
    first: &Vec<bool>,
) -> bool
    requires thread { thread < thread_total graph.now }
    requires vertex { vertex < vertex_total graph.now }
    requires priorities { All (λ (t : TheThread). t.priority < length order.now.names) graph.now.threads }
    requires last { AreMarked graph.now (λ v. IsProperAncestor graph.now v (last_vertex graph.now thread)) last.now.items }
    requires first { AreMarked graph.now (λ v. IsProperAncestor graph.now v (first_vertex graph.now thread)) first.now.items }
    ensures { MatchBool result (IsUnfit graph.now order.now.pairs thread vertex) (IsFit graph.now order.now.pairs thread vertex) }
{
    if !is_ancestor(graph, last, graph.last_of(thread), vertex) {
        return false;
    }
    if is_ancestor(graph, first, graph.first_of(thread), vertex) {
        return false;
    }
    !order.leq(graph.priority_of(thread), graph.priority_of_vertex(vertex))
}

// Whether the vertex is an ancestor of the target, whose proper ancestors are marked.
fn is_ancestor(graph: &Graph, marks: &Vec<bool>, target: u32, vertex: u32) -> bool
    requires vertex { vertex < vertex_total graph.now }
    requires marks { AreMarked graph.now (λ v. IsProperAncestor graph.now v target) marks.now.items }
    ensures { IsTrue result ↔ IsAncestor graph.now vertex target }
{
    let _count = graph.vertex_count();
    if vertex == target {
        return true;
    }
    marks[vertex as usize]
}
