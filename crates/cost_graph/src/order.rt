ghost use Rattle.std.specs.Prelude.{◌≡◌, ◌<◌, ◌++◌, length, OnOk, IfOk, MatchBool, true, slice_set, slice_index};
ghost use Rattle.std.specs.List.{filter};
ghost use Rattle.cost_graph.specs.Graph.{vertex_total, children_at, Edge, IsAcyclic};
ghost use Rattle.cost_graph.specs.Marks.{IsSeen};
ghost use Rattle.cost_graph.specs.Inside.Marks.{is_free};
ghost use Rattle.cost_graph.specs.Order.{IsCyclic, IsBeforeCycles, IsSortedOrStuck};

use crate::graph::Graph;
use crate::marks::{sources, visit};
use std::alloc::{AllocError, Global};

// Marks the vertex at a place of the order, and adds those that it frees at the end.
fn pass(
    graph: &Graph,
    place: usize,
    marks: &mut Vec<bool>,
    seen: &mut Vec<usize>,
    order: &mut Vec<u32>,
) -> Result<(), AllocError>
    requires place_in { place < length order.old.items }
    requires vertex_in { slice_index order.old.items place < vertex_total graph.now }
    requires watched { IsSeen graph.now marks.old.items seen.old.items }
    ensures watched { OnOk result (IsSeen graph.now marks.new.items seen.new.items) }
    ensures marked { OnOk result (marks.new.items ≡ slice_set marks.old.items (slice_index order.old.items place) true) }
    ensures order { OnOk result (order.new.items ≡ order.old.items
        ++ filter (is_free graph.now marks.new.items) (children_at graph.now (slice_index order.old.items place))) }
{
    let vertex = order[place];
    order.reserve(graph.children_of(vertex).len())?;
    visit(graph, marks, seen, vertex, order);
    Ok(())
}

/// The vertices to which no cycle leads, in an order in which each stands after its parents: all of them exactly where
/// the graph has no cycle, and fewer than it has where there is one.
pub fn topological(alloc: Global, graph: &Graph) -> Result<Vec<u32>, AllocError>
    ensures order { IfOk result (λ order. IsBeforeCycles graph.now order.items) }
    ensures whole { IfOk result (λ order. IsSortedOrStuck graph.now order.items) }
{
    let count = graph.vertex_count() as usize;
    let mut marks = vec![in alloc; false; count]?;
    let mut seen = vec![in alloc; 0usize; count]?;
    let mut order = sources(alloc, graph)?;
    let mut place = 0;
    'places: while place < order.len() {
        pass(graph, place, &mut marks, &mut seen, &mut order)?;
        place += 1;
    }
    Ok(order)
}

/// Whether some vertex has a path of edges, at least one, back to itself.
pub fn has_cycle(alloc: Global, graph: &Graph) -> Result<bool, AllocError>
    ensures { IfOk result (λ b. MatchBool b (IsCyclic (Edge graph.now)) (IsAcyclic graph.now)) }
{
    let count = graph.vertex_count() as usize;
    let order = topological(alloc, graph)?;
    Ok(order.len() < count)
}
