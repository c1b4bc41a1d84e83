ghost use Rattle.std.specs.Prelude.{◌<◌, ◌↔◌, length, IfOk, IsTrue, true, false};
ghost use Rattle.std.specs.List.{All};
ghost use Rattle.cost_graph.specs.Graph.{IsAcyclic, IsProperAncestor};
ghost use Rattle.cost_graph.specs.Order.{IsTopological, AreMarked};
ghost use Rattle.cost_graph.specs.Inside.Order.{HasWay};

use crate::graph::Graph;
use std::alloc::{AllocError, Global};

// Whether one of the vertices is the target, or is marked.
fn has_way(marks: &Vec<bool>, vertices: &[u32], target: u32) -> bool
    requires { All (λ v. v < length marks.now.items) vertices.now }
    ensures { IsTrue result ↔ HasWay marks.now.items vertices.now target }
{
    for vertex in vertices {
        if *vertex == target || marks[*vertex as usize] {
            return true;
        }
    }
    false
}

/// Marks the proper ancestors of the target: the other vertices from which a path of edges leads to it.
pub fn ancestors(
    alloc: Global,
    graph: &Graph,
    order: &[u32],
    target: u32,
) -> Result<Vec<bool>, AllocError>
    requires order { IsTopological graph.now order.now }
    requires acyclic { IsAcyclic graph.now }
    ensures { IfOk result (λ marks. AreMarked graph.now (λ v. IsProperAncestor graph.now v target) marks.items) }
{
    let count = graph.vertex_count() as usize;
    let mut marks = vec![in alloc; false; count]?;
    let mut place = order.len();
    'places: while place > 0 {
        place -= 1;
        let vertex = order[place];
        let above = has_way(&marks, graph.children_of(vertex), target);
        marks[vertex as usize] = above;
    }
    Ok(marks)
}

/// Marks the proper descendants of the source: the other vertices to which a path of edges leads from it.
pub fn descendants(
    alloc: Global,
    graph: &Graph,
    order: &[u32],
    source: u32,
) -> Result<Vec<bool>, AllocError>
    requires acyclic { IsAcyclic graph.now }
    requires order { IsTopological graph.now order.now }
    ensures { IfOk result (λ marks. AreMarked graph.now (IsProperAncestor graph.now source) marks.items) }
{
    let count = graph.vertex_count() as usize;
    let mut marks = vec![in alloc; false; count]?;
    for vertex in order {
        let beneath = has_way(&marks, graph.parents_of(*vertex), source);
        marks[*vertex as usize] = beneath;
    }
    Ok(marks)
}
