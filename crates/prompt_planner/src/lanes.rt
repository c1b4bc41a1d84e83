ghost use Rattle.std.specs.Prelude.{◌≡◌, ℕ, ◌<◌, length, List, IfOk};
ghost use Rattle.std.specs.List.{All};
ghost use Rattle.priority_order.specs.Order.{HasLane, IsBelow};
ghost use Rattle.cost_graph.specs.declared.graph.Thread.{Thread as TheThread};
ghost use Rattle.cost_graph.specs.Graph.{vertex_total, vertex_priority};
ghost use Rattle.prompt_planner.specs.Lanes.{LanesFit, AreLanesOf};

use cost_graph::Graph;
use priority_order::Order;
use std::alloc::{AllocError, Global};

/// For each vertex the lane of its priority.
pub(crate) fn lanes_of(alloc: Global, graph: &Graph, order: &Order) -> Result<Vec<u32>, AllocError>
    requires priorities { All (λ (t : TheThread). t.priority < length order.now.names) graph.now.threads }
    ensures are { IfOk result (λ l. AreLanesOf graph.now order.now.pairs (length order.now.names) l.items) }
    ensures only { IfOk result (λ l. (other : List ℕ) → AreLanesOf graph.now order.now.pairs (length order.now.names) other → other ≡ l.items) }
    ensures fit { IfOk result (λ l. LanesFit graph.now order.now.pairs l.items) }
{
    let mut lanes = Vec::new(alloc);
    for vertex in 0..graph.vertex_count() {
        lanes.push(lane_of(graph, order, vertex))?;
    }
    Ok(lanes)
}

// The lane of the vertex's priority.
fn lane_of(graph: &Graph, order: &Order, vertex: u32) -> u32
    requires vertex { vertex < vertex_total graph.now }
    requires priorities { All (λ (t : TheThread). t.priority < length order.now.names) graph.now.threads }
    ensures is { HasLane order.now.pairs (length order.now.names) (vertex_priority graph.now vertex) result }
    ensures only { (k : ℕ) → HasLane order.now.pairs (length order.now.names) (vertex_priority graph.now vertex) k → k ≡ result }
    ensures above { (b k : ℕ) → HasLane order.now.pairs (length order.now.names) b k →
        IsBelow order.now.pairs (vertex_priority graph.now vertex) b → k < result }
{
    order.lane(graph.priority_of_vertex(vertex))
}
