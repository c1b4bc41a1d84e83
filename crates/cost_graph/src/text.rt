//! Vertices as text.
ghost use Rattle.std.specs.Prelude.{◌≡◌, ◌<◌, ◌++◌, OnOk, OnErr};
ghost use Rattle.std.specs.String.{string_bytes};
ghost use Rattle.cost_graph.specs.Graph.{vertex_total};
ghost use Rattle.cost_graph.specs.Text.{vertex_text};

use crate::graph::Graph;
use priml_syntax::push_path_and;
use std::alloc::AllocError;

/// Appends a vertex: the path of its thread, a colon, and its number in it. Where memory is wanting the text stays as
/// it was.
pub fn push_vertex(text: &mut String, graph: &Graph, vertex: u32) -> Result<(), AllocError>
    requires { vertex < vertex_total graph.now }
    ensures ok { OnOk result (string_bytes text.new ≡ string_bytes text.old ++ vertex_text graph.now vertex) }
    ensures kept { OnErr result (string_bytes text.new ≡ string_bytes text.old) }
{
    let thread = graph.thread_of(vertex);
    let number = graph.number_of(vertex);
    push_path_and(text, graph.path_of(thread), ":", number)
}
