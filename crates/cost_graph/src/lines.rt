ghost use Rattle.std.specs.Prelude.{◌≡◌, ◌++◌, ◌∷◌, [], ◌<◌, OnOk, IfOk, length, codes};
ghost use Rattle.std.specs.String.{string_bytes};
ghost use Rattle.std.specs.Fmt.{decimal};
ghost use Rattle.std.specs.List.{All, flat_map, range_with_len};
ghost use Rattle.cost_graph.specs.declared.graph.Thread.{Thread as TheThread};
ghost use Rattle.cost_graph.specs.Graph.{vertex_total, thread_total, parents_at, thread_at};
ghost use Rattle.cost_graph.specs.Text.{thread_line, edge_line, spawn_lines, joins_to, join_lines, graph_lines};

use crate::graph::Graph;
use crate::text::push_vertex;
use priml_syntax::push_path;
use priority_order::Order;
use std::alloc::{AllocError, Global};
use std::fmt::Write;

impl Graph {
    /// The text of the graph: for each thread, in the order of paths, its path, its priority's name and the number of
    /// its vertices; then for each thread the edge from the vertex that spawned it, if there is one, to its first
    /// vertex; then, by the vertex that they lead to, the edges of joins. Edges from a vertex to its thread's next are
    /// not written.
    pub fn graph_text(&self, alloc: Global, order: &Order) -> Result<Vec<u8>, AllocError>
        requires { All (λ (t : TheThread). t.priority < length order.now.names) self.now.threads }
        ensures { IfOk result (λ v. v.items ≡ graph_lines self.now order.now.names) }
    {
        let mut text = String::new(alloc);
        push_threads(&mut text, self, order)?;
        push_spawns(&mut text, self)?;
        push_joins(&mut text, self)?;
        Ok(text.into_bytes())
    }
}

// Appends the lines of the threads.
fn push_threads(text: &mut String, graph: &Graph, order: &Order) -> Result<(), AllocError>
    requires { All (λ (t : TheThread). t.priority < length order.now.names) graph.now.threads }
    ensures { OnOk result (string_bytes text.new ≡ string_bytes text.old ++ flat_map (thread_line order.now.names) graph.now.threads) }
{
    for thread in 0..graph.thread_count() {
        push_thread(text, graph, order, thread)?;
    }
    Ok(())
}

// Appends the line of a thread.
fn push_thread(
    text: &mut String,
    graph: &Graph,
    order: &Order,
    thread: u32,
) -> Result<(), AllocError>
    requires thread { thread < thread_total graph.now }
    requires priorities { All (λ (t : TheThread). t.priority < length order.now.names) graph.now.threads }
    ensures { OnOk result (string_bytes text.new ≡ string_bytes text.old ++ thread_line order.now.names (thread_at graph.now thread)) }
{
    write!(text, "thread ")?;
    push_path(text, graph.path_of(thread))?;
    let name = order.name(graph.priority_of(thread));
    push_counted(text, name, graph.vertices_of(thread))
}

// Appends what stands after a thread's path.
fn push_counted(text: &mut String, name: &str, count: u32) -> Result<(), AllocError>
    ensures { OnOk result (string_bytes text.new ≡ string_bytes text.old ++ (codes " " ++ name.now ++ codes " " ++ decimal count ++ 10 ∷ [])) }
{
    writeln!(text, " {name} {count}")
}

// Appends the lines of the spawn edges.
fn push_spawns(text: &mut String, graph: &Graph) -> Result<(), AllocError>
    ensures { OnOk result (string_bytes text.new ≡ string_bytes text.old ++ flat_map (spawn_lines graph.now) (range_with_len 0 (thread_total graph.now))) }
{
    for thread in 0..graph.thread_count() {
        push_spawn(text, graph, thread)?;
    }
    Ok(())
}

// Appends the lines of the join edges.
fn push_joins(text: &mut String, graph: &Graph) -> Result<(), AllocError>
    ensures { OnOk result (string_bytes text.new ≡ string_bytes text.old ++ flat_map (join_lines graph.now) (range_with_len 0 (vertex_total graph.now))) }
{
    for vertex in 0..graph.vertex_count() {
        push_join(text, graph, vertex)?;
    }
    Ok(())
}

// Appends the lines of the edges to the first vertex of a thread.
fn push_spawn(text: &mut String, graph: &Graph, thread: u32) -> Result<(), AllocError>
    requires { thread < thread_total graph.now }
    ensures { OnOk result (string_bytes text.new ≡ string_bytes text.old ++ spawn_lines graph.now thread) }
{
    let _count = graph.vertex_count();
    let first = graph.first_of(thread);
    let parents = graph.parents_of(first);
    for parent in parents {
        push_edge(text, graph, "spawn", *parent, first)?;
    }
    Ok(())
}

// Appends the lines of the join edges to a vertex, which is none where the vertex is the first of its thread.
fn push_join(text: &mut String, graph: &Graph, vertex: u32) -> Result<(), AllocError>
    requires { vertex < vertex_total graph.now }
    ensures { OnOk result (string_bytes text.new ≡ string_bytes text.old ++ join_lines graph.now vertex) }
{
    let thread = graph.thread_of(vertex);
    if graph.first_of(thread) == vertex {
        return Ok(());
    }
    push_others(text, graph, vertex)
}

// Appends the lines of the edges to a vertex, but for the one from the vertex before it.
fn push_others(text: &mut String, graph: &Graph, vertex: u32) -> Result<(), AllocError>
    requires { vertex < vertex_total graph.now }
    ensures { OnOk result (string_bytes text.new ≡ string_bytes text.old
        ++ flat_map (edge_line graph.now (codes "join") vertex) (joins_to vertex (parents_at graph.now vertex))) }
{
    let _count = graph.vertex_count();
    let parents = graph.parents_of(vertex);
    for parent in parents {
        push_other(text, graph, *parent, vertex)?;
    }
    Ok(())
}

// Appends the line of the edge from the parent, unless it is the vertex before.
fn push_other(text: &mut String, graph: &Graph, parent: u32, vertex: u32) -> Result<(), AllocError>
    requires from { parent < vertex_total graph.now }
    requires to { vertex < vertex_total graph.now }
    ensures { OnOk result (string_bytes text.new ≡ string_bytes text.old
        ++ flat_map (edge_line graph.now (codes "join") vertex) (joins_to vertex (parent ∷ []))) }
{
    let _count = graph.vertex_count();
    if parent + 1 == vertex {
        return Ok(());
    }
    push_edge(text, graph, "join", parent, vertex)
}

// Appends the line of an edge.
fn push_edge(
    text: &mut String,
    graph: &Graph,
    kind: &str,
    from: u32,
    to: u32,
) -> Result<(), AllocError>
    requires from { from < vertex_total graph.now }
    requires to { to < vertex_total graph.now }
    ensures { OnOk result (string_bytes text.new ≡ string_bytes text.old ++ edge_line graph.now kind.now to from) }
{
    write!(text, "{kind} ")?;
    push_vertex(text, graph, from)?;
    write!(text, " ")?;
    push_vertex(text, graph, to)?;
    writeln!(text)
}
