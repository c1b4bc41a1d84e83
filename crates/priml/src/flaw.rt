//! Flaws of schedules, and how they are written without memory.
ghost use Rattle.std.specs.Prelude.{◌≡◌, ◌<◌, ◌≤◌, ◌++◌, codes, length, OnErr};
ghost use Rattle.std.specs.Fmt.{decimal};
ghost use Rattle.std.specs.List.{flat_map};
ghost use Rattle.cost_graph.specs.Graph.{vertex_total};
ghost use Rattle.cost_graph.specs.Text.{vertex_text};
ghost use Rattle.priml_io.specs.Ends.{Rose};
ghost use Rattle.priml_io.specs.Whole.{Writes};
ghost use Rattle.priml_syntax.specs.Text.{dotted, path_text};
ghost use Rattle.priml.specs.Lines.{line, at_vertex, flaw_text, flaw_line, NamesVertices};

use cost_graph::Graph;
use itoa::Buffer;
use priml_io::{Sink, WriteStop, write_all};
use prompt_checker::{Flaw, FlawKind};
use std::marker::Model;

/// A flaw of a schedule, and the graph whose vertices it names.
#[derive(Drop)]
pub struct Flawed {
    graph: Graph,
    flaw: Flaw,
}

impl Model for Flawed {
    ghost use Rattle.priml.specs.Lines.{FlawOf, NamesVertices};

    ghost Value = { FlawOf };

    ghost view = { λ f. record { graph = f.graph; flaw = f.flaw } };

    ghost invariant = { λ f. NamesVertices f.graph f.flaw.kind };
}

impl Flawed {
    /// A flaw that names vertices of the graph.
    pub fn new(graph: Graph, flaw: Flaw) -> Flawed
        requires { NamesVertices graph flaw.kind }
        ensures { result ≡ record { graph = graph; flaw = flaw } }
    {
        Flawed { graph, flaw }
    }

    /// Writes the line of the flaw. It takes no memory.
    pub fn write<K: Sink>(&self, sink: &mut K) -> Result<(), WriteStop>
        ensures bytes { Writes (K.written sink.old) (K.written sink.new) (flaw_line self.now.graph self.now.flaw) result }
        ensures later { K.faults sink.old ≤ K.faults sink.new }
        ensures fault { OnErr result (Rose (K.faults sink.old) (K.faults sink.new)) }
    {
        write_flaw(sink, &self.graph, self.flaw)
    }
}

// Writes the line of a flaw: its step, its kind, and a line feed.
fn write_flaw<K: Sink>(sink: &mut K, graph: &Graph, flaw: Flaw) -> Result<(), WriteStop>
    requires { NamesVertices graph.now flaw.kind }
    ensures bytes { Writes (K.written sink.old) (K.written sink.new) (flaw_line graph.now flaw) result }
    ensures later { K.faults sink.old ≤ K.faults sink.new }
    ensures fault { OnErr result (Rose (K.faults sink.old) (K.faults sink.new)) }
{
    write_step(sink, flaw.step)?;
    write_rest(sink, graph, flaw.kind)
}

// Writes the step of a flaw.
fn write_step<K: Sink>(sink: &mut K, step: u64) -> Result<(), WriteStop>
    ensures bytes { Writes (K.written sink.old) (K.written sink.new) (codes "flaw: step " ++ decimal step ++ codes " ") result }
    ensures later { K.faults sink.old ≤ K.faults sink.new }
    ensures fault { OnErr result (Rose (K.faults sink.old) (K.faults sink.new)) }
{
    write_all(sink, b"flaw: step ")?;
    write_spaced(sink, step)
}

// Writes the number in decimal, and a space.
fn write_spaced<K: Sink>(sink: &mut K, number: u64) -> Result<(), WriteStop>
    ensures bytes { Writes (K.written sink.old) (K.written sink.new) (decimal number ++ codes " ") result }
    ensures later { K.faults sink.old ≤ K.faults sink.new }
    ensures fault { OnErr result (Rose (K.faults sink.old) (K.faults sink.new)) }
{
    write_number(sink, number)?;
    write_all(sink, b" ")
}

// Writes the kind of a flaw, and a line feed.
fn write_rest<K: Sink>(sink: &mut K, graph: &Graph, kind: FlawKind) -> Result<(), WriteStop>
    requires { NamesVertices graph.now kind }
    ensures bytes { Writes (K.written sink.old) (K.written sink.new) (line (flaw_text graph.now kind)) result }
    ensures later { K.faults sink.old ≤ K.faults sink.new }
    ensures fault { OnErr result (Rose (K.faults sink.old) (K.faults sink.new)) }
{
    write_kind(sink, graph, kind)?;
    write_all(sink, b"\n")
}

// Writes the kind of a flaw, with its vertices.
fn write_kind<K: Sink>(sink: &mut K, graph: &Graph, kind: FlawKind) -> Result<(), WriteStop>
    requires { NamesVertices graph.now kind }
    ensures bytes { Writes (K.written sink.old) (K.written sink.new) (flaw_text graph.now kind) result }
    ensures later { K.faults sink.old ≤ K.faults sink.new }
    ensures fault { OnErr result (Rose (K.faults sink.old) (K.faults sink.new)) }
{
    match kind {
        FlawKind::EmptyStep => write_all(sink, b"empty"),
        FlawKind::TooWide => write_all(sink, b"wide"),
        FlawKind::Twice(v) => write_at(sink, b"twice ", graph, v),
        FlawKind::NotReady(v) => write_at(sink, b"not ready ", graph, v),
        FlawKind::IdleCore(u) => write_at(sink, b"idle ", graph, u),
        FlawKind::Inverted(v, u) => write_inverted(sink, graph, v, u),
        FlawKind::Unfinished(u) => write_at(sink, b"unfinished ", graph, u),
    }
}

// Writes that the first vertex stands before the second, which is above it.
#[tactic(auto, using(crate::proofs::Pieces::pieces))]
fn write_inverted<K: Sink>(sink: &mut K, graph: &Graph, v: u32, u: u32) -> Result<(), WriteStop>
    requires first { v < vertex_total graph.now }
    requires second { u < vertex_total graph.now }
    ensures bytes { Writes (K.written sink.old) (K.written sink.new) (at_vertex (codes "inverted ") graph.now v ++ at_vertex (codes " ") graph.now u) result }
    ensures later { K.faults sink.old ≤ K.faults sink.new }
    ensures fault { OnErr result (Rose (K.faults sink.old) (K.faults sink.new)) }
{
    write_at(sink, b"inverted ", graph, v)?;
    write_at(sink, b" ", graph, u)
}

// Writes a text and a vertex.
#[tactic(auto, using(crate::proofs::Pieces::pieces))]
fn write_at<K: Sink>(sink: &mut K, text: &[u8], graph: &Graph, vertex: u32) -> Result<(), WriteStop>
    requires { vertex < vertex_total graph.now }
    ensures bytes { Writes (K.written sink.old) (K.written sink.new) (at_vertex text.now graph.now vertex) result }
    ensures later { K.faults sink.old ≤ K.faults sink.new }
    ensures fault { OnErr result (Rose (K.faults sink.old) (K.faults sink.new)) }
{
    write_all(sink, text)?;
    write_vertex(sink, graph, vertex)
}

// Writes a vertex: the path of its thread, a colon, and its number in it.
fn write_vertex<K: Sink>(sink: &mut K, graph: &Graph, vertex: u32) -> Result<(), WriteStop>
    requires { vertex < vertex_total graph.now }
    ensures bytes { Writes (K.written sink.old) (K.written sink.new) (vertex_text graph.now vertex) result }
    ensures later { K.faults sink.old ≤ K.faults sink.new }
    ensures fault { OnErr result (Rose (K.faults sink.old) (K.faults sink.new)) }
{
    let thread = graph.thread_of(vertex);
    let number = graph.number_of(vertex);
    write_name(sink, graph.path_of(thread).parts(), number)
}

// Writes the numbers of a path with a dot between, a colon and a number.
fn write_name<K: Sink>(sink: &mut K, parts: &[u32], number: u32) -> Result<(), WriteStop>
    requires { 0 < length parts.now }
    ensures bytes { Writes (K.written sink.old) (K.written sink.new) (path_text parts.now ++ (codes ":" ++ decimal number)) result }
    ensures later { K.faults sink.old ≤ K.faults sink.new }
    ensures fault { OnErr result (Rose (K.faults sink.old) (K.faults sink.new)) }
{
    write_path(sink, parts)?;
    write_marked(sink, b":", number)
}

// Writes the numbers of a path with a dot between.
fn write_path<K: Sink>(sink: &mut K, parts: &[u32]) -> Result<(), WriteStop>
    requires { 0 < length parts.now }
    ensures bytes { Writes (K.written sink.old) (K.written sink.new) (path_text parts.now) result }
    ensures later { K.faults sink.old ≤ K.faults sink.new }
    ensures fault { OnErr result (Rose (K.faults sink.old) (K.faults sink.new)) }
{
    write_parts(sink, parts[0], &parts[1..])
}

// Writes a number, and others with a dot before each.
fn write_parts<K: Sink>(sink: &mut K, first: u32, rest: &[u32]) -> Result<(), WriteStop>
    ensures bytes { Writes (K.written sink.old) (K.written sink.new) (decimal first ++ flat_map dotted rest.now) result }
    ensures later { K.faults sink.old ≤ K.faults sink.new }
    ensures fault { OnErr result (Rose (K.faults sink.old) (K.faults sink.new)) }
{
    write_marked(sink, b"", first)?;
    write_dotted(sink, rest)
}

// Writes each number with a dot before it.
#[tactic(auto, using(crate::proofs::Pieces::pieces))]
fn write_dotted<K: Sink>(sink: &mut K, numbers: &[u32]) -> Result<(), WriteStop>
    ensures bytes { Writes (K.written sink.old) (K.written sink.new) (flat_map dotted numbers.now) result }
    ensures later { K.faults sink.old ≤ K.faults sink.new }
    ensures fault { OnErr result (Rose (K.faults sink.old) (K.faults sink.new)) }
{
    for number in numbers {
        write_marked(sink, b".", *number)?;
    }
    Ok(())
}

// Writes a mark and a number.
#[tactic(auto, using(crate::proofs::Pieces::pieces))]
fn write_marked<K: Sink>(sink: &mut K, mark: &[u8], number: u32) -> Result<(), WriteStop>
    ensures bytes { Writes (K.written sink.old) (K.written sink.new) (mark.now ++ decimal number) result }
    ensures later { K.faults sink.old ≤ K.faults sink.new }
    ensures fault { OnErr result (Rose (K.faults sink.old) (K.faults sink.new)) }
{
    write_all(sink, mark)?;
    write_number(sink, u64::from(number))
}

// Writes the number in decimal.
fn write_number<K: Sink>(sink: &mut K, number: u64) -> Result<(), WriteStop>
    ensures bytes { Writes (K.written sink.old) (K.written sink.new) (decimal number) result }
    ensures later { K.faults sink.old ≤ K.faults sink.new }
    ensures fault { OnErr result (Rose (K.faults sink.old) (K.faults sink.new)) }
{
    let mut digits = Buffer::new();
    write_all(sink, digits.format(number).as_bytes())
}
