ghost use Rattle.std.specs.Prelude.{◌≡◌, ℕ, ◌+◌, ◌-◌, ◌<◌, ◌++◌, ◌∷◌, [], length, IfOk, OnOk, true, get_or, set, ◌^◌};
ghost use Rattle.std.specs.List.{All};
ghost use Rattle.cost_graph.specs.Graph.{vertex_total, parents_at, children_at};
ghost use Rattle.cost_graph.specs.Order.{IsTopological};
ghost use Rattle.cost_graph.specs.View.{lists};
ghost use Rattle.span_bound.specs.Inside.Segments.{Follows, AreSegmentsOf, AreSegmentsOfFirst, AreSegments, images, last_of};

use cost_graph::Graph;
use std::alloc::{AllocError, Global};

/// The vertices of a graph cut into segments, which are numbered so that edges lead from lesser numbers to greater ones.
/// A segment is a run of vertices of a thread in which each but the first has just one parent, the one before, which has no other child.
#[derive(Drop)]
pub(crate) struct Segments {
    // of each segment the first vertex
    pub heads: Vec<u32>,
    // of each segment the number of its vertices
    pub lens: Vec<u32>,
    // of each vertex the segment
    pub slots: Vec<u32>,
    // of each segment those from which edges lead to its first vertex
    pub parents: Vec<Vec<u32>>,
    // of each segment those to which edges lead from its last vertex
    pub children: Vec<Vec<u32>>,
}

// Whether the vertex stands in the segment of the one before it.
fn follows(graph: &Graph, vertex: u32) -> bool
    requires { vertex < vertex_total graph.now }
    ensures { result ≡ true → Follows graph.now vertex }
{
    let _count = graph.vertex_count();
    let thread = graph.thread_of(vertex);
    if graph.first_of(thread) == vertex {
        return false;
    }
    graph.parents_of(vertex).len() == 1 && graph.children_of(vertex - 1).len() == 1
}

// The slots of the vertices.
pub(crate) fn images_of(
    alloc: Global,
    slots: &[u32],
    vertices: &[u32],
) -> Result<Vec<u32>, AllocError>
    requires { All (λ v. v < length slots.now) vertices.now }
    ensures { IfOk result (λ v. v.items ≡ images slots.now vertices.now) }
{
    let mut found = Vec::with_capacity(alloc, vertices.len())?;
    for vertex in vertices {
        found.push(slots[*vertex as usize])?;
    }
    Ok(found)
}

// Adds the vertex to the segment of the one before it.
fn extend(lens: &mut Vec<u32>, slots: &mut Vec<u32>, vertex: u32)
    requires some { 0 < vertex }
    requires within { vertex < length slots.old.items }
    requires slot { get_or slots.old.items (vertex - 1) 0 < length lens.old.items }
    requires small { get_or lens.old.items (get_or slots.old.items (vertex - 1) 0) 0 + 1 < 2 ^ 32 }
    ensures slots { slots.new.items ≡ set slots.old.items vertex (get_or slots.old.items (vertex - 1) 0) }
    ensures lens { lens.new.items ≡ set lens.old.items (get_or slots.old.items (vertex - 1) 0)
        (get_or lens.old.items (get_or slots.old.items (vertex - 1) 0) 0 + 1) }
{
    let slot = slots[vertex as usize - 1];
    slots[vertex as usize] = slot;
    lens[slot as usize] += 1;
}

// Begins a segment with the vertex.
fn begin(
    heads: &mut Vec<u32>,
    lens: &mut Vec<u32>,
    slots: &mut Vec<u32>,
    vertex: u32,
) -> Result<(), AllocError>
    requires within { vertex < length slots.old.items }
    requires few { length heads.old.items < 2 ^ 32 }
    ensures heads { OnOk result (heads.new.items ≡ heads.old.items ++ vertex ∷ []) }
    ensures lens { OnOk result (lens.new.items ≡ lens.old.items ++ 1 ∷ []) }
    ensures slots { OnOk result (slots.new.items ≡ set slots.old.items vertex (length heads.old.items)) }
{
    slots[vertex as usize] = heads.len() as u32;
    heads.push(vertex)?;
    lens.push(1)?;
    Ok(())
}

// Gives the vertex at this place of the order its segment.
fn add(
    graph: &Graph,
    along: &[u32],
    place: usize,
    heads: &mut Vec<u32>,
    lens: &mut Vec<u32>,
    slots: &mut Vec<u32>,
) -> Result<(), AllocError>
    requires along { IsTopological graph.now along.now }
    requires place { place < length along.now }
    requires cut { AreSegmentsOfFirst graph.now along.now place heads.old.items lens.old.items slots.old.items }
    ensures { OnOk result (AreSegmentsOfFirst graph.now along.now (place + 1) heads.new.items lens.new.items slots.new.items) }
{
    let _count = graph.vertex_count();
    let vertex = along[place];
    if follows(graph, vertex) {
        extend(lens, slots, vertex);
        return Ok(());
    }
    begin(heads, lens, slots, vertex)?;
    Ok(())
}

// The first vertices, the lengths and the slots.
fn cut_of(
    alloc: Global,
    graph: &Graph,
    along: &[u32],
) -> Result<(Vec<u32>, Vec<u32>, Vec<u32>), AllocError>
    requires { IsTopological graph.now along.now }
    ensures { IfOk result (λ c. AreSegmentsOf graph.now c.0.items c.1.items c.2.items) }
{
    let count = graph.vertex_count();
    let mut heads = Vec::new(alloc);
    let mut lens = Vec::new(alloc);
    let mut slots = vec![in alloc; 0u32; count as usize]?;
    for place in 0..along.len() {
        add(graph, along, place, &mut heads, &mut lens, &mut slots)?;
    }
    Ok((heads, lens, slots))
}

// Of each segment those from which edges lead to its first vertex.
fn parents_in(
    alloc: Global,
    graph: &Graph,
    heads: &[u32],
    slots: &[u32],
) -> Result<Vec<Vec<u32>>, AllocError>
    requires within { All (λ v. v < vertex_total graph.now) heads.now }
    requires covers { length slots.now ≡ vertex_total graph.now }
    ensures long { IfOk result (λ p. length p.items ≡ length heads.now) }
    ensures are { IfOk result (λ p. (s : ℕ) → s < length heads.now →
        get_or (lists p.items) s [] ≡ images slots.now (parents_at graph.now (get_or heads.now s 0))) }
{
    let _count = graph.vertex_count();
    let mut all = Vec::with_capacity(alloc, heads.len())?;
    for head in heads {
        let parents = images_of(alloc, slots, graph.parents_of(*head))?;
        all.push(parents)?;
    }
    Ok(all)
}

// Of each segment those to which edges lead from its last vertex.
fn children_in(
    alloc: Global,
    graph: &Graph,
    heads: &[u32],
    lens: &[u32],
    slots: &[u32],
) -> Result<Vec<Vec<u32>>, AllocError>
    requires cut { AreSegmentsOf graph.now heads.now lens.now slots.now }
    ensures long { IfOk result (λ c. length c.items ≡ length heads.now) }
    ensures are { IfOk result (λ c. (s : ℕ) → s < length heads.now →
        get_or (lists c.items) s [] ≡ images slots.now (children_at graph.now (last_of heads.now lens.now s))) }
{
    let _count = graph.vertex_count();
    let mut all = Vec::with_capacity(alloc, heads.len())?;
    for s in 0..heads.len() {
        let last = heads[s] + (lens[s] - 1);
        let children = images_of(alloc, slots, graph.children_of(last))?;
        all.push(children)?;
    }
    Ok(all)
}

/// The segments of a graph without cycles, by an order of its vertices in which each stands after its parents.
pub(crate) fn segments_of(
    alloc: Global,
    graph: &Graph,
    along: &[u32],
) -> Result<Segments, AllocError>
    requires along { IsTopological graph.now along.now }
    ensures { IfOk result (AreSegments graph.now) }
{
    let (heads, lens, slots) = cut_of(alloc, graph, along)?;
    let parents = parents_in(alloc, graph, &heads, &slots)?;
    let children = children_in(alloc, graph, &heads, &lens, &slots)?;
    Ok(Segments {
        heads,
        lens,
        slots,
        parents,
        children,
    })
}
