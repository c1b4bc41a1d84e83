ghost use Rattle.std.specs.Prelude.{◌≡◌, ℕ, ◌+◌, ◌<◌, ◌≤◌, length, ◌++◌, true, false, slice_index, slice_set, OnOk, OnErr, IfOk, IfSome, ◌==◌, vec_len, vec_capacity};
ghost use Rattle.std.specs.List.{All, filter, list_all, range_with_len, sum_by};
ghost use Rattle.cost_graph.specs.Graph.{vertex_total, parents_at, children_at};
ghost use Rattle.cost_graph.specs.Marks.{is_marked, IsSeen};
ghost use Rattle.cost_graph.specs.Inside.Marks.{is_free, freed_by, marks_after};

use crate::graph::Graph;
use std::alloc::{AllocError, Global};

// How many of the numbers, from the front, are marked, where the first `from` are known to be.
fn marked_front(marks: &[bool], numbers: &[u32], from: usize) -> usize
    requires within { All (λ n. n < length marks.now) numbers.now }
    requires from_in { from ≤ length numbers.now }
    requires known { (k : ℕ) → k < from → is_marked marks.now (slice_index numbers.now k) ≡ true }
    ensures in_range { result ≤ length numbers.now }
    ensures marked { (k : ℕ) → k < result → is_marked marks.now (slice_index numbers.now k) ≡ true }
    ensures stops { result < length numbers.now → is_marked marks.now (slice_index numbers.now result) ≡ false }
{
    let mut at = from;
    while at < numbers.len() && marks[numbers[at] as usize] {
        at += 1;
    }
    at
}

/// Marks the vertex, and adds its children all of whose parents are now marked; there is room for all its children.
/// `seen` says of each vertex how many of its parents, from the front, are known to be marked, so that all visits
/// together look at each edge twice.
pub(crate) fn visit(
    graph: &Graph,
    marks: &mut [bool],
    seen: &mut [usize],
    vertex: u32,
    free: &mut Vec<u32>,
)
    requires vertex_in { vertex < vertex_total graph.now }
    requires watched { IsSeen graph.now marks.old seen.old }
    requires room { vec_len free.old + length (children_at graph.now vertex) ≤ vec_capacity free.old }
    ensures marked { marks.new ≡ slice_set marks.old vertex true }
    ensures watched { IsSeen graph.now marks.new seen.new }
    ensures freed { free.new.items ≡ free.old.items ++ filter (is_free graph.now marks.new) (children_at graph.now vertex) }
    ensures few { vec_len free.new ≤ vec_len free.old + length (children_at graph.now vertex) }
    ensures capacity { vec_capacity free.old ≤ vec_capacity free.new }
{
    let _count = graph.vertex_count();
    marks[vertex as usize] = true;
    for child in graph.children_of(vertex) {
        let parents = graph.parents_of(*child);
        let front = marked_front(marks, parents, seen[*child as usize]);
        seen[*child as usize] = front;
        if front == parents.len() {
            free.push(*child).unwrap();
        }
    }
}

// How many children the vertices have, counted for each; None where no number is as large.
fn count_children(graph: &Graph, vertices: &Vec<u32>) -> Option<usize>
    requires { All (λ v. v < vertex_total graph.now) vertices.now.items }
    ensures { IfSome result (λ n. n ≡ sum_by (λ v. length (children_at graph.now v)) vertices.now.items) }
{
    let mut count = 0usize;
    for vertex in vertices {
        count = count.checked_add(graph.children_of(*vertex).len())?;
    }
    Some(count)
}

/// Whether each of the numbers is marked.
pub(crate) fn are_marked(marks: &[bool], numbers: &[u32]) -> bool
    requires { All (λ n. n < length marks.now) numbers.now }
    ensures { result ≡ list_all (is_marked marks.now) numbers.now }
{
    numbers.iter().all(|n| marks[*n as usize])
}

/// Visits the vertices in turn, and answers those that they free. Where memory is wanting nothing is visited.
pub(crate) fn run_step(
    alloc: Global,
    graph: &Graph,
    marks: &mut Vec<bool>,
    seen: &mut Vec<usize>,
    step: &Vec<u32>,
) -> Result<Vec<u32>, AllocError>
    requires vertices { All (λ v. v < vertex_total graph.now) step.now.items }
    requires watched { IsSeen graph.now marks.old.items seen.old.items }
    ensures watched { IsSeen graph.now marks.new.items seen.new.items }
    ensures marked { OnOk result (marks.new.items ≡ marks_after marks.old.items step.now.items) }
    ensures freed { IfOk result (λ f. f.items ≡ freed_by graph.now marks.old.items step.now.items) }
    ensures kept { OnErr result ((marks.new.items ≡ marks.old.items) × (seen.new.items ≡ seen.old.items)) }
{
    let Some(room) = count_children(graph, step) else {
        return Err(AllocError);
    };
    let mut freed = Vec::with_capacity(alloc, room)?;
    for vertex in step {
        visit(graph, marks, seen, *vertex, &mut freed);
    }
    Ok(freed)
}

/// The vertices without parents, ascending.
pub(crate) fn sources(alloc: Global, graph: &Graph) -> Result<Vec<u32>, AllocError>
    ensures { IfOk result (λ f. f.items ≡ filter (λ v. length (parents_at graph.now v) == 0) (range_with_len 0 (vertex_total graph.now))) }
{
    let mut found = Vec::new(alloc);
    for vertex in 0..graph.vertex_count() {
        if graph.parents_of(vertex).is_empty() {
            found.push(vertex)?;
        }
    }
    Ok(found)
}
