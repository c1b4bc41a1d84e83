ghost use Rattle.std.specs.Prelude.{◌≡◌, ℕ, ◌<◌, ◌≤◌, ◌↔◌, length, get_or, slice_index, IfOk};
ghost use Rattle.std.specs.List.{All};
ghost use Rattle.std.specs.Int.{bit_at};
ghost use Rattle.cost_graph.specs.Graph.{vertex_total, IsAcyclic, IsProperAncestor};
ghost use Rattle.span_bound.specs.Inside.Words.{AreMarkedForEach, HasBit, Owns};
ghost use Rattle.span_bound.specs.Inside.Segments.{AreSegments, last_of, spread};

use crate::segments::{Segments, images_of};
use cost_graph::Graph;
use std::alloc::{AllocError, Global};

// For each number below the count the word in which bit i is 1 exactly where it is the i-th of the places.
fn places_of(alloc: Global, count: u32, places: &[u32]) -> Result<Vec<u64>, AllocError>
    requires few { length places.now ≤ 64 }
    requires within { All (λ p. p < count) places.now }
    ensures covers { IfOk result (λ words. length words.items ≡ count) }
    ensures are { IfOk result (λ words. (i v : ℕ) → i < length places.now → (bit_at (slice_index words.items v) i ≡ 1) ↔ (v ≡ slice_index places.now i)) }
{
    let mut words = vec![in alloc; 0u64; count as usize]?;
    let width = places.len() as u32;
    for i in 0..width {
        let place = places[i as usize] as usize;
        words[place] = words[place] | (1u64 << i);
    }
    Ok(words)
}

// For each segment the word in which bit i is 1 exactly where the i-th of the vertices stands in it.
fn own_words(
    alloc: Global,
    graph: &Graph,
    segments: &Segments,
    vertices: &[u32],
) -> Result<Vec<u64>, AllocError>
    requires segments { AreSegments graph.now segments.now }
    requires few { length vertices.now ≤ 64 }
    requires within { All (λ v. v < vertex_total graph.now) vertices.now }
    ensures covers { IfOk result (λ words. length words.items ≡ length segments.now.heads.items) }
    ensures owns { IfOk result (λ words. Owns segments.now.slots.items vertices.now words.items) }
{
    let _total = graph.vertex_count();
    let count = segments.heads.len();
    let places = images_of(alloc, &segments.slots, vertices)?;
    let own = places_of(alloc, count as u32, &places)?;
    Ok(own)
}

// The bits that one of the vertices has in one of its two words.
fn joined(words: &Vec<u64>, own: &Vec<u64>, vertices: &[u32]) -> u64
    requires within { All (λ v. v < length words.now.items) vertices.now }
    requires own { length own.now.items ≡ length words.now.items }
    ensures { (i : ℕ) → (bit_at result i ≡ 1) ↔ HasBit words.now.items own.now.items vertices.now i }
{
    let mut word = 0u64;
    for vertex in vertices {
        word = word | (own[*vertex as usize] | words[*vertex as usize]);
    }
    word
}

/// Bit i of the word of a segment is 1 exactly where its vertices are proper ancestors of the i-th of the targets, at most 64,
/// each the first vertex of a segment.
pub(crate) fn ancestors_of_each(
    alloc: Global,
    graph: &Graph,
    segments: &Segments,
    targets: &[u32],
) -> Result<Vec<u64>, AllocError>
    requires first { All (λ t. get_or segments.now.heads.items (get_or segments.now.slots.items t 0) 0 ≡ t) targets.now }
    requires segments { AreSegments graph.now segments.now }
    requires acyclic { IsAcyclic graph.now }
    requires few { length targets.now ≤ 64 }
    requires within { All (λ t. t < vertex_total graph.now) targets.now }
    ensures long { IfOk result (λ words. length words.items ≡ length segments.now.heads.items) }
    ensures are { IfOk result (λ words. AreMarkedForEach graph.now (length targets.now)
        (λ i v. IsProperAncestor graph.now v (slice_index targets.now i)) (spread segments.now.slots.items words.items)) }
{
    let _total = graph.vertex_count();
    let count = segments.heads.len();
    let own = own_words(alloc, graph, segments, targets)?;
    let mut words = vec![in alloc; 0u64; count]?;
    let mut place = count;
    'places: while place > 0 {
        place -= 1;
        let ancestor_marks = joined(&words, &own, &segments.children[place]);
        words[place] = ancestor_marks;
    }
    Ok(words)
}

/// Bit i of the word of a segment is 1 exactly where its vertices are proper descendants of the i-th of the sources, at most 64,
/// each the last vertex of a segment.
pub(crate) fn descendants_of_each(
    alloc: Global,
    graph: &Graph,
    segments: &Segments,
    sources: &[u32],
) -> Result<Vec<u64>, AllocError>
    requires last { All (λ s. last_of segments.now.heads.items segments.now.lens.items (get_or segments.now.slots.items s 0) ≡ s) sources.now }
    requires segments { AreSegments graph.now segments.now }
    requires acyclic { IsAcyclic graph.now }
    requires few { length sources.now ≤ 64 }
    requires within { All (λ s. s < vertex_total graph.now) sources.now }
    ensures long { IfOk result (λ words. length words.items ≡ length segments.now.heads.items) }
    ensures are { IfOk result (λ words. AreMarkedForEach graph.now (length sources.now)
        (λ i v. IsProperAncestor graph.now (slice_index sources.now i) v) (spread segments.now.slots.items words.items)) }
{
    let _total = graph.vertex_count();
    let count = segments.heads.len();
    let own = own_words(alloc, graph, segments, sources)?;
    let mut words = vec![in alloc; 0u64; count]?;
    for place in 0..count {
        let descendant_marks = joined(&words, &own, &segments.parents[place]);
        words[place] = descendant_marks;
    }
    Ok(words)
}
