ghost use Rattle.std.specs.Prelude.{◌≡◌, ℕ, ◌+◌, ◌<◌, ◌≤◌, length, map, slice_index, slice_index_or, IfOk, OnOk, ◌^◌, ◌++◌};
ghost use Rattle.std.specs.List.{All, range_with_len};
ghost use Rattle.cost_graph.specs.Graph.{thread_total, first_vertex, last_vertex, IsAcyclic};
ghost use Rattle.cost_graph.specs.declared.graph.Thread.{Thread as TheThread};
ghost use Rattle.cost_graph.specs.Order.{IsTopological};
ghost use Rattle.span_bound.specs.declared.size.Measure.{Measure as TheMeasure};
ghost use Rattle.span_bound.specs.Work.{IsMeasure};
ghost use Rattle.span_bound.specs.Inside.Work.{AreMeasures};
ghost use Rattle.span_bound.specs.Inside.Words.{places_in};
ghost use Rattle.span_bound.specs.Inside.Segments.{AreSegments};

use crate::competitors::{competitors_of_each, counts_of_each};
use crate::level_of_each::levels_of_each;
use crate::reachability::{ancestors_of_each, descendants_of_each};
use crate::segments::{Segments, images_of, segments_of};
use crate::size::Measure;
use cost_graph::Graph;
use priority_order::Order;
use std::alloc::{AllocError, Global};

// The first vertices of the threads, and the last ones.
fn ends_of(
    alloc: Global,
    graph: &Graph,
    threads: &[u32],
) -> Result<(Vec<u32>, Vec<u32>), AllocError>
    requires { All (λ t. t < thread_total graph.now) threads.now }
    ensures firsts { IfOk result (λ ends. ends.0.items ≡ map (first_vertex graph.now) threads.now) }
    ensures lasts { IfOk result (λ ends. ends.1.items ≡ map (last_vertex graph.now) threads.now) }
{
    let mut firsts = Vec::new(alloc);
    let mut lasts = Vec::new(alloc);
    for thread in threads {
        firsts.push(graph.first_of(*thread))?;
        lasts.push(graph.last_of(*thread))?;
    }
    Ok((firsts, lasts))
}

// A measure of this work and span.
fn measure_at(work: u32, span: u32) -> Measure
    ensures work { result.work ≡ work }
    ensures span { result.span ≡ span }
{
    Measure {
        work: u64::from(work),
        span: u64::from(span),
    }
}

// The measures whose work is the count at their place, and whose span stands at their place of the row of their vertex.
fn measures_of(
    alloc: Global,
    counts: &[u32; 64],
    rows: &[[u32; 64]],
    lasts: &[u32],
) -> Result<Vec<Measure>, AllocError>
    requires few { length lasts.now ≤ 64 }
    requires within { All (λ v. v < length rows.now) lasts.now }
    ensures long { IfOk result (λ measures. length measures.items ≡ length lasts.now) }
    ensures work { IfOk result (λ measures. (i : ℕ) (d : TheMeasure) → i < length lasts.now →
        (slice_index_or measures.items i d).work ≡ slice_index counts.now i) }
    ensures span { IfOk result (λ measures. (i : ℕ) (d : TheMeasure) → i < length lasts.now →
        (slice_index_or measures.items i d).span ≡ slice_index (places_in i rows.now) (slice_index lasts.now i)) }
{
    let mut measures = Vec::new(alloc);
    for i in 0..lasts.len() {
        let row = &rows[lasts[i] as usize];
        measures.push(measure_at(counts[i], row[i]))?;
    }
    Ok(measures)
}

/// The work and the span of each of the threads, at most 64, of a graph without cycles, by one pass for all.
pub(crate) fn measure_each(
    alloc: Global,
    graph: &Graph,
    order: &Order,
    segments: &Segments,
    threads: &[u32],
) -> Result<Vec<Measure>, AllocError>
    requires acyclic { IsAcyclic graph.now }
    requires segments { AreSegments graph.now segments.now }
    requires few { length threads.now ≤ 64 }
    requires threads { All (λ t. t < thread_total graph.now) threads.now }
    requires priorities { All (λ (t : TheThread). t.priority < length order.now.names) graph.now.threads }
    ensures { IfOk result (λ measures. AreMeasures graph.now order.now.pairs threads.now measures.items) }
{
    let _count = graph.vertex_count();
    let (firsts, lasts) = ends_of(alloc, graph, threads)?;
    let ancestor_marks = ancestors_of_each(alloc, graph, segments, &firsts)?;
    let descendant_marks = descendants_of_each(alloc, graph, segments, &lasts)?;
    let rows = levels_of_each(alloc, graph, segments, &ancestor_marks)?;
    let words = competitors_of_each(
        alloc,
        graph,
        order,
        segments,
        threads,
        &ancestor_marks,
        &descendant_marks,
    )?;
    let counts = counts_of_each(graph, segments, &words);
    let places = images_of(alloc, &segments.slots, &lasts)?;
    let measures = measures_of(alloc, &counts, &rows, &places)?;
    Ok(measures)
}

// The numbers from a start on, so many.
fn numbers_from(alloc: Global, start: u32, count: u32) -> Result<Vec<u32>, AllocError>
    requires { start + count < 2 ^ 32 }
    ensures { IfOk result (λ numbers. numbers.items ≡ range_with_len start count) }
{
    let mut numbers = Vec::new(alloc);
    for i in 0..count {
        numbers.push(start + i)?;
    }
    Ok(numbers)
}

// How many of the threads that are left make the next group.
fn width_of(left: u32) -> u32
    requires { 0 < left }
    ensures some { 0 < result }
    ensures few { result ≤ 64 }
    ensures within { result ≤ left }
{
    if left < 64 { left } else { 64 }
}

// Adds the measures at the end.
fn append(measures: &mut Vec<Measure>, more: &[Measure]) -> Result<(), AllocError>
    ensures { OnOk result (measures.new.items ≡ measures.old.items ++ more.now) }
{
    for measure in more {
        measures.push(*measure)?;
    }
    Ok(())
}

/// The work and the span of each thread of a graph without cycles, 64 threads by one pass.
pub fn measure_all(
    alloc: Global,
    graph: &Graph,
    order: &Order,
    along: &Vec<u32>,
) -> Result<Vec<Measure>, AllocError>
    requires acyclic { IsAcyclic graph.now }
    requires along { IsTopological graph.now along.now.items }
    requires priorities { All (λ (t : TheThread). t.priority < length order.now.names) graph.now.threads }
    ensures long { IfOk result (λ measures. length measures.items ≡ thread_total graph.now) }
    ensures each { IfOk result (λ measures. (t : ℕ) (d : TheMeasure) → t < thread_total graph.now →
        IsMeasure graph.now order.now.pairs t (slice_index_or measures.items t d)) }
{
    let total = graph.thread_count();
    let segments = segments_of(alloc, graph, along)?;
    let mut measures = Vec::new(alloc);
    let mut done = 0u32;
    'groups: while done < total {
        let width = width_of(total - done);
        let threads = numbers_from(alloc, done, width)?;
        let group = measure_each(alloc, graph, order, &segments, &threads)?;
        append(&mut measures, &group)?;
        done += width;
    }
    Ok(measures)
}
