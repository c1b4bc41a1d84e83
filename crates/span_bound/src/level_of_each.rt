ghost use Rattle.std.specs.Prelude.{◌≡◌, ℕ, ◌+◌, ◌<◌, ◌≤◌, ◌^◌, max, length, IfOk, slice_index};
ghost use Rattle.std.specs.List.{All, Contains};
ghost use Rattle.std.specs.Int.{bit_at};
ghost use Rattle.cost_graph.specs.Graph.{vertex_total};
ghost use Rattle.span_bound.specs.Inside.Level.{IsLevel};
ghost use Rattle.span_bound.specs.Inside.Words.{column, places_in};
ghost use Rattle.span_bound.specs.Inside.Segments.{AreSegments, last_of, spread};

use crate::segments::Segments;
use cost_graph::Graph;
use std::alloc::{AllocError, Global};

// Each place of the row is raised to that of the other.
fn raise(best: &mut [u32; 64], row: &[u32; 64])
    ensures { (i : ℕ) → i < 64 → slice_index best.new i ≡ max (slice_index best.old i) (slice_index row.now i) }
{
    for i in 0..64 {
        if row[i] > best[i] {
            best[i] = row[i];
        }
    }
}

// So much more at each place.
fn add_to_each(best: &mut [u32; 64], more: u32)
    requires { (i : ℕ) → i < 64 → slice_index best.old i + more < 2 ^ 32 }
    ensures { (i : ℕ) → i < 64 → slice_index best.new i ≡ slice_index best.old i + more }
{
    for i in 0..64 {
        best[i] += more;
    }
}

// So much more at each place whose bit of the word is 0, and 0 at the others.
fn count_on(best: &mut [u32; 64], skipped: u64, more: u32)
    requires { (i : ℕ) → i < 64 → slice_index best.old i + more < 2 ^ 32 }
    ensures on { (i : ℕ) → i < 64 → bit_at skipped i ≡ 0 → slice_index best.new i ≡ slice_index best.old i + more }
    ensures skip { (i : ℕ) → i < 64 → bit_at skipped i ≡ 1 → slice_index best.new i ≡ 0 }
{
    if skipped == 0 {
        add_to_each(best, more);
        return;
    }
    for i in 0..64 {
        if (skipped >> i) & 1 == 1 {
            best[i] = 0;
        } else {
            best[i] += more;
        }
    }
}

// At each place the greatest of the rows of the numbers, and 0 for none.
fn greatest_of_each(rows: &[[u32; 64]], numbers: &[u32], best: &mut [u32; 64])
    requires within { All (λ n. n < length rows.now) numbers.now }
    requires none { (i : ℕ) → i < 64 → slice_index best.old i ≡ 0 }
    ensures upper { (i : ℕ) → i < 64 → All (λ n. slice_index (places_in i rows.now) n ≤ slice_index best.new i) numbers.now }
    ensures reached { (i : ℕ) → i < 64 → 0 < slice_index best.new i →
        (n : ℕ) × Contains numbers.now n × (slice_index (places_in i rows.now) n ≡ slice_index best.new i) }
{
    for number in numbers {
        raise(best, &rows[*number as usize]);
    }
}

/// For each segment a row: place i is the greatest number of vertices of a path of edges that ends at its last vertex and has none
/// of a segment whose word has bit i; 0 where its own word has it.
pub(crate) fn levels_of_each(
    alloc: Global,
    graph: &Graph,
    segments: &Segments,
    skipped: &[u64],
) -> Result<Vec<[u32; 64]>, AllocError>
    requires segments { AreSegments graph.now segments.now }
    requires fits { length skipped.now ≡ length segments.now.heads.items }
    ensures fits { IfOk result (λ rows. length rows.items ≡ length segments.now.heads.items) }
    ensures low { IfOk result (λ rows. (i s : ℕ) → i < 64 → s < length segments.now.heads.items →
        slice_index (places_in i rows.items) s ≤ vertex_total graph.now) }
    ensures are { IfOk result (λ rows. (i s : ℕ) → i < 64 → s < length segments.now.heads.items →
        IsLevel graph.now (column i (spread segments.now.slots.items skipped.now))
        (last_of segments.now.heads.items segments.now.lens.items s) (slice_index (places_in i rows.items) s)) }
{
    let _total = graph.vertex_count();
    let count = segments.heads.len();
    let mut rows = Vec::with_capacity(alloc, count)?;
    for s in 0..count {
        let mut row = [0u32; 64];
        greatest_of_each(&rows, &segments.parents[s], &mut row);
        count_on(&mut row, skipped[s], segments.lens[s]);
        rows.push(row)?;
    }
    Ok(rows)
}
