ghost use Rattle.std.specs.Prelude.{◌≡◌, ◌↔◌, ◌<◌, ◌≤◌, [], ◌∷◌, ◌++◌, IsTrue, IfOk, OnOk, OnErr, length, slice_index, EachIndex};
ghost use Rattle.priority_order.specs.Order.{AtMost, IsWithin};
ghost use Rattle.priority_order.specs.Edges.{Edges, joined, most_numbers};

use std::alloc::{AllocError, Global};
use std::marker::Model;

/// How many numbers a closure may have.
pub const MOST_NUMBERS: u32 = 128;

/// Which of the numbers below a size leads to which by a list of pairs.
///
/// Clauses see the size and the pairs. The answers are kept as one row of bits for each number.
#[derive(Drop)]
pub struct Closure {
    pairs: Vec<(u32, u32)>,
    // bit y of rows[x] is 1 exactly where x leads to y
    rows: Vec<u128>,
}

impl Model for Closure {
    ghost use Rattle.std.specs.Prelude.{length};
    ghost use Rattle.priority_order.specs.Edges.{Edges, edges_code, IsClosed};

    ghost Value = { Edges };

    ghost coded = { edges_code };

    ghost view = { λ c. record { size = length c.rows.items; pairs = c.pairs.items } };

    ghost invariant = { λ c. IsClosed c.pairs.items c.rows.items };
}

impl Closure {
    /// The closure of no pairs over the numbers below `size`, at most 128: each leads to itself alone.
    pub fn new(alloc: Global, size: u32) -> Result<Closure, AllocError>
        requires { size ≤ most_numbers }
        ensures { IfOk result (λ c. c ≡ record { size = size; pairs = [] }) }
    {
        let mut rows = Vec::new(alloc);
        for x in 0..size {
            rows.push(1u128 << x)?;
        }
        Ok(Closure {
            pairs: Vec::new(alloc),
            rows,
        })
    }

    /// How many numbers there are.
    pub fn size(&self) -> u32
        ensures value { result ≡ self.now.size }
        ensures few { result ≤ most_numbers }
    {
        self.rows.len() as u32
    }

    /// The pairs, in the order in which they were inserted; both numbers of each are below the size.
    pub fn pairs(&self) -> &[(u32, u32)]
        ensures value { result.now ≡ self.now.pairs }
        ensures within { IsWithin self.now.size result.now }
    {
        self.pairs.as_slice()
    }

    /// Whether a list of pairs, perhaps empty, leads from `a` to `b`. Both are below the size.
    pub fn leads(&self, a: u32, b: u32) -> bool
        requires a_in { a < self.now.size }
        requires b_in { b < self.now.size }
        ensures { IsTrue result ↔ AtMost self.now.pairs a b }
    {
        (self.rows[a as usize] >> b) & 1 == 1
    }

    /// Adds the pair of `a` and `b`, both below the size, behind the others.
    ///
    /// After an error, which is want of memory, the closure is as it was. Takes time in proportion to the size.
    pub fn insert(&mut self, a: u32, b: u32) -> Result<(), AllocError>
        requires a_in { a < self.old.size }
        requires b_in { b < self.old.size }
        ensures ok { OnOk result (self.new ≡ record { size = self.old.size; pairs = self.old.pairs ++ (a, b) ∷ [] }) }
        ensures err { OnErr result (self.new ≡ self.old) }
    {
        self.pairs.push((a, b))?;
        join_rows(&mut self.rows, a, b);
        Ok(())
    }
}

// Each row that has bit a takes over the bits of row b.
fn join_rows(rows: &mut Vec<u128>, a: u32, b: u32)
    requires a_in { a < most_numbers }
    requires b_in { b < length rows.old.items }
    ensures long { length rows.new.items ≡ length rows.old.items }
    ensures each { EachIndex rows.new.items (λ x. slice_index rows.new.items x ≡ joined a (slice_index rows.old.items b) (slice_index rows.old.items x)) }
{
    let more = rows[b as usize];
    for row in rows.iter_mut() {
        *row = with_bits(*row, a, more);
    }
}

// The row, with more bits where its bit a is 1.
fn with_bits(row: u128, a: u32, more: u128) -> u128
    requires { a < most_numbers }
    ensures { result ≡ joined a more row }
{
    if (row >> a) & 1 == 1 { row | more } else { row }
}
