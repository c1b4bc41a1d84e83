ghost use Rattle.std.specs.Prelude.{◌≡◌, ◌↔◌, ◌<◌, ◌≤◌, ◌^◌, [], ℕ, IsTrue, IfOk, IfErr, length, map, string_bytes, slice_index_or, slice_get};
ghost use Rattle.priority_order.specs.Order.{AtMost, IsBelow, IsLawful, IsWithin, HasLane, most_names};
ghost use Rattle.priority_order.specs.Fault.{IsCause};

use crate::closure::Closure;
use crate::lanes::{lanes_of, places_of};
use std::alloc::{AllocError, Global};
use std::marker::Model;

/// How many priorities a program may declare.
pub const MOST_NAMES: usize = 16;

/// Why names and pairs make no order.
#[derive(Debug, Drop)]
pub enum OrderFault {
    /// The pair of this number, from 0, is the first whose second is at most its first by the pairs before it.
    /// There is one exactly where the order is not lawful.
    Cycle(u32),
    /// There are more than 16 names. This is tested before the pairs are looked at.
    TooMany,
    /// Memory was wanting.
    OutOfMemory,
}

impl From<AllocError> for OrderFault {
    ghost use Rattle.std.specs.Prelude.{◌≡◌};
    ghost use Rattle.priority_order.specs.declared.order.OrderFault.{OrderFault};
    ghost use Rattle.priority_order.specs.declared.order.OrderFault.TheVariants.{OutOfMemory};

    ghost from_gives = { λ e r. r ≡ OutOfMemory };

    fn from(_: AllocError) -> OrderFault {
        OrderFault::OutOfMemory
    }
}

/// A lawful order of at most 16 priorities, which are numbered from 0 in the order of their names.
///
/// Clauses see the names, as bytes, and the declared pairs.
#[derive(Drop)]
pub struct Order {
    names: Vec<String>,
    closure: Closure,
    // the priorities by lane, and the lanes by priority
    lanes: Vec<u32>,
    lane_of: Vec<u32>,
}

impl Model for Order {
    ghost use Rattle.std.specs.Prelude.{length, map, string_bytes};
    ghost use Rattle.priority_order.specs.Order.{Names, names_code};
    ghost use Rattle.priority_order.specs.Parts.{AreParts};

    ghost Value = { Names };

    ghost coded = { names_code };

    ghost view = { λ o. record { names = map string_bytes o.names.items; pairs = o.closure.pairs } };

    ghost invariant = { λ o. AreParts (length o.names.items) o.closure o.lanes.items o.lane_of.items };
}

impl Order {
    /// The order of these names and declared pairs; in each pair the first is below the second.
    ///
    /// The numbers of the pairs are below the count of names, and there are fewer than 2^32 pairs.
    /// `TooMany` comes exactly where there are more than 16 names, and `Cycle` names the first pair that closes a
    /// cycle; one of the two comes wherever there are too many names or the order is not lawful, unless memory is
    /// wanting.
    pub fn build(alloc: Global, names: &[String], pairs: &[(u32, u32)]) -> Result<Order, OrderFault>
        requires within { IsWithin (length names.now) pairs.now }
        requires few { length pairs.now < 2 ^ 32 }
        ensures value { IfOk result (λ o. o ≡ record { names = map string_bytes names.now; pairs = pairs.now }) }
        ensures few { IfOk result (λ _. length names.now ≤ most_names) }
        ensures lawful { IfOk result (λ _. IsLawful pairs.now) }
        ensures cause { IfErr result (λ e. IsCause (length names.now) pairs.now e) }
        ensures too_many { most_names < length names.now → result ≡ Err OrderFault.TooMany }
    {
        if names.len() > MOST_NAMES {
            return Err(OrderFault::TooMany);
        }
        let mut closure = Closure::new(alloc, names.len() as u32)?;
        for (i, pair) in pairs.iter().enumerate() {
            let (a, b) = *pair;
            if closure.leads(b, a) {
                return Err(OrderFault::Cycle(i as u32));
            }
            closure.insert(a, b)?;
        }
        let lanes = lanes_of(alloc, &closure)?;
        let lane_of = places_of(alloc, lanes.as_slice())?;
        let names = copy_names(alloc, names)?;
        Ok(Order {
            names,
            closure,
            lanes,
            lane_of,
        })
    }

    /// Whether `a` is at most `b`: a list of declared pairs, perhaps empty, leads from `a` to `b`.
    ///
    /// Both are below the count.
    pub fn leq(&self, a: u32, b: u32) -> bool
        requires a_in { a < length self.now.names }
        requires b_in { b < length self.now.names }
        ensures { IsTrue result ↔ AtMost self.now.pairs a b }
    {
        self.closure.leads(a, b)
    }

    /// Whether `a` is strictly below `b`: `a` is at most `b`, and they differ. Both are below the count.
    pub fn less(&self, a: u32, b: u32) -> bool
        requires a_in { a < length self.now.names }
        requires b_in { b < length self.now.names }
        ensures { IsTrue result ↔ IsBelow self.now.pairs a b }
    {
        a != b && self.leq(a, b)
    }

    /// The declared pairs, in their order; both numbers of each are below the count, and their order is lawful.
    pub fn pairs(&self) -> &[(u32, u32)]
        ensures value { result.now ≡ self.now.pairs }
        ensures within { IsWithin (length self.now.names) result.now }
        ensures lawful { IsLawful result.now }
        ensures few { length result.now < 2 ^ 32 }
    {
        self.closure.pairs()
    }

    /// The declared pair of number `i`, from 0; `None` exactly past the last.
    pub fn pair(&self, i: u32) -> Option<(u32, u32)>
        ensures { result ≡ slice_get self.now.pairs i }
    {
        self.pairs().get(i as usize).copied()
    }

    /// The lane of priority `a`, which is below the count.
    ///
    /// The lanes are numbered from 0 and given out one after another: each to the priority of smallest number, among
    /// those that have none yet, that is strictly below none of them. So a priority strictly below another has the
    /// greater lane.
    pub fn lane(&self, a: u32) -> u32
        requires { a < length self.now.names }
        ensures is { HasLane self.now.pairs (length self.now.names) a result }
        ensures only { (k : ℕ) → HasLane self.now.pairs (length self.now.names) a k → k ≡ result }
        ensures within { result < length self.now.names }
        ensures above { (b k : ℕ) → HasLane self.now.pairs (length self.now.names) b k → IsBelow self.now.pairs a b → k < result }
    {
        self.lane_of[a as usize]
    }

    /// The priority that has the lane, which is below the count: the inverse of `lane`.
    pub fn priority_of_lane(&self, lane: u32) -> u32
        requires { lane < length self.now.names }
        ensures is { HasLane self.now.pairs (length self.now.names) result lane }
        ensures only { (a : ℕ) → HasLane self.now.pairs (length self.now.names) a lane → a ≡ result }
        ensures within { result < length self.now.names }
    {
        self.lanes[lane as usize]
    }

    /// How many priorities there are, at most 16.
    pub fn count(&self) -> u32
        ensures value { result ≡ length self.now.names }
        ensures few { result ≤ most_names }
    {
        self.closure.size()
    }

    /// The name of priority `a`, which is below the count.
    pub fn name(&self, a: u32) -> &str
        requires { a < length self.now.names }
        ensures { result.now ≡ slice_index_or self.now.names a [] }
    {
        self.names[a as usize].as_str()
    }
}

fn copy_names(alloc: Global, names: &[String]) -> Result<Vec<String>, AllocError>
    ensures { IfOk result (λ v. map string_bytes v.items ≡ map string_bytes names.now) }
{
    let mut copy = Vec::new(alloc);
    for name in names {
        copy.push(name.clone()?)?;
    }
    Ok(copy)
}
