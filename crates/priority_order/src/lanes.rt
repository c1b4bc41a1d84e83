ghost use Rattle.std.specs.Prelude.{◌≡◌, ◌↔◌, ◌<◌, ◌^◌, ℕ, IsTrue, IfOk, length, slice_get};
ghost use Rattle.std.specs.List.{Contains};
ghost use Rattle.priority_order.specs.Order.{IsBelow, IsLawful, Remains, IsTop, IsNext, AreLanes};
ghost use Rattle.priority_order.specs.Parts.{ArePlaces};

use crate::closure::Closure;
use std::alloc::{AllocError, Global};

/// The priorities of a lawful order, lane by lane.
pub fn lanes_of(alloc: Global, order: &Closure) -> Result<Vec<u32>, AllocError>
    requires { IsLawful order.now.pairs }
    ensures { IfOk result (λ v. AreLanes order.now.pairs order.now.size v.items) }
{
    let mut lanes = Vec::new(alloc);
    for _lane in 0..order.size() {
        let next = next_of(order, lanes.as_slice());
        lanes.push(next)?;
    }
    Ok(lanes)
}

/// The lane of each priority, by the list of the priorities lane by lane.
pub fn places_of(alloc: Global, lanes: &[u32]) -> Result<Vec<u32>, AllocError>
    requires all { (a : ℕ) → a < length lanes.now → Contains lanes.now a }
    requires few { length lanes.now < 2 ^ 32 }
    ensures { IfOk result (λ v. ArePlaces lanes.now v.items) }
{
    let mut places = Vec::new(alloc);
    for a in 0..lanes.len() as u32 {
        places.push(place_of(lanes, a))?;
    }
    Ok(places)
}

fn place_of(list: &[u32], a: u32) -> u32
    requires contained { Contains list.now a }
    requires few { length list.now < 2 ^ 32 }
    ensures { slice_get list.now result ≡ Some a }
{
    for (k, b) in list.iter().enumerate() {
        if *b == a {
            return k as u32;
        }
    }
    unreachable!()
}

// The smallest of the priorities that remain and are strictly below none that remains.
fn next_of(order: &Closure, gone: &[u32]) -> u32
    requires lawful { IsLawful order.now.pairs }
    requires few { length gone.now < order.now.size }
    ensures { IsNext order.now.pairs order.now.size gone.now result }
{
    for a in 0..order.size() {
        if is_free(order, gone, a) {
            return a;
        }
    }
    unreachable!()
}

// Whether a remains, and is strictly below none that remains.
fn is_free(order: &Closure, gone: &[u32], a: u32) -> bool
    requires { a < order.now.size }
    ensures { IsTrue result ↔ (Remains order.now.size gone.now a × IsTop order.now.pairs order.now.size gone.now a) }
{
    !is_gone(gone, a) && is_top(order, gone, a)
}

fn is_top(order: &Closure, gone: &[u32], a: u32) -> bool
    requires { a < order.now.size }
    ensures { IsTrue result ↔ IsTop order.now.pairs order.now.size gone.now a }
{
    for b in 0..order.size() {
        if remains_above(order, gone, a, b) {
            return false;
        }
    }
    true
}

// Whether b remains, and a is strictly below it.
fn remains_above(order: &Closure, gone: &[u32], a: u32, b: u32) -> bool
    requires a_in { a < order.now.size }
    requires b_in { b < order.now.size }
    ensures { IsTrue result ↔ (Remains order.now.size gone.now b × IsBelow order.now.pairs a b) }
{
    a != b && order.leads(a, b) && !is_gone(gone, b)
}

fn is_gone(gone: &[u32], a: u32) -> bool
    ensures { IsTrue result ↔ Contains gone.now a }
{
    gone.contains(&a)
}
