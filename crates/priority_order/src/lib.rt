//! The order of a program's priorities, which its declared pairs make, and the closure of a list of pairs.
#![tactic(auto)]

mod closure;
mod lanes;
mod order;

pub use closure::{Closure, MOST_NUMBERS};
pub use order::{MOST_NAMES, Order, OrderFault};
