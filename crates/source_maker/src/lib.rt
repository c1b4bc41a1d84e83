//! Sources of programs that are made from a number.
#![tactic(auto)]

mod maker;

pub use maker::make;
