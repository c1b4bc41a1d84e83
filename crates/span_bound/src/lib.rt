//! The competitors' work and the span of a thread in a cost graph.
#![tactic(auto)]

mod competitors;
mod group;
mod level;
mod level_of_each;
mod reachability;
mod segments;
mod size;
mod thread;

pub use group::measure_all;
pub use size::Measure;
pub use thread::measure;
