//! Cost graphs of threads: numbered vertices, their edges, ancestors, and orders that respect the edges.
#![tactic(auto)]

mod build;
mod finished;
mod frontier;
mod graph;
mod laws;
mod lines;
mod marks;
mod order;
mod reachability;
mod records;
mod shape;
mod stop;
mod text;

pub use finished::are_finished;
pub use frontier::Frontier;
pub use graph::{Graph, Thread};
pub use laws::some_graph;
pub use order::{has_cycle, topological};
pub use reachability::{ancestors, descendants};
pub use shape::{MOST_LOOKS, well_formed};
pub use stop::{GraphStop, GraphStop as ShapeStop, Shape};
pub use text::push_vertex;
