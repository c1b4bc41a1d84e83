//! The paths on which tasks travel to workers: lanes, one for each priority, each of which is one queue that all share, or one
//! deque for each worker, from which the others steal. No task is lost, doubled or put into another lane.
#![tactic(auto)]

mod bag;
mod deque;
mod ends;
mod handles;
mod lanes;
mod opening;
mod parts;
mod queue;
mod shared;
mod steal;
mod table;
mod view;
mod walk;

pub use bag::{Bag, OwnBag};
pub use ends::{SharedEnd, StealEnd};
pub use lanes::Lanes;
pub use parts::Pick;
pub use shared::SharedLanes;
pub use steal::StealLanes;
