//! The steps of threads as they were made: segments, logs without gap, and the book of all logs.
#![tactic(auto)]

mod book;
mod log;
mod records;
mod segment;
mod text;

pub use book::Book;
pub use log::{AppendStop, ThreadLog};
pub use segment::{Cut, Segment};
