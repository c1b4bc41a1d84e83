//! What one worker made of a thread in one go.
use priml_syntax::{Event, Outcome, Path};

/// Steps of a thread in a row, as one worker made them: at least one, a Spawn and an End only as the last.
#[derive(Drop)]
pub struct Segment {
    pub path: Path,
    /// The thread's priority, by the number of its declaration.
    pub prio: u32,
    /// How many steps the thread had made before.
    pub from: u64,
    /// What the steps did, the first step first.
    pub events: Vec<Event>,
    /// How the thread ended, exactly where the last step was its End.
    pub outcome: Option<Outcome>,
    /// The worker, counted from 0.
    pub worker: u32,
}

/// Where a segment stands in the log of its thread, and who made it.
#[derive(Clone, Copy, Debug)]
pub struct Cut {
    /// How many steps of the thread stand before it.
    pub from: u64,
    /// How many steps it has.
    pub steps: u64,
    /// The worker, counted from 0.
    pub worker: u32,
}
