//! What ends are made of, and what they hand out.
use task_state::Task;

/// The deques of one lane, as one end holds them: its own, and those of the others from the next one round.
#[derive(Drop)]
pub struct LaneDeques<O, B> {
    pub own: O,
    pub others: Vec<B>,
}

/// A task that was taken, and the number of its lane, from 0.
#[derive(Drop)]
pub struct Pick {
    pub task: Task,
    pub lane: u32,
}
