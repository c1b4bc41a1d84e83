//! What workers begin and end with.
use join_board::BoardSeat;
use std::alloc::Global;

/// What a worker has to keep to.
#[derive(Drop, Clone, Copy)]
pub struct Duty {
    pub alloc: Global,
    /// Its number, from 0.
    pub worker: u32,
    /// The most steps of a turn, at least 1.
    pub quantum: u32,
    /// The number of steps above which the run is stopped.
    pub limit: u64,
}

/// What one worker begins with.
#[derive(Drop)]
pub struct Part<L> {
    pub duty: Duty,
    pub end: L,
    pub seat: BoardSeat,
}

/// What a worker leaves.
#[derive(Drop)]
pub struct Left {
    pub seat: BoardSeat,
    /// Whether it left since every thread has ended.
    pub over: bool,
}
