//! What a seat knows.
use crate::shard::Shard;
use priml_syntax::Path;
use std::collections::LinkedList;
use std::snapshot::Snapshot;
use task_state::Key;
use type_rules::Job;

/// What is the same for all seats of a board, and the key of its table. Only the view of a seat that was joined to another has no job.
#[derive(Drop)]
pub struct About {
    pub job: Option<Snapshot<Job>>,
    /// The most steps of a segment.
    pub quantum: u32,
    /// The number of seats opened.
    pub opened: u32,
    /// The number of steps above which a run is stopped.
    pub limit: u64,
}

/// What a seat has seen of a log. No value of it is made.
pub struct Sight {
    pub path: Path,
    pub length: u64,
    pub ended: bool,
}

pub struct Hand {
    pub taken: u64,
    pub last: u64,
    /// One more than the shard in hand, or 0.
    pub hand: u64,
    pub copy: Shard,
    pub missed: u64,
    pub last_missed: u64,
}

/// The numbers of loads that found the count above 0 and at 0 are `alive` and `over`.
pub struct Live {
    pub ahead: u64,
    pub behind: u64,
    pub alive: u64,
    pub over: u64,
}

pub struct Keys {
    pub parked: LinkedList<Key>,
    pub handed: LinkedList<Key>,
}

/// How often each was asked for and found, and the greatest total found.
pub struct Stop {
    pub most: u64,
    pub unset: u64,
    pub asked_limit: u64,
    pub asked_memory: u64,
    pub found_limit: u64,
    pub found_memory: u64,
}

/// What a seat knows. No value of it is made.
pub struct View {
    pub about: About,
    /// How many seats it stands for: 0 only where it was joined to another.
    pub seats: u64,
    pub own: u64,
    pub uncounted: u64,
    pub hand: Hand,
    pub seen: LinkedList<Sight>,
    pub live: Live,
    pub keys: Keys,
    pub stop: Stop,
}
