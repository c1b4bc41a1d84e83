//! The board and its seats.
ghost use Rattle.join_board.specs.Rests.{AtRest};
ghost use Rattle.std.specs.Prelude.{◌≡◌, ◌≤◌, [], vec_capacity};

use crate::rule::{Place, Rule};
use crate::shard::Shard;
use crate::view::{About, View};
use atomic_table::Table;
use std::alloc::Global;
use trace_book::ThreadLog;

/// The logs of a job's threads in 64 shards, and the tasks that wait.
#[derive(Drop)]
pub struct Board {
    pub(crate) table: Table<Option<Shard>, View, About, Rule, Global>,
    pub(crate) room: Vec<Vec<ThreadLog>>,
    ghost sized: { (table.shared.table_id.words ≡ 1072) × (table.shared.table_id.slots ≡ 64) },
    ghost roomy: { (room.items ≡ []) × (64 ≤ vec_capacity room) },
}

/// A worker's seat at a board, with its own steps and those that are not yet in the total.
#[derive(Drop)]
pub struct BoardSeat {
    pub(crate) seat: Place,
    pub(crate) steps: u64,
    pub(crate) uncounted: u64,
    ghost rests: { AtRest seat.me steps uncounted },
}
