//! Threads get their entries.
ghost use Rattle.join_board.specs.Handles.{knows, IsSeatOf};
ghost use Rattle.join_board.specs.Calls.{SameSeat};
ghost use Rattle.join_board.specs.Clauses.{CanEnroll, Enrolled};

use crate::moves::{give_back, give_quiet, take};
use crate::owned::{Board, BoardSeat};
use crate::shard::shard_of;
use priml_syntax::Path;
use std::alloc::Global;

/// Whether a thread has an entry.
#[derive(Drop)]
pub enum Enroll {
    /// An entry is there, unchanged where there was one.
    Done,
    /// Another seat has the thread's shard.
    Busy,
    /// Want of memory.
    OutOfMemory,
}

impl Board {
    /// Gives the thread an entry, where it has none. The seat has seen its Spawn, and `prio` is its priority.
    pub fn enroll(&self, alloc: Global, seat: &mut BoardSeat, path: &Path, prio: u32) -> Enroll
        requires seat { IsSeatOf self.now seat.old }
        requires thread { CanEnroll (knows seat.old) path.now prio }
        ensures seat { IsSeatOf self.now seat.new × SameSeat (knows seat.old) (knows seat.new) }
        ensures answer { Enrolled (knows seat.old) path.now result (knows seat.new) }
    {
        let shard = shard_of(path);
        let Some(mut value) = take(&self.table.shared, &mut seat.seat, shard) else {
            return Enroll::Busy;
        };
        match value.find(path) {
            Some(_) => {
                give_back(&self.table.shared, &mut seat.seat, shard, value);
                Enroll::Done
            }
            None => match value.enroll_copy(alloc, path, prio) {
                Ok(()) => {
                    give_quiet(&self.table.shared, &mut seat.seat, shard, value);
                    Enroll::Done
                }
                Err(_) => {
                    give_back(&self.table.shared, &mut seat.seat, shard, value);
                    Enroll::OutOfMemory
                }
            },
        }
    }
}
