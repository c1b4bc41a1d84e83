//! Outcomes are looked up.
ghost use Rattle.join_board.specs.Handles.{knows, IsSeatOf};
ghost use Rattle.join_board.specs.Calls.{SameSeat};
ghost use Rattle.join_board.specs.Clauses.{Looked};

use crate::moves::{give_back, take};
use crate::owned::{Board, BoardSeat};
use crate::shard::shard_of;
use priml_syntax::{Outcome, Path};
use std::alloc::Global;

/// How a thread ended, as far as the board knows.
#[derive(Drop)]
pub enum Look {
    /// With this outcome.
    Ended(Outcome),
    /// It has not ended, or has no entry. Its log has so many steps.
    NotYet(u64),
    /// Another seat has the thread's shard.
    Busy,
    /// Want of memory.
    OutOfMemory,
}

impl Board {
    /// Looks up how the thread ended.
    pub fn look(&self, alloc: Global, seat: &mut BoardSeat, path: &Path) -> Look
        requires seat { IsSeatOf self.now seat.old }
        ensures seat { IsSeatOf self.now seat.new × SameSeat (knows seat.old) (knows seat.new) }
        ensures answer { Looked (knows seat.old) path.now result (knows seat.new) }
    {
        let shard = shard_of(path);
        let Some(value) = take(&self.table.shared, &mut seat.seat, shard) else {
            return Look::Busy;
        };
        match value.find(path) {
            None => {
                give_back(&self.table.shared, &mut seat.seat, shard, value);
                Look::NotYet(0)
            }
            Some(i) => {
                let length = value.len_at(i) as u64;
                match value.copy_at(alloc, i) {
                    Err(_) => {
                        give_back(&self.table.shared, &mut seat.seat, shard, value);
                        Look::OutOfMemory
                    }
                    Ok(Some(outcome)) => {
                        give_back(&self.table.shared, &mut seat.seat, shard, value);
                        Look::Ended(outcome)
                    }
                    Ok(None) => {
                        give_back(&self.table.shared, &mut seat.seat, shard, value);
                        Look::NotYet(length)
                    }
                }
            }
        }
    }
}
