//! Tasks wait for the ends of threads.
ghost use Rattle.join_board.specs.Jobs.{the_job};
ghost use Rattle.join_board.specs.Logs.{CanWait};
ghost use Rattle.join_board.specs.Handles.{knows, IsSeatOf};
ghost use Rattle.join_board.specs.Calls.{SameSeat};
ghost use Rattle.join_board.specs.Clauses.{Parks};

use crate::moves::{give_back, give_quiet, take};
use crate::owned::{Board, BoardSeat};
use crate::shard::shard_of;
use priml_syntax::Path;
use std::alloc::Global;
use task_state::Task;

/// What became of a task that waits.
#[derive(Drop)]
pub enum Park {
    /// It stands in the thread's entry. The commit that ends the thread hands it out.
    Parked,
    /// The thread has ended.
    Ended(Task),
    /// Another seat has the thread's shard.
    Busy(Task),
    /// The thread has no entry.
    NoEntry(Task),
    /// Want of memory.
    OutOfMemory(Task),
}

impl Board {
    /// Parks a task of the job that awaits the thread and has no pending step. A task that is not parked comes back.
    pub fn park(&self, _alloc: Global, seat: &mut BoardSeat, path: &Path, task: Task) -> Park
        requires seat { IsSeatOf self.now seat.old }
        requires task { CanWait (the_job (knows seat.old).about) path.now task }
        ensures seat { IsSeatOf self.now seat.new × SameSeat (knows seat.old) (knows seat.new) }
        ensures answer { Parks (knows seat.old) path.now task result (knows seat.new) }
    {
        let shard = shard_of(path);
        let Some(mut value) = take(&self.table.shared, &mut seat.seat, shard) else {
            return Park::Busy(task);
        };
        let Some(i) = value.find(path) else {
            give_back(&self.table.shared, &mut seat.seat, shard, value);
            return Park::NoEntry(task);
        };
        if value.has_ended(i) {
            give_back(&self.table.shared, &mut seat.seat, shard, value);
            return Park::Ended(task);
        }
        match value.park(i, task) {
            Ok(()) => {
                give_quiet(&self.table.shared, &mut seat.seat, shard, value);
                Park::Parked
            }
            Err(task) => {
                give_back(&self.table.shared, &mut seat.seat, shard, value);
                Park::OutOfMemory(task)
            }
        }
    }
}
