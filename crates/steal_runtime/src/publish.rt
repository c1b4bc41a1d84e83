//! A worker publishes steps and threads. Where another worker has the thread's shard it tries again.
ghost use Rattle.std.specs.Prelude.{IfOk, IfSome};
ghost use Rattle.trace_book.specs.Segments.{read_segment};
ghost use Rattle.join_board.specs.Calls.{CanCommit};
ghost use Rattle.join_board.specs.Handles.{about, knows};
ghost use Rattle.join_board.specs.Jobs.{the_job};
ghost use Rattle.join_board.specs.Threads.{PrioOf};
ghost use Rattle.join_board.specs.Views.{HasSeenSpawn};
ghost use Rattle.steal_runtime.specs.Inside.Seats.{Sits, Stays, IsPublished};

use join_board::{Board, BoardSeat, Commit, Enroll};
use priml_syntax::Path;
use std::alloc::{AllocError, Global};
use std::sync::Wait;
use std::thread;
use task_state::Task;
use trace_book::Segment;

/// Publishes a segment. The tasks that were parked on its thread, where it ended it; None where the thread's log has gone on already.
pub(crate) fn publish<R: Wait>(
    rt: &R,
    alloc: Global,
    board: &Board,
    seat: &mut BoardSeat,
    segment: Segment,
) -> Result<Option<Vec<Task>>, AllocError>
    requires seat { Sits board.now seat.old }
    requires segment { CanCommit (knows seat.old) (read_segment segment) }
    ensures seat { Stays board.now seat.old seat.new }
    ensures done { IfOk result (λ o. IfSome o (λ ts. IsPublished board.now (knows seat.new) (read_segment segment) ts.items)) }
{
    let mut segment = segment;
    for _ in rt.forever() {
        match board.commit(alloc, seat, segment) {
            Commit::Done(tasks) => return Ok(Some(tasks)),
            Commit::Full(back) => segment = back,
            Commit::Busy(back) => segment = back,
            Commit::Stale(_, _) => return Ok(None),
            Commit::OutOfMemory(_) => return Err(AllocError),
        }
        thread::yield_now();
    }
    unreachable!()
}

/// Publishes a thread that the worker has spawned.
pub(crate) fn enroll<R: Wait>(
    rt: &R,
    alloc: Global,
    board: &Board,
    seat: &mut BoardSeat,
    path: &Path,
    prio: u32,
) -> Result<(), AllocError>
    requires seat { Sits board.now seat.old }
    requires thread { HasSeenSpawn (knows seat.old) path.now × PrioOf (the_job (about board.now)) path.now prio }
    ensures seat { Stays board.now seat.old seat.new }
{
    for _ in rt.forever() {
        match board.enroll(alloc, seat, path, prio) {
            Enroll::Done => return Ok(()),
            Enroll::Busy => thread::yield_now(),
            Enroll::OutOfMemory => return Err(AllocError),
        }
    }
    unreachable!()
}
