//! A worker's task awaits a thread.
ghost use Rattle.std.specs.Prelude.{◌≡◌, IfOk, IfSome, Some, IsSome};
ghost use Rattle.core_steps.specs.Moves.{read_job};
ghost use Rattle.task_state.specs.Tasks.{awaited_of, read_task};
ghost use Rattle.join_board.specs.Handles.{about, knows};
ghost use Rattle.join_board.specs.Jobs.{the_job};
ghost use Rattle.join_board.specs.Tasks.{CanRun};
ghost use Rattle.steal_runtime.specs.Inside.Seats.{Sits, Stays};
ghost use Rattle.steal_runtime.specs.Inside.Tasks.{AwaitsOne};

use crate::put::put;
use join_board::{Board, BoardSeat, Look, Park};
use priml_syntax::Path;
use priority_deques::Lanes;
use std::alloc::{AllocError, Global};
use std::sync::Wait;
use std::thread;
use task_state::{MOST_STEPS, Task};

// A copy of the path of the thread that the task awaits.
fn awaited(alloc: Global, task: &Task) -> Result<Path, AllocError>
    requires { IsSome (awaited_of (read_task task.now)) }
    ensures { IfOk result (λ p. awaited_of (read_task task.now) ≡ Some p) }
{
    match task.awaited() {
        Some(path) => path.copy(alloc),
        None => unreachable!(),
    }
}

/// Feeds the task, where the thread that it awaits has ended; else it is parked on that thread, or put back into the lanes.
pub(crate) fn wait_for<R: Wait, L: Lanes>(
    rt: &R,
    alloc: Global,
    board: &Board,
    seat: &mut BoardSeat,
    end: &mut L,
    task: Task,
) -> Result<Option<Task>, AllocError>
    requires seat { Sits board.now seat.old }
    requires lanes { read_job (L.job end.old) ≡ the_job (about board.now) }
    requires task { AwaitsOne (the_job (about board.now)) (read_task task) }
    ensures seat { Stays board.now seat.old seat.new }
    ensures lanes { L.job end.new ≡ L.job end.old }
    ensures fed { IfOk result (λ o. IfSome o (λ t. CanRun (the_job (about board.now)) (knows seat.new) (read_task t))) }
{
    if task.steps() > MOST_STEPS {
        put(rt, end, task)?;
        return Ok(None);
    }
    let path = awaited(alloc, &task)?;
    let mut task = task;
    for _ in rt.forever() {
        match board.look(alloc, seat, &path) {
            Look::Ended(outcome) => {
                task.feed(outcome);
                return Ok(Some(task));
            }
            Look::NotYet(_) => match board.park(alloc, seat, &path, task) {
                Park::Parked => return Ok(None),
                Park::Ended(back) => task = back,
                Park::Busy(back) => task = back,
                Park::NoEntry(back) => {
                    put(rt, end, back)?;
                    return Ok(None);
                }
                Park::OutOfMemory(_) => return Err(AllocError),
            },
            Look::Busy => thread::yield_now(),
            Look::OutOfMemory => return Err(AllocError),
        }
    }
    unreachable!()
}
