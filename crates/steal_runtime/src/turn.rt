//! A worker's turn with a task.
ghost use Rattle.std.specs.Prelude.{◌≡◌};
ghost use Rattle.core_steps.specs.Moves.{read_job};
ghost use Rattle.task_state.specs.Tasks.{read_task};
ghost use Rattle.priority_deques.specs.Tasks.{IsAtRest};
ghost use Rattle.steal_runtime.specs.Inside.Seats.{Serves, Sits, Stays};

use crate::advance::advance;
use crate::parts::Duty;
use crate::put::put;
use crate::seat::is_stopped;
use crate::waiting::wait_for;
use join_board::{Board, BoardSeat};
use priority_deques::Lanes;
use std::alloc::AllocError;
use std::sync::Wait;
use task_state::{MOST_STEPS, Task};
use type_rules::Job;

/// Runs the task until it goes to the lanes, is parked, or has ended. Where the run is stopped it is let go.
pub(crate) fn turn<R: Wait, L: Lanes>(
    rt: &R,
    duty: Duty,
    board: &Board,
    seat: &mut BoardSeat,
    job: &Job,
    end: &mut L,
    task: Task,
) -> Result<(), AllocError>
    requires seat { Sits board.now seat.old }
    requires duty { Serves board.now job.now duty }
    requires lanes { L.job end.old ≡ job.now }
    requires task { IsAtRest (read_job job.now) (read_task task) }
    ensures seat { Stays board.now seat.old seat.new }
    ensures lanes { L.job end.new ≡ L.job end.old }
{
    if task.steps() > MOST_STEPS {
        return put(rt, end, task);
    }
    let mut task = task;
    for _ in rt.forever() {
        let Some(waiting) = advance(rt, duty, board, seat, job, end, task)? else {
            return Ok(());
        };
        let Some(fed) = wait_for(rt, duty.alloc, board, seat, end, waiting)? else {
            return Ok(());
        };
        if is_stopped(board, seat) {
            return Ok(());
        }
        task = fed;
    }
    unreachable!()
}
