//! A worker runs a task for one quantum.
ghost use Rattle.std.specs.Prelude.{◌≡◌, ◌<◌, true, IfOk, IfSome};
ghost use Rattle.core_steps.specs.Moves.{read_job};
ghost use Rattle.task_state.specs.Segments.{IsHandedOut};
ghost use Rattle.task_state.specs.Tasks.{OfJob, read_task};
ghost use Rattle.join_board.specs.Handles.{about, knows};
ghost use Rattle.join_board.specs.Jobs.{the_job};
ghost use Rattle.join_board.specs.Tasks.{CanRun};
ghost use Rattle.steal_runtime.specs.Inside.Seats.{Serves, Sits, Stays};
ghost use Rattle.steal_runtime.specs.Inside.Tasks.{AwaitsOne, CanSettle, IsSettled};

use crate::parts::Duty;
use crate::publish::{enroll, publish};
use crate::put::{put, put_all};
use crate::seat::count;
use join_board::{Board, BoardSeat};
use priority_deques::Lanes;
use std::alloc::AllocError;
use std::sync::Wait;
use task_state::{Halt, Task};
use type_rules::Job;

// Publishes the pending steps of the task, and puts the tasks that waited for its end. False where its log has gone on already.
fn settle<R: Wait, L: Lanes>(
    rt: &R,
    duty: Duty,
    board: &Board,
    seat: &mut BoardSeat,
    end: &mut L,
    task: &mut Task,
) -> Result<bool, AllocError>
    requires seat { Sits board.now seat.old }
    requires duty { (duty.worker < (about board.now).opened) × ((about board.now).quantum ≡ duty.quantum) × ((about board.now).limit ≡ duty.limit) }
    requires lanes { read_job (L.job end.old) ≡ the_job (about board.now) }
    requires task { OfJob (the_job (about board.now)) (read_task task.old) }
    requires steps { CanSettle (knows seat.old) duty.quantum (read_task task.old) }
    ensures seat { Stays board.now seat.old seat.new }
    ensures lanes { L.job end.new ≡ L.job end.old }
    ensures rest { OfJob (the_job (about board.now)) (read_task task.new) × IsHandedOut (read_task task.old) (read_task task.new) }
    ensures seen { IfOk result (λ on. on ≡ true → IsSettled (knows seat.new) (read_task task.old)) }
{
    let Some(segment) = task.segment(duty.worker) else {
        return Ok(true);
    };
    let Some(tasks) = publish(rt, duty.alloc, board, seat, segment)? else {
        return Ok(false);
    };
    count(board, seat, duty.limit);
    put_all(rt, end, tasks)?;
    Ok(true)
}

/// Runs the task, publishes its steps, and puts what can go on into the lanes. A task that awaits a thread comes back.
pub(crate) fn advance<R: Wait, L: Lanes>(
    rt: &R,
    duty: Duty,
    board: &Board,
    seat: &mut BoardSeat,
    job: &Job,
    end: &mut L,
    task: Task,
) -> Result<Option<Task>, AllocError>
    requires seat { Sits board.now seat.old }
    requires duty { Serves board.now job.now duty }
    requires lanes { L.job end.old ≡ job.now }
    requires task { CanRun (the_job (about board.now)) (knows seat.old) (read_task task) }
    ensures seat { Stays board.now seat.old seat.new }
    ensures lanes { L.job end.new ≡ L.job end.old }
    ensures waits { IfOk result (λ o. IfSome o (λ t. AwaitsOne (the_job (about board.now)) (read_task t))) }
{
    let mut task = task;
    let halt = task.run(duty.alloc, job, duty.quantum)?;
    if !settle(rt, duty, board, seat, end, &mut task)? {
        return Ok(None);
    }
    match halt {
        Halt::Ended => Ok(None),
        Halt::Wants => Ok(Some(task)),
        Halt::Spent => {
            put(rt, end, task)?;
            Ok(None)
        }
        Halt::Spawned(child) => {
            enroll(rt, duty.alloc, board, seat, child.path(), child.priority())?;
            put(rt, end, child)?;
            put(rt, end, task)?;
            Ok(None)
        }
    }
}
