//! The calls of a board that the cases share. Their answers are words, with a number.
ghost use Rattle.std.specs.Prelude.{◌≡◌, ◌<◌, ◌≤◌, IfOk, OnOk, vec_len};
ghost use Rattle.std.specs.List.{All};
ghost use Rattle.core_steps.specs.Moves.{read_job as the_job};
ghost use Rattle.task_state.specs.Tasks.{read_task};
ghost use Rattle.join_board.specs.Handles.{about};
ghost use Rattle.join_board.specs.Tasks.{IsChild, IsIdle};
ghost use Rattle.worked_boards.specs.Inside.Seats.{Commits, Sits};

use crate::failed::Failed;
use join_board::{Board, BoardSeat, Commit, Enroll, Look, Park, StopCause};
use priml_syntax::{Outcome, Path, Value};
use std::alloc::Global;
use std::test::Fail;
use task_state::Task;
use trace_book::{Book, Segment};
use type_rules::Job;

/// A board of the job with so many seats, quantum 64 and this limit.
pub(crate) fn open(
    alloc: Global,
    job: &Job,
    seats: u32,
    limit: u64,
) -> Result<(Board, Vec<BoardSeat>), Fail>
    requires { (0 < seats) × (seats ≤ 16) }
    ensures { IfOk result (λ b. (vec_len b.1 ≡ seats) × ((about b.0).opened ≡ seats) × All (λ s. Sits (the_job job.now) b.0 s) b.1.items) }
{
    let (board, all) = Board::new(alloc, job, seats, 64, limit)?;
    Ok((board, all))
}

/// The book, by all seats.
pub(crate) fn close(_job: &Job, board: Board, seats: Vec<BoardSeat>) -> Book
    requires count { (vec_len seats ≡ (about board).opened) × (0 < vec_len seats) }
    requires seats { All (λ s. Sits (the_job _job.now) board s) seats.items }
{
    board.close(seats)
}

pub(crate) fn look(
    alloc: Global,
    _job: &Job,
    board: &Board,
    seat: &mut BoardSeat,
    path: &Path,
) -> (&'static str, i64)
    requires { Sits (the_job _job.now) board.now seat.old }
    ensures { Sits (the_job _job.now) board.now seat.new }
{
    of_look(board.look(alloc, seat, path))
}

pub(crate) fn commit(
    alloc: Global,
    _job: &Job,
    board: &Board,
    seat: &mut BoardSeat,
    segment: Segment,
) -> (&'static str, i64)
    requires seat { Sits (the_job _job.now) board.now seat.old }
    requires segment { Commits seat.old segment }
    ensures { Sits (the_job _job.now) board.now seat.new }
{
    of_commit(board.commit(alloc, seat, segment))
}

/// Enrolls the child, once the parent's steps stand on the board. The answer, with the child's priority.
pub(crate) fn enroll(
    alloc: Global,
    _job: &Job,
    board: &Board,
    seat: &mut BoardSeat,
    parent: &Task,
    child: &Task,
) -> Result<(&'static str, i64), Failed>
    requires seat { Sits (the_job _job.now) board.now seat.old }
    requires child { IsChild (the_job _job.now) (read_task parent.now) (read_task child.now) }
    ensures { OnOk result (Sits (the_job _job.now) board.now seat.new) }
{
    let n = match board.look(alloc, seat, parent.path()) {
        Look::NotYet(n) => n,
        Look::Busy => return Ok(("busy", 0)),
        _ => return Err(Failed("the parent has ended")),
    };
    if n == 0 || n != parent.steps() {
        return Err(Failed("the parent's steps are not on the board"));
    }
    let answer = board.enroll(alloc, seat, child.path(), child.priority());
    Ok((of_enroll(answer), small(child.priority() as u64)))
}

/// Parks the task on the thread that it awaits.
pub(crate) fn park(
    alloc: Global,
    job: &Job,
    board: &Board,
    seat: &mut BoardSeat,
    task: Task,
) -> Result<(&'static str, i64), Failed>
    requires seat { Sits (the_job job.now) board.now seat.old }
    requires task { IsIdle (the_job job.now) (read_task task) }
    ensures { OnOk result (Sits (the_job job.now) board.now seat.new) }
{
    let Some(awaited) = task.awaited() else {
        return Err(Failed("no thread is awaited"));
    };
    let path = awaited.copy(alloc)?;
    Ok((of_park(board.park(alloc, seat, &path, task)), 0))
}

pub(crate) fn all_ended(_job: &Job, board: &Board, seat: &mut BoardSeat) -> (&'static str, i64)
    requires { Sits (the_job _job.now) board.now seat.old }
    ensures { Sits (the_job _job.now) board.now seat.new }
{
    (of_end(board.all_ended(seat)), 0)
}

pub(crate) fn count(_job: &Job, board: &Board, seat: &mut BoardSeat) -> (&'static str, i64)
    requires { Sits (the_job _job.now) board.now seat.old }
    ensures { Sits (the_job _job.now) board.now seat.new }
{
    ("count", small(board.count(seat)))
}

pub(crate) fn ask_stop(_job: &Job, board: &Board, seat: &mut BoardSeat) -> (&'static str, i64)
    requires { Sits (the_job _job.now) board.now seat.old }
    ensures { Sits (the_job _job.now) board.now seat.new }
{
    board.ask_stop(seat, StopCause::Memory);
    ("asked", 0)
}

pub(crate) fn stopped(_job: &Job, board: &Board, seat: &mut BoardSeat) -> (&'static str, i64)
    requires { Sits (the_job _job.now) board.now seat.old }
    ensures { Sits (the_job _job.now) board.now seat.new }
{
    (of_stop(board.stopped(seat)), 0)
}

/// The number, or 1000 where it is greater.
fn small(n: u64) -> i64 {
    if n < 1000 { n as i64 } else { 1000 }
}

/// The number with which the thread ended, 0 for another outcome, or how long its log is.
fn of_look(answer: Look) -> (&'static str, i64) {
    match answer {
        Look::Ended(Outcome::Value(Value::Int(n))) => ("ended", n),
        Look::Ended(_) => ("ended", 0),
        Look::NotYet(n) => ("not yet", small(n)),
        Look::Busy => ("busy", 0),
        Look::OutOfMemory => ("out of memory", 0),
    }
}

/// How many steps the task that was handed out has made, or how long the log is.
fn of_commit(answer: Commit) -> (&'static str, i64) {
    match answer {
        Commit::Done(tasks) => of_tasks(&tasks),
        Commit::Full(_) => ("full", 0),
        Commit::Busy(_) => ("busy", 0),
        Commit::Stale(_, n) => ("stale", small(n)),
        Commit::OutOfMemory(_) => ("out of memory", 0),
    }
}

fn of_tasks(tasks: &[Task]) -> (&'static str, i64) {
    match tasks {
        [] => ("done", 0),
        [task] if task.path().parts().len() == 1 => ("done with the root", small(task.steps())),
        _ => ("done with others", 0),
    }
}

fn of_enroll(answer: Enroll) -> &'static str {
    match answer {
        Enroll::Done => "done",
        Enroll::Busy => "busy",
        Enroll::OutOfMemory => "out of memory",
    }
}

fn of_park(answer: Park) -> &'static str {
    match answer {
        Park::Parked => "parked",
        Park::Ended(_) => "ended",
        Park::Busy(_) => "busy",
        Park::NoEntry(_) => "no entry",
        Park::OutOfMemory(_) => "out of memory",
    }
}

fn of_end(found: bool) -> &'static str {
    if found { "all ended" } else { "not all" }
}

fn of_stop(found: Option<StopCause>) -> &'static str {
    match found {
        None => "none",
        Some(StopCause::Limit) => "limit",
        Some(StopCause::Memory) => "memory",
    }
}
