//! Two seats, call by call.
ghost use Rattle.std.specs.Prelude.{IfOk, IfSome, OnOk};
ghost use Rattle.core_steps.specs.Moves.{read_job as the_job};
ghost use Rattle.task_state.specs.Tasks.{read_task};
ghost use Rattle.join_board.specs.Handles.{knows};
ghost use Rattle.join_board.specs.Tasks.{CanRun, HasChild, IsChild, IsIdle};
ghost use Rattle.worked_boards.specs.Inside.Seats.{Sits};

use crate::failed::Failed;
use crate::seats::{all_ended, ask_stop, close, commit, count, enroll, look, open, park, stopped};
use join_board::{Board, BoardSeat, Look, Made};
use priml_syntax::Path;
use std::alloc::Global;
use std::sync::Wait;
use std::test::Fail;
use std::thread;
use task_state::{Halt, Task};
use trace_book::Book;
use type_rules::Job;
use worked_jobs::waits_above;

/// A call of a seat, on a root that spawns one child and then awaits it.
#[derive(Clone, Copy)]
pub(crate) enum Call {
    /// Commits the root's steps to its Spawn.
    Begin,
    /// Commits the child's steps.
    Child,
    /// Commits the root's steps from its Join.
    Finish,
    /// Enrolls the child.
    Enroll,
    /// Parks the root on the child.
    Park,
    /// Looks up the child.
    Look,
    Count,
    AllEnded,
    AskStop,
    Stopped,
}

/// The number of a seat, its call, and the answer.
pub(crate) type Row = (u32, Call, &'static str, i64);

const POLLED: &[Row] = &[
    (0, Call::Begin, "done", 0),
    (0, Call::Begin, "stale", 2),
    (0, Call::Look, "not yet", 0),
    (0, Call::Child, "stale", 0),
    (0, Call::Enroll, "done", 1),
    (0, Call::Enroll, "done", 1),
    (0, Call::Child, "done", 0),
    (1, Call::Look, "ended", 5),
    (1, Call::AllEnded, "not all", 0),
    (1, Call::Finish, "done", 0),
    (0, Call::AllEnded, "all ended", 0),
];

const PARKED: &[Row] = &[
    (0, Call::Begin, "done", 0),
    (0, Call::Park, "no entry", 0),
    (0, Call::Enroll, "done", 1),
    (0, Call::Park, "parked", 0),
    (0, Call::Child, "done with the root", 2),
    (0, Call::Park, "ended", 0),
];

const STOPPED: &[Row] = &[
    (0, Call::Begin, "done", 0),
    (0, Call::Count, "count", 2),
    (1, Call::Stopped, "none", 0),
    (0, Call::AskStop, "asked", 0),
    (1, Call::Stopped, "memory", 0),
];

/// Runs a task to which nothing was fed.
fn run(
    alloc: Global,
    job: &Job,
    _board: &Board,
    seat: &BoardSeat,
    task: &mut Task,
) -> Result<Halt, Failed>
    requires seat { Sits (the_job job.now) _board.now seat.now }
    requires task { IsIdle (the_job job.now) (read_task task.old) }
    ensures rest { OnOk result (IsIdle (the_job job.now) (read_task task.new)) }
    ensures child { IfOk result (λ h. HasChild (the_job job.now) (read_task task.new) h) }
{
    if task.ended() || task.steps() > 1000000 {
        return Err(Failed("no turn"));
    }
    let Made { halt, segment: _ } = seat.run(alloc, job, 0, 64, task)?;
    Ok(halt)
}

/// The root after its steps to the Spawn, and the child.
fn first_steps(
    alloc: Global,
    job: &Job,
    board: &Board,
    seat: &BoardSeat,
) -> Result<(Task, Task), Failed>
    requires { Sits (the_job job.now) board.now seat.now }
    ensures root { IfOk result (λ r. IsIdle (the_job job.now) (read_task r.0)) }
    ensures child { IfOk result (λ r. IsChild (the_job job.now) (read_task r.0) (read_task r.1)) }
{
    let mut root = Task::root(alloc, job)?;
    match run(alloc, job, board, seat, &mut root)? {
        Halt::Spawned(child) => Ok((root, child)),
        _ => Err(Failed("no spawn")),
    }
}

/// The task, to which what it awaits is fed, where that thread has ended. None where another seat has the shard.
fn fetch(
    alloc: Global,
    _job: &Job,
    board: &Board,
    seat: &mut BoardSeat,
    task: Task,
) -> Result<Option<Task>, Failed>
    requires seat { Sits (the_job _job.now) board.now seat.old }
    requires task { IsIdle (the_job _job.now) (read_task task) }
    ensures seat { OnOk result (Sits (the_job _job.now) board.now seat.new) }
    ensures fed { IfOk result (λ o. IfSome o (λ t. CanRun (the_job _job.now) (knows seat.new) (read_task t))) }
{
    if task.ended() || task.steps() > 1000000 {
        return Err(Failed("no turn"));
    }
    let Some(awaited) = task.awaited() else {
        return Ok(Some(task));
    };
    let path = awaited.copy(alloc)?;
    let mut task = task;
    match board.look(alloc, seat, &path) {
        Look::Ended(outcome) => {
            task.feed(outcome);
            Ok(Some(task))
        }
        Look::Busy => Ok(None),
        _ => Err(Failed("not ended")),
    }
}

/// Commits the next steps of the task.
fn commit_next(
    alloc: Global,
    job: &Job,
    board: &Board,
    seat: &mut BoardSeat,
    task: Task,
) -> Result<(&'static str, i64), Failed>
    requires seat { Sits (the_job job.now) board.now seat.old }
    requires task { IsIdle (the_job job.now) (read_task task) }
    ensures { OnOk result (Sits (the_job job.now) board.now seat.new) }
{
    let Some(mut task) = fetch(alloc, job, board, seat, task)? else {
        return Ok(("busy", 0));
    };
    let Made { halt: _, segment } = seat.run(alloc, job, 0, 64, &mut task)?;
    match segment {
        Some(segment) => Ok(commit(alloc, job, board, seat, segment)),
        None => Err(Failed("no steps")),
    }
}

/// Looks up the child.
fn look_child(
    alloc: Global,
    job: &Job,
    board: &Board,
    seat: &mut BoardSeat,
) -> Result<(&'static str, i64), Failed>
    requires { Sits (the_job job.now) board.now seat.old }
    ensures { OnOk result (Sits (the_job job.now) board.now seat.new) }
{
    match Path::root(alloc)?.child(alloc, 0) {
        Ok(path) => Ok(look(alloc, job, board, seat, &path)),
        Err(_) => Err(Failed("no path")),
    }
}

/// The answer to a call with a task that has made the root's first steps, or with the child.
fn of_task(
    alloc: Global,
    job: &Job,
    board: &Board,
    seat: &mut BoardSeat,
    call: Call,
) -> Result<(&'static str, i64), Failed>
    requires { Sits (the_job job.now) board.now seat.old }
    ensures { OnOk result (Sits (the_job job.now) board.now seat.new) }
{
    let (root, child) = first_steps(alloc, job, board, seat)?;
    match call {
        Call::Child => commit_next(alloc, job, board, seat, child),
        Call::Finish => commit_next(alloc, job, board, seat, root),
        Call::Enroll => enroll(alloc, job, board, seat, &root, &child),
        _ => park(alloc, job, board, seat, root),
    }
}

fn answer(
    alloc: Global,
    job: &Job,
    board: &Board,
    seat: &mut BoardSeat,
    call: Call,
) -> Result<(&'static str, i64), Failed>
    requires { Sits (the_job job.now) board.now seat.old }
    ensures { OnOk result (Sits (the_job job.now) board.now seat.new) }
{
    match call {
        Call::Begin => commit_next(alloc, job, board, seat, Task::root(alloc, job)?),
        Call::Look => look_child(alloc, job, board, seat),
        Call::Count => Ok(count(job, board, seat)),
        Call::AllEnded => Ok(all_ended(job, board, seat)),
        Call::AskStop => Ok(ask_stop(job, board, seat)),
        Call::Stopped => Ok(stopped(job, board, seat)),
        _ => of_task(alloc, job, board, seat, call),
    }
}

/// Makes the call, again where the other seat has the shard. The answer is that of the row, else it fails.
pub(crate) fn says<R: Wait>(
    rt: &R,
    alloc: Global,
    job: &Job,
    board: &Board,
    seat: &mut BoardSeat,
    row: Row,
) -> Result<(), Failed>
    requires { Sits (the_job job.now) board.now seat.old }
    ensures { OnOk result (Sits (the_job job.now) board.now seat.new) }
{
    let (_, call, word, n) = row;
    for _ in rt.forever() {
        let said = answer(alloc, job, board, seat, call)?;
        if said.0 == word && said.1 == n {
            return Ok(());
        }
        if said.0 != "busy" {
            return Err(Failed(word));
        }
        thread::yield_now();
    }
    unreachable!()
}

/// Makes the calls of the rows.
fn go_through<R: Wait>(
    rt: &R,
    alloc: Global,
    job: &Job,
    board: &Board,
    s0: &mut BoardSeat,
    s1: &mut BoardSeat,
    rows: &[Row],
) -> Result<(), Failed>
    requires s0 { Sits (the_job job.now) board.now s0.old }
    requires s1 { Sits (the_job job.now) board.now s1.old }
    ensures s0 { OnOk result (Sits (the_job job.now) board.now s0.new) }
    ensures s1 { OnOk result (Sits (the_job job.now) board.now s1.new) }
{
    for row in rows {
        if row.0 == 0 {
            says(rt, alloc, job, board, s0, *row)?;
        } else {
            says(rt, alloc, job, board, s1, *row)?;
        }
    }
    Ok(())
}

/// The book of a board after the calls of its two seats.
fn book_after<R: Wait>(rt: &R, alloc: Global, job: &Job, rows: &[Row]) -> Result<Book, Fail> {
    let (board, mut seats) = open(alloc, job, 2, 100)?;
    let Some(mut s1) = seats.pop() else {
        return Err(Fail::new("no seat"));
    };
    let Some(mut s0) = seats.pop() else {
        return Err(Fail::new("one seat"));
    };
    if let Err(Failed(word)) = go_through(rt, alloc, job, &board, &mut s0, &mut s1, rows) {
        return Err(Fail::new(word));
    }
    seats.push(s0)?;
    seats.push(s1)?;
    if seats.len() != 2 {
        return Err(Fail::new("a seat is missing"));
    }
    Ok(close(job, board, seats))
}

#[test]
fn call_by_call(rt: HostRuntime) -> Result<(), Fail> {
    let alloc = rt.alloc();
    let job = waits_above(alloc)?;
    for (rows, work) in [(POLLED, 6), (PARKED, 4), (STOPPED, 2)] {
        assert_eq!(rt; book_after(&rt, alloc, &job, rows)?.work(), work);
    }
    Ok(())
}
