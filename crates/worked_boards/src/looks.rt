//! Two seats in threads of their own: one commits, and the other looks on.
ghost use Rattle.std.specs.Prelude.{IfOk, OnOk, IfSome};
ghost use Rattle.std.specs.List.{All};
ghost use Rattle.core_steps.specs.Moves.{read_job as the_job};
ghost use Rattle.worked_boards.specs.Inside.Seats.{Sits};

use crate::calls::{Call, Row, says};
use crate::failed::Failed;
use crate::seats::{close, look, open};
use join_board::{Board, BoardSeat};
use priml_syntax::Path;
use std::alloc::{AllocError, Global};
use std::sync::Wait;
use std::test::Fail;
use std::thread;
use std::thread::Threads;
use trace_book::Book;
use type_rules::Job;
use worked_jobs::waits_above;

/// The steps of the two threads in turn.
const TURNS: &[Row] = &[
    (0, Call::Begin, "done", 0),
    (0, Call::Enroll, "done", 1),
    (0, Call::Child, "done", 0),
    (0, Call::Finish, "done", 0),
];

/// What one thread begins with. It looks on, or commits.
#[derive(Drop)]
struct Part {
    seat: BoardSeat,
    looks: bool,
}

/// Looks up the child of the root ten thousand times. Once it has ended with 5 it stays so.
fn watch(alloc: Global, job: &Job, board: &Board, seat: &mut BoardSeat) -> Result<(), Failed>
    requires { Sits (the_job job.now) board.now seat.old }
    ensures { OnOk result (Sits (the_job job.now) board.now seat.new) }
{
    let Ok(path) = Path::root(alloc)?.child(alloc, 0) else {
        return Err(Failed("no path"));
    };
    let mut ended = false;
    for _ in 0..10000u32 {
        let (word, n) = look(alloc, job, board, seat, &path);
        let later = word == "ended" && n == 5;
        let early = word == "not yet" && n < 2 && !ended;
        if !later && !early && word != "busy" {
            return Err(Failed("another answer"));
        }
        ended = ended || later;
    }
    Ok(())
}

/// Commits the steps of the two threads.
fn commit_all<R: Wait>(
    rt: &R,
    alloc: Global,
    job: &Job,
    board: &Board,
    seat: &mut BoardSeat,
) -> Result<(), Failed>
    requires { Sits (the_job job.now) board.now seat.old }
    ensures { OnOk result (Sits (the_job job.now) board.now seat.new) }
{
    for row in TURNS {
        says(rt, alloc, job, board, seat, *row)?;
    }
    Ok(())
}

/// The seat, where all went well.
fn work<R: Wait>(rt: &R, alloc: Global, job: &Job, board: &Board, part: Part) -> Option<BoardSeat>
    requires { Sits (the_job job.now) board.now part.seat }
    ensures { IfSome result (λ s. Sits (the_job job.now) board.now s) }
{
    let Part { mut seat, looks } = part;
    let went = if looks {
        watch(alloc, job, board, &mut seat)
    } else {
        commit_all(rt, alloc, job, board, &mut seat)
    };
    match went {
        Ok(()) => Some(seat),
        Err(_) => None,
    }
}

/// The first seat commits, and the others look on.
fn deal(alloc: Global, _job: &Job, _board: &Board, seats: Vec<BoardSeat>) -> Result<Vec<Part>, Fail>
    requires { All (λ s. Sits (the_job _job.now) _board.now s) seats.items }
    ensures { IfOk result (λ v. All (λ p. Sits (the_job _job.now) _board.now p.seat) v.items) }
{
    let mut seats = seats;
    let mut parts = Vec::new(alloc);
    while let Some(seat) = seats.pop() {
        let looks = !parts.is_empty();
        parts.push(Part { seat, looks })?;
    }
    Ok(parts)
}

/// Each part in a thread of its own.
fn work_all<R: Threads + Wait + Sync>(
    rt: &R,
    alloc: Global,
    job: &Job,
    board: &Board,
    parts: Vec<Part>,
) -> Result<Vec<Option<BoardSeat>>, AllocError>
    requires { All (λ p. Sits (the_job job.now) board.now p.seat) parts.items }
    ensures { IfOk result (λ v. All (λ o. IfSome o (λ s. Sits (the_job job.now) board.now s)) v.items) }
{
    thread::map_vec(
        rt,
        parts,
        &|part: Part| -> Option<BoardSeat>
            requires { Sits (the_job job.now) board.now part.seat }
            ensures { IfSome result (λ s. Sits (the_job job.entry.now) board.entry.now s) }
        { work(rt, alloc, job, board, part) },
    )
}

/// The seats, where all are there.
fn gather(
    alloc: Global,
    _job: &Job,
    _board: &Board,
    all: Vec<Option<BoardSeat>>,
) -> Result<Vec<BoardSeat>, Fail>
    requires { All (λ o. IfSome o (λ s. Sits (the_job _job.now) _board.now s)) all.items }
    ensures { IfOk result (λ v. All (λ s. Sits (the_job _job.now) _board.now s) v.items) }
{
    let mut seats = Vec::new(alloc);
    for seat in all {
        match seat {
            Some(seat) => seats.push(seat)?,
            None => return Err(Fail::new("a thread failed")),
        }
    }
    Ok(seats)
}

/// The book of a board on which one thread has committed, and one has looked on.
fn book_of<R: Threads + Wait + Sync>(rt: &R, alloc: Global, job: &Job) -> Result<Book, Fail> {
    let (board, seats) = open(alloc, job, 2, 100)?;
    let parts = deal(alloc, job, &board, seats)?;
    let left = work_all(rt, alloc, job, &board, parts)?;
    let all = gather(alloc, job, &board, left)?;
    if all.len() != 2 {
        return Err(Fail::new("a seat is missing"));
    }
    Ok(close(job, board, all))
}

#[test]
fn looked_on(rt: HostRuntime) -> Result<(), Fail> {
    let alloc = rt.alloc();
    let job = waits_above(alloc)?;
    assert_eq!(rt; book_of(&rt, alloc, &job)?.work(), 6);
    Ok(())
}
