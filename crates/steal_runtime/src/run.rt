//! Runs of a job on workers.
ghost use Rattle.std.specs.Prelude.{◌≡◌, ◌+◌, ◌^◌, ◌<◌, ◌≤◌, true, IfErr, IfOk, OnOk, vec_len};
ghost use Rattle.std.specs.List.{All};
ghost use Rattle.core_steps.specs.Moves.{read_job};
ghost use Rattle.join_board.specs.Handles.{about};
ghost use Rattle.join_board.specs.Jobs.{the_job};
ghost use Rattle.steal_runtime.specs.Runs.{IsRun, IsStop};
ghost use Rattle.steal_runtime.specs.Inside.Seats.{Leaves, Serves, Sits, SomeOver};

use crate::gate::Gate;
use crate::parts::{Duty, Left, Part};
use crate::put::put;
use crate::stops::RunStop;
use crate::work::work;
use join_board::{Board, BoardSeat};
use priority_deques::{Lanes, StealLanes};
use std::alloc::{AllocError, Global};
use std::sync::Wait;
use std::sync::atomic::AtomicU64;
use std::thread;
use std::thread::Threads;
use task_state::Task;
use trace_book::Book;
use type_rules::Job;

// Puts the tasks of the roots through the first end.
fn put_roots<R: Wait, L: Lanes>(
    rt: &R,
    alloc: Global,
    job: &Job,
    ends: &mut Vec<L>,
) -> Result<(), AllocError>
    requires some { 0 < vec_len ends.old }
    requires lanes { All (λ e. L.job e ≡ job.now) ends.old.items }
    ensures { OnOk result ((vec_len ends.new ≡ vec_len ends.old) × All (λ e. L.job e ≡ job.now) ends.new.items) }
{
    for k in 0..job.roots() {
        let task = Task::root_at(alloc, job, k)?;
        put(rt, &mut ends[0], task)?;
    }
    Ok(())
}

// An end and a seat for each worker.
fn deal<L: Lanes>(
    _board: &Board,
    _job: &Job,
    first: Duty,
    ends: Vec<L>,
    seats: Vec<BoardSeat>,
) -> Result<Vec<Part<L>>, AllocError>
    requires count { (vec_len seats ≡ vec_len ends) × (first.worker + vec_len ends ≤ (about _board.now).opened) × (first.worker + vec_len ends ≤ 16) }
    requires duty { Serves _board.now _job.now first }
    requires seats { All (λ s. Sits _board.now s) seats.items }
    requires lanes { All (λ e. L.job e ≡ _job.now) ends.items }
    ensures count { IfOk result (λ v. vec_len v ≡ vec_len ends) }
    ensures ready { IfOk result (λ v. All (λ p. Sits _board.now p.seat × Serves _board.now _job.now p.duty) v.items) }
    ensures lanes { IfOk result (λ v. All (λ p. L.job p.end ≡ _job.now) v.items) }
{
    let mut parts = Vec::with_capacity(first.alloc, ends.len())?;
    let mut ends = ends;
    let mut seats = seats;
    let mut worker = first.worker;
    while let Some(end) = ends.pop() {
        let Some(seat) = seats.pop() else {
            unreachable!()
        };
        let duty = Duty { worker, ..first };
        parts.push(Part { duty, end, seat })?;
        worker += 1;
    }
    Ok(parts)
}

// Each worker works in a thread of its own, where one can be made.
fn work_all<R: Threads + Wait + Sync, L: Lanes + Send, G: Gate>(
    rt: &R,
    board: &Board,
    job: &Job,
    gate: &G,
    parts: Vec<Part<L>>,
) -> Result<Vec<Left>, AllocError>
    requires ready { All (λ p. Sits board.now p.seat × Serves board.now job.now p.duty) parts.items }
    requires lanes { All (λ p. L.job p.end ≡ job.now) parts.items }
    ensures { IfOk result (λ v. (vec_len v ≡ vec_len parts) × All (λ l. Leaves board.now l) v.items) }
{
    let bed = AtomicU64::new(0);
    thread::map_vec(
        rt,
        parts,
        &|part: Part<L>| -> Left
            requires { (L.job part.end ≡ job.now) × (Sits board.now part.seat × Serves board.now job.now part.duty) }
            ensures { Leaves board.entry.now result }
        { work(rt, board, job, gate, &bed, part) },
    )
}

// The seats of those that have left, and whether one of them found that every thread has ended.
fn gather(
    _board: &Board,
    mut all: Vec<Left>,
    seats: &mut Vec<BoardSeat>,
) -> Result<bool, AllocError>
    requires none { vec_len seats.old ≡ 0 }
    requires all { All (λ l. Leaves _board.now l) all.items }
    ensures seats { OnOk result ((vec_len seats.new ≡ vec_len all) × All (λ s. Sits _board.now s) seats.new.items) }
    ensures over { IfOk result (λ o. o ≡ true → SomeOver seats.new.items) }
{
    let mut over = false;
    while let Some(left) = all.pop() {
        let Left { seat, over: mine } = left;
        over = over || mine;
        seats.push(seat)?;
    }
    Ok(over)
}

// What the closed board has.
fn answer(board: Board, seats: Vec<BoardSeat>, over: bool, limit: u64) -> Result<Book, RunStop>
    requires seats { (vec_len seats ≡ (about board).opened) × (0 < vec_len seats) × All (λ s. Sits board s) seats.items }
    requires over { over ≡ true → SomeOver seats.items }
    requires limit { (about board).limit ≡ limit }
    requires range { limit + 1 < 2 ^ 64 }
    ensures ok { IfOk result (λ b. IsRun (the_job (about board)) (about board).opened (about board).quantum limit b) }
    ensures stop { IfErr result (λ s. IsStop (the_job (about board)) limit s) }
{
    let book = board.close(seats);
    let work = book.work();
    if work > limit {
        return Err(RunStop::StepLimit(work));
    }
    if over {
        Ok(book)
    } else {
        Err(RunStop::OutOfMemory)
    }
}

/// Runs the job on a worker for each end, 1 to 16, which are spent. A turn has at most `quantum` steps, at least 1. The book of a whole run has the records
/// of the serial meaning. It comes only where the job's work is at most `limit`, and StepLimit only where the work exceeds it. It may wait.
pub fn run_over<R: Threads + Wait + Sync, L: Lanes + Send, G: Gate>(
    rt: &R,
    alloc: Global,
    job: &Job,
    ends: Vec<L>,
    quantum: u32,
    limit: u64,
    gate: &G,
) -> Result<Book, RunStop>
    requires ends { (0 < vec_len ends) × (vec_len ends ≤ 16) }
    requires lanes { All (λ e. L.job e ≡ job.now) ends.items }
    requires ranges { (0 < quantum) × (limit + 1 < 2 ^ 64) }
    ensures ok { IfOk result (λ b. IsRun (read_job job.now) (vec_len ends) quantum limit b) }
    ensures stop { IfErr result (λ s. IsStop (read_job job.now) limit s) }
{
    let (board, seats) = Board::new(alloc, job, ends.len() as u32, quantum, limit)?;
    let mut ends = ends;
    put_roots(rt, alloc, job, &mut ends)?;
    let mut closed = Vec::with_capacity(alloc, ends.len())?;
    let first = Duty {
        alloc,
        worker: 0,
        quantum,
        limit,
    };
    let parts = deal(&board, job, first, ends, seats)?;
    let all = work_all(rt, &board, job, gate, parts)?;
    let over = gather(&board, all, &mut closed)?;
    answer(board, closed, over, limit)
}

/// Runs the job on so many workers, 1 to 16, over stealing deques, as `run_over` does.
pub fn run_job<R: Threads + Wait + Sync, G: Gate>(
    rt: &R,
    alloc: Global,
    job: &Job,
    workers: u32,
    quantum: u32,
    limit: u64,
    gate: &G,
) -> Result<Book, RunStop>
    requires workers { (0 < workers) × (workers ≤ 16) }
    requires ranges { (0 < quantum) × (limit + 1 < 2 ^ 64) }
    ensures ok { IfOk result (λ b. IsRun (read_job job.now) workers quantum limit b) }
    ensures stop { IfErr result (λ s. IsStop (read_job job.now) limit s) }
{
    let ends = StealLanes::open(alloc, job, workers)?;
    run_over(rt, alloc, job, ends, quantum, limit, gate)
}
