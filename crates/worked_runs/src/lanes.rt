//! Runs over both forms of lanes, and the tasks that go through them.
ghost use Rattle.std.specs.Prelude.{◌+◌, ◌^◌, ◌<◌, ◌≤◌};

use crate::count::counted;
use priority_deques::{SharedLanes, StealLanes};
use std::alloc::Global;
use std::sync::Wait;
use std::sync::atomic::{AtomicU64, Ordering};
use std::test::Fail;
use std::thread::Threads;
use steal_runtime::{Free, Gate, RunStop, run_over};
use trace_book::Book;
use type_rules::Job;
use worked_jobs::{sums, waits};

/// How many workers a run has, the most steps of a turn, and the limit of its steps.
#[derive(Clone, Copy)]
pub(crate) struct Setup {
    pub workers: u32,
    pub quantum: u32,
    pub limit: u64,
}

/// Runs the job over shared queues, as `run_job` does over stealing deques.
pub(crate) fn run_shared<R: Threads + Wait + Sync, G: Gate>(
    rt: &R,
    alloc: Global,
    job: &Job,
    setup: Setup,
    gate: &G,
) -> Result<Book, RunStop>
    requires workers { (0 < setup.workers) × (setup.workers ≤ 16) }
    requires ranges { (0 < setup.quantum) × (setup.limit + 1 < 2 ^ 64) }
{
    let ends = SharedLanes::open(alloc, job, setup.workers)?;
    run_over(rt, alloc, job, ends, setup.quantum, setup.limit, gate)
}

/// Runs the job over shared queues that count.
fn share_counted<R: Threads + Wait + Sync>(
    rt: &R,
    alloc: Global,
    job: &Job,
    count: &AtomicU64,
    workers: u32,
    quantum: u32,
    limit: u64,
) -> Result<Book, RunStop>
    requires workers { (0 < workers) × (workers ≤ 16) }
    requires ranges { (0 < quantum) × (limit + 1 < 2 ^ 64) }
{
    let ends = counted(alloc, job, SharedLanes::open(alloc, job, workers)?, count)?;
    run_over(rt, alloc, job, ends, quantum, limit, &Free)
}

/// Runs the job on one worker over stealing deques that count, one step in each turn.
fn steal_counted<R: Threads + Wait + Sync>(
    rt: &R,
    alloc: Global,
    job: &Job,
    count: &AtomicU64,
) -> Result<Book, RunStop> {
    let ends = counted(alloc, job, StealLanes::open(alloc, job, 1)?, count)?;
    run_over(rt, alloc, job, ends, 1, 100, &Free)
}

/// The work of a run, which has to be whole.
pub(crate) fn work_of(book: Result<Book, RunStop>) -> Result<u64, Fail> {
    match book {
        Ok(book) => Ok(book.work()),
        Err(_) => Err(Fail::new("no book")),
    }
}

/// The work of a run of one worker, one step in each turn, and how many tasks it put into lanes, shared or stealing.
fn work_and_puts<R: Threads + Wait + Sync>(
    rt: &R,
    alloc: Global,
    job: &Job,
    is_shared: bool,
) -> Result<(u64, u64), Fail> {
    let puts = AtomicU64::new(0);
    let book = if is_shared {
        share_counted(rt, alloc, job, &puts, 1, 1, 100)
    } else {
        steal_counted(rt, alloc, job, &puts)
    };
    Ok((work_of(book)?, puts.load(Ordering::SeqCst)))
}

/// Whether both forms make eight steps, and put nine tasks.
fn is_of_nine<R: Threads + Wait + Sync>(rt: &R, alloc: Global, job: &Job) -> Result<bool, Fail> {
    let shared = work_and_puts(rt, alloc, job, true)?;
    let stolen = work_and_puts(rt, alloc, job, false)?;
    Ok(shared == (8, 9) && stolen == (8, 9))
}

/// The tasks that one worker puts: the root at the start and after its Start, it and its child after its Spawn, the child after each
/// of its steps but the last, the root when the child has ended, since it was parked till then, and after its Join.
#[test]
fn tasks_go_through_both_forms(rt: HostRuntime) -> Result<(), Fail> {
    let alloc = rt.alloc();
    assert!(rt; is_of_nine(&rt, alloc, &waits().job(alloc)?)?);
    Ok(())
}

/// The work of a run of two workers over shared queues, and how many tasks they put.
fn work_and_puts_of_two<R: Threads + Wait + Sync>(
    rt: &R,
    alloc: Global,
    job: &Job,
) -> Result<(u64, u64), Fail> {
    let puts = AtomicU64::new(0);
    let book = share_counted(rt, alloc, job, &puts, 2, 64, 100000);
    Ok((work_of(book)?, puts.load(Ordering::SeqCst)))
}

/// Each of the six threads has a task, which goes through a lane at least once.
#[test]
fn each_thread_has_a_task(rt: HostRuntime) -> Result<(), Fail> {
    let alloc = rt.alloc();
    let (work, puts) = work_and_puts_of_two(&rt, alloc, &sums().job(alloc)?)?;
    assert!(rt; work == 348 && puts >= 6);
    Ok(())
}
