//! Runs of jobs on workers, each beside the job's serial meaning.
use crate::lanes::{Setup, run_shared};
use priml_syntax::Records;
use serial_meaning::{MeaningStop, meaning};
use std::alloc::Global;
use std::sync::Wait;
use std::test::Fail;
use std::thread::Threads;
use steal_runtime::{Free, RunStop, run_job};
use trace_book::Book;
use type_rules::Job;
use worked_jobs::{are_same, crowd, endless, leaves, worked_jobs};

/// How a run came to its end, beside the serial meaning of its job.
#[derive(Clone, Copy, PartialEq, Eq)]
enum Ran {
    /// Whole, with the records of the serial meaning: so many steps, and so many threads.
    Whole(u64, usize),
    /// Stopped above the limit, and the serial meaning is over it too.
    Stopped,
    Otherwise,
}

/// What a whole run came to.
fn of_book(alloc: Global, book: &Book, meant: &Records) -> Result<Ran, Fail> {
    match book.records(alloc)? {
        Some(records) if are_same(&records, meant) => {
            Ok(Ran::Whole(book.work(), records.list().len()))
        }
        _ => Ok(Ran::Otherwise),
    }
}

/// Runs the job, over shared queues or over stealing deques.
fn run<R: Threads + Wait + Sync>(
    rt: &R,
    alloc: Global,
    job: &Job,
    is_shared: bool,
    setup: Setup,
) -> Result<Ran, Fail> {
    let Setup {
        workers,
        quantum,
        limit,
    } = setup;
    if workers == 0 || workers > 16 || quantum == 0 || limit > 1000000 {
        return Err(Fail::new("out of range"));
    }
    let book = if is_shared {
        run_shared(rt, alloc, job, setup, &Free)
    } else {
        run_job(rt, alloc, job, workers, quantum, limit, &Free)
    };
    match (book, meaning(alloc, job, limit)) {
        (Ok(book), Ok(meant)) => of_book(alloc, &book, &meant),
        (Err(RunStop::StepLimit(steps)), Err(MeaningStop::Over)) if steps > limit => {
            Ok(Ran::Stopped)
        }
        _ => Ok(Ran::Otherwise),
    }
}

/// Whether the job is run whole in both forms on 1 to 16 workers, with a limit of just its work.
fn is_whole<R: Threads + Wait + Sync>(
    rt: &R,
    alloc: Global,
    job: &Job,
    limit: u64,
) -> Result<bool, Fail> {
    for workers in [1, 2, 4, 16] {
        for quantum in [1, 2, 64] {
            for is_shared in [false, true] {
                let setup = Setup {
                    workers,
                    quantum,
                    limit,
                };
                let ran = run(rt, alloc, job, is_shared, setup)?;
                if !matches!(ran, Ran::Whole(work, _) if work == limit) {
                    return Ok(false);
                }
            }
        }
    }
    Ok(true)
}

#[test]
fn whole_runs(rt: HostRuntime) -> Result<(), Fail> {
    let alloc = rt.alloc();
    for worked in worked_jobs() {
        assert!(rt; is_whole(&rt, alloc, &worked.job(alloc)?, worked.work)?);
    }
    Ok(())
}

/// Whether the job is stopped at each of the limits in both forms on 1, 2 and 16 workers.
fn is_stopped<R: Threads + Wait + Sync>(
    rt: &R,
    alloc: Global,
    job: &Job,
    limits: &[u64],
) -> Result<bool, Fail> {
    for workers in [1, 2, 16] {
        for limit in limits {
            for is_shared in [false, true] {
                let setup = Setup {
                    workers,
                    quantum: 64,
                    limit: *limit,
                };
                if run(rt, alloc, job, is_shared, setup)? != Ran::Stopped {
                    return Ok(false);
                }
            }
        }
    }
    Ok(true)
}

#[test]
fn limits(rt: HostRuntime) -> Result<(), Fail> {
    let alloc = rt.alloc();
    assert!(rt; is_stopped(&rt, alloc, &leaves().job(alloc)?, &[0, 1, 2, 3, 4])?);
    assert!(rt; is_stopped(&rt, alloc, &endless(alloc)?, &[100])?);
    Ok(())
}

/// Whether the job is run whole in both forms on four workers, with 1,000 threads.
fn has_thousand_threads<R: Threads + Wait + Sync>(
    rt: &R,
    alloc: Global,
    job: &Job,
) -> Result<bool, Fail> {
    let setup = Setup {
        workers: 4,
        quantum: 4,
        limit: 1000000,
    };
    let deques = run(rt, alloc, job, false, setup)?;
    let queues = run(rt, alloc, job, true, setup)?;
    Ok(matches!(deques, Ran::Whole(_, 1000)) && matches!(queues, Ran::Whole(_, 1000)))
}

#[test]
fn thousand_threads(rt: HostRuntime) -> Result<(), Fail> {
    let alloc = rt.alloc();
    assert!(rt; has_thousand_threads(&rt, alloc, &crowd(alloc)?)?);
    Ok(())
}

/// A run of one of the jobs, whose setup is made of the number. One in four is stopped half way.
fn is_right<R: Threads + Wait + Sync>(rt: &R, alloc: Global, number: u32) -> Result<bool, Fail> {
    let jobs = worked_jobs();
    let worked = &jobs[(number >> 8) as usize % 7];
    let is_half = number >> 30 == 0;
    let setup = Setup {
        workers: (number >> 16) % 16 + 1,
        quantum: (number >> 20) % 100 + 1,
        limit: if is_half {
            worked.work / 2
        } else {
            worked.work
        },
    };
    let is_shared = (number >> 29) % 2 == 0;
    let ran = run(rt, alloc, &worked.job(alloc)?, is_shared, setup)?;
    match ran {
        Ran::Whole(work, _) => Ok(!is_half && work == worked.work),
        Ran::Stopped => Ok(is_half),
        Ran::Otherwise => Ok(false),
    }
}

#[test]
fn random_runs(rt: HostRuntime) -> Result<(), Fail> {
    let alloc = rt.alloc();
    let mut number: u32 = 1;
    for _ in 0..300 {
        number = number.wrapping_mul(1664525).wrapping_add(1013904223);
        assert!(rt; is_right(&rt, alloc, number)?);
    }
    Ok(())
}
