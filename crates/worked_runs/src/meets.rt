//! Two workers have to meet: while one is held in its second turn, the other has to enter one.
use crate::lanes::{Setup, run_shared, work_of};
use std::alloc::Global;
use std::sync::Wait;
use std::test::Fail;
use std::thread::Threads;
use steal_runtime::{Meet, run_job};
use type_rules::Job;
use worked_jobs::sums;

/// The work of a run of two workers that met, over shared queues or over stealing deques.
fn work_of_a_meeting<R: Threads + Wait + Sync>(
    rt: &R,
    alloc: Global,
    job: &Job,
    is_shared: bool,
) -> Result<u64, Fail> {
    let meet = Meet::new(rt);
    let book = if is_shared {
        let two = Setup {
            workers: 2,
            quantum: 2,
            limit: 100000,
        };
        run_shared(rt, alloc, job, two, &meet)
    } else {
        run_job(rt, alloc, job, 2, 2, 100000, &meet)
    };
    if meet.met() && !meet.ran_out() {
        work_of(book)
    } else {
        Err(Fail::new("they did not meet"))
    }
}

#[test]
fn two_workers_meet(rt: HostRuntime) -> Result<(), Fail> {
    let alloc = rt.alloc();
    for is_shared in [true, false] {
        let work = work_of_a_meeting(&rt, alloc, &sums().job(alloc)?, is_shared)?;
        assert_eq!(rt; work, 348);
    }
    Ok(())
}
