//! Four workers over stealing lanes.
ghost use Rattle.std.specs.Prelude.{◌≡◌, ◌<◌, ◌^◌, true};
ghost use Rattle.std.specs.List.{All};
ghost use Rattle.core_steps.specs.Moves.{read_job as the_job};
ghost use Rattle.task_state.specs.Tasks.{read_task};
ghost use Rattle.priority_deques.specs.EndBooks.{steal_job};
ghost use Rattle.priority_deques.specs.Tasks.{IsAtRest};

use crate::tasks::{push, root_of, spawn};
use priority_deques::{StealEnd, StealLanes};
use std::alloc::{AllocError, Global};
use std::sync::atomic::{AtomicU64, Ordering};
use std::test::Fail;
use std::thread;
use std::thread::Threads;
use task_state::{Halt, Task};
use type_rules::Job;
use worked_jobs::job_of;

const TASKS: usize = 8;
/// How many tasks each worker takes.
const TAKES: usize = 25_000;
/// More steps than any task makes.
const STEPS: usize = 100_000;

/// Eight threads of three priorities, each of more than 100,000 steps.
const LONG: &[u8] = b"priority log; priority bg; priority ui; order log < bg; order bg < ui;
proc down[p](n : int) at p : int { if (n < 1) { ret 0 } else { r <- call down[p]((n - 1)); ret r } }
main at log : int {
  a <- spawn[ui] { x <- call down[ui](100000); ret x }; b <- spawn[bg] { x <- call down[bg](100000); ret x };
  c <- spawn[log] { x <- call down[log](100000); ret x }; d <- spawn[ui] { x <- call down[ui](100000); ret x };
  e <- spawn[bg] { x <- call down[bg](100000); ret x }; f <- spawn[log] { x <- call down[log](100000); ret x };
  g <- spawn[ui] { x <- call down[ui](100000); ret x }; h <- spawn[bg] { x <- call down[bg](100000); ret x };
  ret 0
}";

/// Puts the tasks of the root's children 2i and 2i + 1, and tells whether they went there.
fn put_two(alloc: Global, job: &Job, end: &mut StealEnd, i: usize) -> Result<bool, AllocError>
    requires { steal_job end.old ≡ job.now }
    ensures { steal_job end.new ≡ job.now }
{
    let mut root = root_of(alloc, job)?;
    for n in 0..TASKS {
        let Some(child) = spawn(alloc, job, &mut root)? else {
            return Ok(false);
        };
        if n / 2 == i && push(job, end, child).is_err() {
            return Ok(false);
        }
    }
    Ok(true)
}

/// Where the task's key is counted: by the number of the child of the root, and its steps.
fn place_of(task: &Task) -> usize
    ensures { result < 2 ^ 60 }
{
    match task.path().parts() {
        [_, child] => *child as usize * STEPS + task.steps() as usize % STEPS,
        _ => 0,
    }
}

/// Makes one step, and tells whether the task can go on.
#[tactic(auto, using(crate::proofs::Rests::handed_rests))]
fn advance(alloc: Global, job: &Job, task: &mut Task) -> bool
    requires { IsAtRest (the_job job.now) (read_task task.old) }
    ensures { result ≡ true → IsAtRest (the_job job.now) (read_task task.new) }
{
    if task.steps() > 1_000_000 {
        return false;
    }
    match task.run(alloc, job, 1) {
        Ok(Halt::Spent) => {
            let _segment = task.segment(0);
            true
        }
        _ => false,
    }
}

/// Counts the task's key, makes one step, and puts the task back. Whether that succeeded.
fn pass_on(alloc: Global, job: &Job, end: &mut StealEnd, mut task: Task, seen: &[AtomicU64]) -> bool
    requires job { steal_job end.old ≡ job.now }
    requires task { IsAtRest (the_job job.now) (read_task task) }
    ensures { steal_job end.new ≡ job.now }
{
    if let Some(count) = seen.get(place_of(&task)) {
        count.fetch_add(1, Ordering::SeqCst);
    }
    advance(alloc, job, &mut task) && push(job, end, task).is_ok()
}

/// Puts two tasks, and then takes tasks and puts them back.
fn work(alloc: Global, job: &Job, end: &mut StealEnd, i: usize, seen: &[AtomicU64])
    requires { steal_job end.old ≡ job.now }
{
    if put_two(alloc, job, end, i) != Ok(true) {
        return;
    }
    let mut taken = 0;
    for _ in 0..10_000_000u64 {
        if taken >= TAKES {
            return;
        }
        match end.take_task() {
            Some(pick) => {
                if !pass_on(alloc, job, end, pick.task, seen) {
                    return;
                }
                taken += 1;
            }
            None => thread::yield_now(),
        }
    }
}

fn work_all<R: Threads + Sync>(
    rt: &R,
    alloc: Global,
    job: &Job,
    ends: &mut [StealEnd],
    seen: &[AtomicU64],
)
    requires { All (λ e. steal_job e ≡ job.now) ends.old }
{
    thread::for_each_mut(
        rt,
        ends,
        4,
        &|i: usize, end: &mut StealEnd|
            requires { steal_job end.old ≡ job.now }
        { work(alloc, job, end, i, seen) },
    );
}

/// Zeros, one for each key.
fn zeros(alloc: Global) -> Result<Vec<AtomicU64>, AllocError> {
    let mut seen = Vec::new(alloc);
    for _ in 0..TASKS * STEPS {
        seen.push(AtomicU64::new(0))?;
    }
    Ok(seen)
}

/// Whether the keys of the task before it were seen once, and none after.
fn are_seen_once(seen: &[AtomicU64], task: &Task) -> bool {
    let last = place_of(task);
    let first = last - last % STEPS;
    for place in first..first + STEPS {
        let times = match seen.get(place) {
            Some(count) => count.load(Ordering::SeqCst),
            None => return false,
        };
        if times != u64::from(place < last) {
            return false;
        }
    }
    true
}

/// Takes the tasks that are left, and gives how many they are and how many steps they made; none where a key was not seen once.
fn leave(ends: &mut [StealEnd], seen: &[AtomicU64]) -> Option<(u64, u64)> {
    let (mut tasks, mut steps) = (0u64, 0u64);
    for end in ends.iter_mut() {
        for _ in 0..TASKS {
            if let Some(pick) = end.take_task() {
                if !are_seen_once(seen, &pick.task) {
                    return None;
                }
                tasks = tasks.saturating_add(1);
                steps = steps.saturating_add(pick.task.steps());
            }
        }
    }
    Some((tasks, steps))
}

fn is_each_key_seen<R: Threads + Sync>(rt: &R, alloc: Global, job: &Job) -> Result<bool, Fail> {
    let mut ends = StealLanes::open(alloc, job, 4)?;
    let seen = zeros(alloc)?;
    work_all(rt, alloc, job, &mut ends, &seen);
    Ok(leave(&mut ends, &seen) == Some((8, 100_000)))
}

#[test]
fn each_key_comes_out_once(rt: HostRuntime) -> Result<(), Fail> {
    let alloc = rt.alloc();
    let job = job_of(alloc, LONG, b"")?;
    assert!(rt; is_each_key_seen(&rt, alloc, &job)?);
    Ok(())
}
