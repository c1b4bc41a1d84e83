//! A whole job by tasks, beside its serial meaning.
ghost use Rattle.std.specs.Prelude.{IfOk, OnOk, IfSome, map};
ghost use Rattle.core_steps.specs.Moves.{read_job as the_job};
ghost use Rattle.priml_syntax.specs.Read.{read_record};
ghost use Rattle.task_state.specs.Tasks.{read_task};
ghost use Rattle.worked_tasks.specs.Inside.Idle.{AreMeant, IsIdle};

use crate::turns::{Turn, take_turn};
use priml_syntax::{Record, Records};
use serial_meaning::meaning;
use std::alloc::Global;
use std::cmp::Ordering;
use std::test::Fail;
use task_state::Task;
use trace_book::{Segment, ThreadLog};
use type_rules::Job;
use worked_jobs::{are_same_events, are_same_outcomes, job_of};

/// Each kind of step: a fault, a joined fault, calls, blocks, branches, inputs and outputs.
const EACH_STEP: &[u8] = b"priority bg; priority ui; order bg < ui;
proc f[p](n : int) at p : int { u <- output n; ret (n + 1) }
main at bg : int {
  a <- spawn[ui] { x <- ret 2; ret (x / 0) };
  b <- spawn[ui] { i <- input; j <- input; case i inl u { ret 0 } inr k { r <- call f[ui](k); ret r } };
  x <- call f[bg](3);
  y <- do { ret (x, true) };
  z <- sync b;
  if snd(y) { w <- sync a; ret w } else { ret z }
}";

/// Appends the segment to the log of its thread.
fn append(log: &mut ThreadLog, segment: Segment) -> Result<(), Fail> {
    if segment.path.compare(log.path()) != Ordering::Equal {
        return Err(Fail::new("another thread"));
    }
    match log.append(segment) {
        Ok(()) => Ok(()),
        Err(_) => Err(Fail::new("not appended")),
    }
}

/// Feeds the outcome of the awaited thread, where the task awaits one.
fn feed(alloc: Global, job: &Job, records: &Records, task: &mut Task) -> Result<(), Fail>
    requires task { IsIdle (the_job job.now) (read_task task.old) }
    requires meant { AreMeant (the_job job.now) (map read_record records.now) }
    ensures { OnOk result (IsIdle (the_job job.now) (read_task task.new)) }
{
    let Some(path) = task.awaited() else {
        return Ok(());
    };
    let Some(record) = records.get(path) else {
        return Err(Fail::new("no record"));
    };
    let outcome = record.outcome.copy(alloc)?;
    task.feed(outcome);
    Ok(())
}

/// Whether the log is that of the record of a thread that ended with a number or a fault.
fn is_record(log: &ThreadLog, record: &Record) -> bool {
    let Some(outcome) = log.outcome() else {
        return false;
    };
    log.priority() == record.prio
        && are_same_events(log.events(), record.events.as_slice())
        && are_same_outcomes(outcome, &record.outcome)
}

/// Feeds the task what it awaits, takes a turn, and appends its steps to the log. The child that the last of them spawned.
fn go_on(
    alloc: Global,
    job: &Job,
    records: &Records,
    log: &mut ThreadLog,
    task: &mut Task,
    quantum: u32,
) -> Result<Option<Task>, Fail>
    requires task { IsIdle (the_job job.now) (read_task task.old) }
    requires meant { AreMeant (the_job job.now) (map read_record records.now) }
    ensures idle { OnOk result (IsIdle (the_job job.now) (read_task task.new)) }
    ensures child { IfOk result (λ o. IfSome o (λ c. IsIdle (the_job job.now) (read_task c))) }
{
    feed(alloc, job, records, task)?;
    let Turn { child, segment, .. } = take_turn(alloc, job, task, quantum)?;
    if let Some(segment) = segment {
        append(log, segment)?;
    }
    Ok(child)
}

/// Runs the task and its descendants to their ends, a thread before its parent goes on, and compares each log with the record
/// of its thread. The number of threads, of which each stands at most `depth` below the one before.
fn run_whole(
    alloc: Global,
    job: &Job,
    records: &Records,
    task: Task,
    quantum: u32,
    depth: u32,
) -> Result<usize, Fail>
    requires task { IsIdle (the_job job.now) (read_task task) }
    requires meant { AreMeant (the_job job.now) (map read_record records.now) }
{
    if depth == 0 {
        return Err(Fail::new("too deep"));
    }
    let mut task = task;
    let mut log = ThreadLog::new(alloc, task.path().copy(alloc)?, task.priority());
    let mut threads: usize = 1;
    for _ in 0..64 {
        if task.ended() {
            return match records.get(log.path()) {
                Some(record) if is_record(&log, record) => Ok(threads),
                _ => Err(Fail::new("another record")),
            };
        }
        if let Some(child) = go_on(alloc, job, records, &mut log, &mut task, quantum)? {
            let more = run_whole(alloc, job, records, child, quantum, depth - 1)?;
            threads = threads.saturating_add(more);
        }
    }
    Err(Fail::new("no end"))
}

#[test]
fn each_quantum(rt: HostRuntime) -> Result<(), Fail> {
    let alloc = rt.alloc();
    let job = job_of(alloc, EACH_STEP, b"0.1: 9\n")?;
    let Ok(records) = meaning(alloc, &job, 100) else {
        return Err(Fail::new("no meaning"));
    };
    assert_eq!(rt; records.work(), 23);
    for quantum in 1..6 {
        let root = Task::root(alloc, &job)?;
        let threads = run_whole(alloc, &job, &records, root, quantum, 3)?;
        assert_eq!(rt; threads, records.list().len());
    }
    Ok(())
}
