//! Two tasks, turn by turn.
ghost use Rattle.std.specs.Prelude.{OnOk};
ghost use Rattle.core_steps.specs.Moves.{read_job as the_job};
ghost use Rattle.trace_book.specs.Segments.{read_segment};
ghost use Rattle.task_state.specs.Segments.{IsSegmentOf};
ghost use Rattle.task_state.specs.Tasks.{read_task};
ghost use Rattle.worked_tasks.specs.Inside.Idle.{IsIdle};

use crate::turns::{Turn, is_turn, take_turn};
use core_steps::Local;
use priml_syntax::{Outcome, Value};
use std::alloc::Global;
use std::cmp::Ordering;
use std::test::Fail;
use task_state::Task;
use trace_book::Segment;
use type_rules::Job;
use worked_jobs::waits_above;

/// Feeds the outcome with which the segment ended its thread to a task that awaits this thread.
fn feed(job: &Job, task: &mut Task, segment: Segment) -> Result<(), Fail>
    requires task { IsIdle (the_job job.now) (read_task task.old) }
    requires segment { IsSegmentOf (the_job job.now) (read_segment segment) }
    ensures { OnOk result (IsIdle (the_job job.now) (read_task task.new)) }
{
    let Some(awaited) = task.awaited() else {
        return Err(Fail::new("no thread is awaited"));
    };
    if awaited.compare(&segment.path) != Ordering::Equal {
        return Err(Fail::new("another thread is awaited"));
    }
    let Segment { outcome, .. } = segment;
    match outcome {
        Some(outcome) => {
            task.feed(outcome);
            Ok(())
        }
        None => Err(Fail::new("not ended")),
    }
}

#[test]
fn two_tasks(rt: HostRuntime) -> Result<(), Fail> {
    let alloc = rt.alloc();
    let job = waits_above(alloc)?;
    let Ok(mut root) = Task::of_start(alloc, Local::root(alloc, &job)?) else {
        return Err(Fail::new("out of memory"));
    };
    assert_eq!(rt; root.path().parts(), [0u32].as_slice());
    assert_eq!(rt; (root.priority(), root.steps(), root.pending()), (0, 0, 0));
    let first = take_turn(alloc, &job, &mut root, 64)?;
    assert!(rt; is_turn(&first, "spawned", 0, &["start", "spawn"]));
    assert!(rt; root.segment(0).is_none());
    let Turn { child, .. } = first;
    let Some(mut child) = child else {
        return Err(Fail::new("no child"));
    };
    let one = take_turn(alloc, &job, &mut child, 1)?;
    assert!(rt; is_turn(&one, "spent", 0, &["start"]));
    let last = take_turn(alloc, &job, &mut child, 64)?;
    assert!(rt; is_turn(&last, "ended", 1, &["end"]));
    let none = take_turn(alloc, &job, &mut root, 64)?;
    assert!(rt; is_turn(&none, "wants", 2, &[]));
    let Turn { segment, .. } = last;
    let Some(segment) = segment else {
        return Err(Fail::new("no segment"));
    };
    assert!(rt; matches!(&segment.outcome, Some(Outcome::Value(Value::Int(5)))));
    feed(&job, &mut root, segment)?;
    assert!(rt; root.awaited().is_none());
    let rest = take_turn(alloc, &job, &mut root, 64)?;
    assert!(rt; is_turn(&rest, "ended", 2, &["join", "end"]));
    Ok(())
}
