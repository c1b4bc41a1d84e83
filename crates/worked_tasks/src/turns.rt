//! One run of a task, with the segment that it hands out.
ghost use Rattle.std.specs.Prelude.{IfOk, OnOk, IfSome};
ghost use Rattle.core_steps.specs.Moves.{read_job as the_job};
ghost use Rattle.trace_book.specs.Segments.{read_segment};
ghost use Rattle.task_state.specs.Segments.{IsSegmentOf};
ghost use Rattle.task_state.specs.Tasks.{read_task};
ghost use Rattle.worked_tasks.specs.Inside.Idle.{IsIdle};

use priml_syntax::Event;
use std::alloc::Global;
use std::test::Fail;
use task_state::{Halt, Task};
use trace_book::Segment;
use type_rules::Job;
use worked_jobs::name_of;

/// How a run came to its end, the thread that its last step spawned, how many steps were pending then, and their segment.
#[derive(Drop)]
pub(crate) struct Turn {
    pub halt: &'static str,
    pub child: Option<Task>,
    pub pending: u64,
    pub segment: Option<Segment>,
}

/// Runs the task, and lets worker 0 take its segment.
pub(crate) fn take_turn(
    alloc: Global,
    job: &Job,
    task: &mut Task,
    quantum: u32,
) -> Result<Turn, Fail>
    requires { IsIdle (the_job job.now) (read_task task.old) }
    ensures idle { OnOk result (IsIdle (the_job job.now) (read_task task.new)) }
    ensures child { IfOk result (λ t. IfSome t.child (λ c. IsIdle (the_job job.now) (read_task c))) }
    ensures segment { IfOk result (λ t. IfSome t.segment (λ s. IsSegmentOf (the_job job.now) (read_segment s))) }
{
    if task.ended() || task.steps() > 1000 || quantum == 0 {
        return Err(Fail::new("no turn"));
    }
    let (halt, child) = match task.run(alloc, job, quantum)? {
        Halt::Ended => ("ended", None),
        Halt::Spawned(child) => ("spawned", Some(child)),
        Halt::Wants => ("wants", None),
        Halt::Spent => ("spent", None),
    };
    let pending = task.pending();
    let segment = task.segment(0);
    Ok(Turn {
        halt,
        child,
        pending,
        segment,
    })
}

/// Whether the run came to its end in this way, with these steps after the first `from`.
pub(crate) fn is_turn(turn: &Turn, halt: &str, from: u64, events: &[&str]) -> bool {
    if turn.halt != halt || turn.pending != events.len() as u64 {
        return false;
    }
    match &turn.segment {
        Some(segment) => segment.from == from && are_named(&segment.events, events),
        None => events.is_empty(),
    }
}

fn are_named(events: &[Event], names: &[&str]) -> bool {
    if events.len() != names.len() {
        return false;
    }
    for (event, name) in events.iter().zip(names) {
        if name_of(event) != *name {
            return false;
        }
    }
    true
}
