//! Tasks at rest.
ghost use Rattle.std.specs.Prelude.{◌≡◌, IfOk, IfSome};
ghost use Rattle.core_steps.specs.Moves.{read_job as the_job};
ghost use Rattle.task_state.specs.Tasks.{read_task};
ghost use Rattle.priority_deques.specs.EndBooks.{steal_job};
ghost use Rattle.priority_deques.specs.Tasks.{IsAtRest};

use priority_deques::StealEnd;
use std::alloc::{AllocError, Global};
use task_state::{Halt, Task};
use type_rules::Job;

/// The root's task.
#[tactic(auto, using(crate::proofs::Rests::start_rests))]
pub(crate) fn root_of(alloc: Global, job: &Job) -> Result<Task, AllocError>
    ensures { IfOk result (λ t. IsAtRest (the_job job.now) (read_task t)) }
{
    Task::root(alloc, job)
}

/// Runs the task up to its next Spawn, and gives the child; none where the task is not near one.
#[tactic(auto, using(crate::proofs::Rests::start_rests, crate::proofs::Rests::handed_rests))]
pub(crate) fn spawn(alloc: Global, job: &Job, task: &mut Task) -> Result<Option<Task>, AllocError>
    requires { IsAtRest (the_job job.now) (read_task task.old) }
    ensures { IfOk result (λ r. IfSome r (λ c. IsAtRest (the_job job.now) (read_task c) × IsAtRest (the_job job.now) (read_task task.new))) }
{
    if task.steps() > 1000 {
        return Ok(None);
    }
    match task.run(alloc, job, 64)? {
        Halt::Spawned(child) => {
            let _segment = task.segment(0);
            Ok(Some(child))
        }
        _ => Ok(None),
    }
}

/// Puts the task into the lanes without a runtime. A task that is refused is let go.
#[tactic(auto, using(crate::proofs::Rests::rests_as))]
pub(crate) fn push(_job: &Job, end: &mut StealEnd, task: Task) -> Result<(), AllocError>
    requires job { steal_job end.old ≡ _job.now }
    requires task { IsAtRest (the_job _job.now) (read_task task) }
    ensures { steal_job end.new ≡ _job.now }
{
    match end.push_task(task) {
        Ok(()) => Ok(()),
        Err(_) => Err(AllocError),
    }
}
