//! A worker puts tasks into its lanes.
ghost use Rattle.std.specs.Prelude.{◌≡◌};
ghost use Rattle.std.specs.List.{All};
ghost use Rattle.core_steps.specs.Moves.{read_job};
ghost use Rattle.task_state.specs.Tasks.{read_task};
ghost use Rattle.priority_deques.specs.Tasks.{IsAtRest};

use priority_deques::Lanes;
use std::alloc::AllocError;
use std::sync::Wait;
use task_state::Task;

/// Puts the task. Where its deque can't grow it is let go.
pub(crate) fn put<R: Wait, L: Lanes>(rt: &R, end: &mut L, task: Task) -> Result<(), AllocError>
    requires { IsAtRest (read_job (L.job end.old)) (read_task task) }
    ensures { L.job end.new ≡ L.job end.old }
{
    match end.put(rt, task) {
        Ok(()) => Ok(()),
        Err(_) => Err(AllocError),
    }
}

/// Puts the tasks in their order.
pub(crate) fn put_all<R: Wait, L: Lanes>(
    rt: &R,
    end: &mut L,
    tasks: Vec<Task>,
) -> Result<(), AllocError>
    requires { All (λ t. IsAtRest (read_job (L.job end.old)) (read_task t)) tasks.items }
    ensures { L.job end.new ≡ L.job end.old }
{
    for task in tasks {
        put(rt, end, task)?;
    }
    Ok(())
}
