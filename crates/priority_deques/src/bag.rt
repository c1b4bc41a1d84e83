//! One deque as one end holds it.
ghost use Rattle.std.specs.Prelude.{◌≡◌, MatchOption, OnOk, IfErr, map};
ghost use Rattle.std.specs.List.{AllZip};
ghost use Rattle.task_state.specs.Tasks.{read_task};
ghost use Rattle.priority_deques.specs.Books.{DequeBook, Missed, Gave, Got, Refused, TookOne};
ghost use Rattle.core_steps.specs.Moves.{read_job};
ghost use Rattle.priority_deques.specs.Tasks.{Fits};

use task_state::Task;

/// One deque as one end holds it. `X` is what its steps need: nothing, or a runtime by which they may wait.
pub trait Bag<X> {
    ghost use Rattle.priority_deques.specs.Books.{DequeBook};

    ghost book: { Self → DequeBook };

    /// Takes a task. None comes only where the count of misses rose in this call or stands at its last value: the deque was found empty, or
    /// another end was faster.
    fn remove(&mut self, ctx: &X) -> Option<Task>
        ensures { MatchOption result (Missed (book self.old) (book self.new)) (λ t. Gave (read_task t) (book self.old) (book self.new)) };
}

/// A deque that its end puts tasks on.
pub trait OwnBag<X>: Bag<X> {
    /// Puts a task on it. The task comes back only where the count of refusals rose in this call or stands at its last value: the deque
    /// could not grow.
    fn add(&mut self, ctx: &X, task: Task) -> Result<(), Task>
        requires { Fits (read_job (Self.book self.old).job) (Self.book self.old).lane (read_task task) }
        ensures put { OnOk result (Got (read_task task) (Self.book self.old) (Self.book self.new)) }
        ensures refused { IfErr result (λ t. (t ≡ task) × Refused (Self.book self.old) (Self.book self.new)) };
}

/// The first task that one of the bags gives, which are tried in their order.
pub(crate) fn remove_any<X, B: Bag<X>>(bags: &mut Vec<B>, ctx: &X) -> Option<Task>
    ensures { MatchOption result (AllZip Missed (map B.book bags.old.items) (map B.book bags.new.items))
        (λ t. TookOne (read_task t) (map B.book bags.old.items) (map B.book bags.new.items)) }
{
    for i in 0..bags.len() {
        if let Some(task) = bags[i].remove(ctx) {
            return Some(task);
        }
    }
    None
}
