//! What a task awaits is fed to it.
ghost use Rattle.std.specs.Prelude.{◌≡◌, ℕ, List, Some, IsSome};
ghost use Rattle.priml_syntax.specs.Read.{read_outcome};
ghost use Rattle.core_steps.specs.Determined.{EndsWith};
ghost use Rattle.core_steps.specs.Steps.{Job as TheJob};
ghost use Rattle.task_state.specs.Tasks.{OfJob, awaited_of, read_task};

use crate::task::Task;
use priml_syntax::Outcome;

impl Task {
    /// Hands in the outcome of the awaited thread, for the next step. It takes no memory.
    pub fn feed(&mut self, outcome: Outcome)
        requires { IsSome (awaited_of (read_task self.old)) }
        ensures fed { read_task self.new ≡ record (read_task self.old) { fed = Some (read_outcome outcome) } }
        ensures task { (job : TheJob) (b : List ℕ) → OfJob job (read_task self.old) → awaited_of (read_task self.old) ≡ Some b →
            EndsWith job b (read_outcome outcome) → OfJob job (read_task self.new) }
    {
        self.fed = Some(outcome);
    }
}
