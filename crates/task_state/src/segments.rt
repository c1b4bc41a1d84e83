//! Tasks hand out their steps.
ghost use Rattle.std.specs.Prelude.{◌≡◌, ◌↔◌, [], None, IfSome};
ghost use Rattle.core_steps.specs.Steps.{Job as TheJob};
ghost use Rattle.trace_book.specs.Segments.{read_segment};
ghost use Rattle.task_state.specs.Tasks.{IsTask, OfJob, read_task};
ghost use Rattle.task_state.specs.Segments.{IsHandedOut, IsSegmentFrom, IsSegmentOf};

use crate::task::Task;
use std::mem::replace;
use trace_book::Segment;

impl Task {
    /// Hands out the pending steps, which are then none, as a segment of this worker; None exactly where there are none. Where the
    /// last of them ended the thread its outcome goes with them. It takes no memory: `run` has.
    pub fn segment(&mut self, worker: u32) -> Option<Segment>
        requires { IsTask (read_task self.old) }
        ensures none { result ≡ None ↔ (read_task self.old).pending ≡ [] }
        ensures steps { IfSome result (λ s. IsSegmentFrom (read_task self.old) worker (read_segment s)) }
        ensures of_job { IfSome result (λ s. (job : TheJob) → OfJob job (read_task self.old) → IsSegmentOf job (read_segment s)) }

        // What is left of the task.
        ensures rest { IsHandedOut (read_task self.old) (read_task self.new) }
        ensures task { (job : TheJob) → OfJob job (read_task self.old) → OfJob job (read_task self.new) }
    {
        if self.pending.is_empty() {
            return None;
        }
        match self.name.take() {
            Some(path) => {
                let alloc = *self.pending.allocator();
                let events = replace(&mut self.pending, Vec::new(alloc));
                let outcome = self.local.take_outcome();
                self.over = outcome.is_some();
                Some(Segment {
                    path,
                    prio: self.local.priority(),
                    from: self.local.steps() - events.len() as u64,
                    events,
                    outcome,
                    worker,
                })
            }
            None => unreachable!(),
        }
    }
}
