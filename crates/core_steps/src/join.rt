//! The step that takes the outcome of another thread.

ghost use Rattle.std.specs.Prelude.{◌≡◌, ◌<◌, ◌^◌, Some, None, IfOk, OnErr, slice_get};
ghost use Rattle.priml_syntax.specs.Tree.{sync};
ghost use Rattle.priml_syntax.specs.Read.{read_outcome};
ghost use Rattle.core_steps.specs.Fields.{running, read_frame, read_local, read_mode};
ghost use Rattle.core_steps.specs.Inside.Locals.{IsWaiting, MakesTo};
ghost use Rattle.core_steps.specs.Moves.{read_job};
ghost use Rattle.core_steps.specs.Inside.Moves.{CanStep, IsNext};
ghost use Rattle.core_steps.specs.Steps.{thread_in as thread_of};

use crate::frame::Coming;
use crate::local::{Local, Made, without_child};
use priml_syntax::{Action, Event, Outcome, Path};
use std::alloc::{AllocError, Global};
use type_rules::Job;

impl Local {
    // Takes the outcome of the thread that the next action awaits.
    pub(crate) fn join(
        &mut self,
        alloc: Global,
        job: &Job,
        outcome: &Outcome,
    ) -> Result<Made, AllocError>
        requires can { CanStep (read_job job.now) (read_local self.old) (Some (read_outcome outcome.now)) }
        requires waits { IsWaiting (read_job job.now) (read_local self.old) }
        ensures goes { IfOk result (λ m. MakesTo (read_job job.now) self.old (Some (read_outcome outcome.now)) m self.new) }
        ensures steps { self.new.steps ≡ self.old.steps }
        ensures kept { OnErr result (read_local self.new ≡ read_local self.old) }
    {
        match self.coming(job) {
            Some(Coming::Action(Action::Sync(x))) => self.join_in(alloc, job, outcome, *x),
            Some(Coming::Action(_)) => unreachable!(),
            Some(Coming::Ending(_)) => unreachable!(),
            None => unreachable!(),
        }
    }

    // The same, where the variable holds that thread.
    fn join_in(
        &mut self,
        alloc: Global,
        job: &Job,
        outcome: &Outcome,
        x: u32,
    ) -> Result<Made, AllocError>
        requires can { CanStep (read_job job.now) (read_local self.old) (Some (read_outcome outcome.now)) }
        requires mode { read_mode self.old.mode ≡ running }
        requires next { IsNext (read_job job.now).program (read_frame self.old.top) (sync x) }
        requires small { self.old.top.done < 2 ^ 63 }
        ensures goes { IfOk result (λ m. MakesTo (read_job job.now) self.old (Some (read_outcome outcome.now)) m self.new) }
        ensures steps { self.new.steps ≡ self.old.steps }
        ensures kept { OnErr result (read_local self.new ≡ read_local self.old) }
    {
        match self.top.thread(x) {
            Some(path) => {
                let path = path.copy(alloc)?;
                self.join_thread(alloc, job, outcome, x, path)
            }
            None => unreachable!(),
        }
    }

    // The same, of this path.
    fn join_thread(
        &mut self,
        alloc: Global,
        job: &Job,
        outcome: &Outcome,
        x: u32,
        path: Path,
    ) -> Result<Made, AllocError>
        requires can { CanStep (read_job job.now) (read_local self.old) (Some (read_outcome outcome.now)) }
        requires mode { read_mode self.old.mode ≡ running }
        requires path { thread_of (slice_get (read_frame self.old.top).scope x) ≡ Some path }
        requires next { IsNext (read_job job.now).program (read_frame self.old.top) (sync x) }
        requires small { self.old.top.done < 2 ^ 63 }
        ensures goes { IfOk result (λ m. MakesTo (read_job job.now) self.old (Some (read_outcome outcome.now)) m self.new) }
        ensures steps { self.new.steps ≡ self.old.steps }
        ensures kept { OnErr result (read_local self.new ≡ read_local self.old) }
    {
        match outcome {
            Outcome::Value(value) => {
                let value = value.copy(alloc)?;
                self.bind(value)?;
                Ok(without_child(Event::Join(path)))
            }
            Outcome::Fault(kind) => {
                self.fail(*kind);
                Ok(without_child(Event::Join(path)))
            }
        }
    }
}
