//! Tasks run.
ghost use Rattle.std.specs.Prelude.{◌≡◌, ◌<◌, ◌≤◌, ◌^◌, ◌+◌, false, [], None, IfOk, OnOk, OnErr};
ghost use Rattle.std.specs.Option.{option_map};
ghost use Rattle.core_steps.specs.Fields.{read_local};
ghost use Rattle.core_steps.specs.Moves.{read_job};
ghost use Rattle.task_state.specs.Tasks.{OfJob, awaited_of, begun, has_ended, read_task, most_steps};
ghost use Rattle.task_state.specs.Turns.{AllGoOn, Halts, Turn};
ghost use Rattle.task_state.specs.Inside.Steps.{Named, Stepped};

use crate::task::{Halt, Task, begin};
use core_steps::Local;
use std::alloc::{AllocError, Global};
use type_rules::Job;

/// The most steps of a thread whose task is run, 2^59.
pub const MOST_STEPS: u64 = 576_460_752_303_423_488;

impl Task {
    /// Makes at most `quantum` steps. It stops after the one that ends the thread or spawns another, and before one that needs the
    /// outcome of another. Where memory is wanting the task stands after its last whole step, and the steps made are pending.
    pub fn run(&mut self, alloc: Global, job: &Job, quantum: u32) -> Result<Halt, AllocError>
        requires task { OfJob (read_job job.now) (read_task self.old) }
        requires pending { (read_task self.old).pending ≡ [] }
        requires live { has_ended (read_task self.old) ≡ false }
        requires room { (read_task self.old).local.steps ≤ most_steps }
        requires quantum { 0 < quantum }
        ensures turn { Turn (read_job job.now) quantum (read_task self.old) (read_task self.new) }
        ensures halt { IfOk result (λ h. Halts (read_job job.now) quantum (read_task self.new) h) }
        ensures unfed { OnOk result ((read_task self.new).fed ≡ None) }
    {
        self.take_name(alloc)?;
        for _ in 0..quantum {
            if self.awaited().is_some() {
                return Ok(Halt::Wants);
            }
            match self.step(alloc, job)? {
                Some(child) => return Ok(Halt::Spawned(begin(alloc, child)?)),
                None => {
                    if self.ended() {
                        return Ok(Halt::Ended);
                    }
                }
            }
        }
        Ok(Halt::Spent)
    }

    // Copies the path for the next segment, where it is not there.
    fn take_name(&mut self, alloc: Global) -> Result<(), AllocError>
        ensures ok { OnOk result (Named (read_task self.old) (read_task self.new)) }
        ensures kept { OnErr result (read_task self.new ≡ read_task self.old) }
    {
        if self.name.is_none() {
            self.name = Some(self.local.path().copy(alloc)?);
        }
        Ok(())
    }

    // Makes one step, and hands out the thread that it spawned. Memory for the event is taken before the step.
    fn step(&mut self, alloc: Global, job: &Job) -> Result<Option<Local>, AllocError>
        requires task { OfJob (read_job job.now) (read_task self.old) }
        requires live { has_ended (read_task self.old) ≡ false }
        requires free { awaited_of (read_task self.old) ≡ None }
        requires name { (read_task self.old).name ≡ None → ⊥ }
        requires on { AllGoOn (read_task self.old).pending }
        requires room { (read_task self.old).local.steps + 1 < 2 ^ 64 }
        ensures ok { IfOk result (λ c. Stepped (read_job job.now) (read_task self.old) (option_map begun (option_map read_local c)) (read_task self.new)) }
        ensures kept { OnErr result (read_task self.new ≡ read_task self.old) }
    {
        self.pending.reserve(1)?;
        let moved = self.local.step(alloc, job, self.fed.as_ref())?;
        self.fed = None;
        self.pending.push(moved.event).unwrap();
        self.variable = self.local.awaited_variable(job);
        Ok(moved.child)
    }
}
