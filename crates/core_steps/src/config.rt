//! The threads of a job so far.

ghost use Rattle.std.specs.Prelude.{◌≡◌, ◌↔◌, ◌<◌, IfOk, IfErr, IfSome, OnErr, List, ℕ, Some, true, length, map};
ghost use Rattle.std.specs.List.{All};
ghost use Rattle.std.specs.Option.{option_copied, option_map};
ghost use Rattle.priml_syntax.specs.Read.{read_record};
ghost use Rattle.priml_syntax.specs.declared.record.Record.{Record as TheRecord};
ghost use Rattle.core_steps.specs.declared.config.CoreStop.TheVariants.{OutOfMemory};
ghost use Rattle.core_steps.specs.Locals.{read_awaited};
ghost use Rattle.core_steps.specs.Config.{begin, IsFinished};
ghost use Rattle.core_steps.specs.Configs.{Advances, AreRecords, IsConfig, IsReady, IsWait, Stops, all_end, records_from, slots_of, threads_of};
ghost use Rattle.core_steps.specs.Inside.Configs.{IsNeed, SlotNeeds, StandsAt};
ghost use Rattle.core_steps.specs.Laws.{HasGraph, IsChecked};
ghost use Rattle.core_steps.specs.Moves.{read_job};
ghost use Rattle.core_steps.specs.Steps.{Job as TheJob};

use crate::laws::job_is_checked;
use crate::local::{Made, Next};
use crate::lookup::{
    add_child, child_near, ended, find, has_ended, near_after, place_near, step_at,
};
use crate::slot::{Slot, each_ended, moved_records, records_of, root_slot};
use priml_syntax::{Event, Outcome, Path, Records};
use std::alloc::{AllocError, Global};
use std::marker::Model;
use type_rules::Job;

/// Why a thread made no step.
#[derive(Debug, Drop)]
pub enum CoreStop {
    /// There is no thread of the path.
    NoThread,
    /// It has ended.
    Ended,
    /// It waits on the thread of this path.
    Waits(Path),
    /// Want of memory.
    OutOfMemory,
}

/// The threads of a job so far, each with its events, in the order of paths.
#[derive(Drop)]
pub struct Config {
    threads: Vec<Slot>,
    // where the thread of the next step is looked for first; any number will do
    near: usize,
}

impl Model for Config {
    ghost use Rattle.std.specs.Prelude.{List, map};
    ghost use Rattle.std.specs.Coded.{codes};
    ghost use Rattle.priml_syntax.specs.contracts.value.Value as value;
    ghost use Rattle.core_steps.specs.declared.slot.Slot.{Slot};
    ghost use Rattle.core_steps.specs.Configs.{AreKept, read_slot};

    ghost Value = { List Slot };

    ghost coded = { Prim.hlevel (codes, value.the_row.coded) };

    ghost view = { λ c. c.threads.items };

    ghost invariant = { λ c. AreKept (map read_slot c.threads.items) };
}

impl Config {
    /// The roots alone.
    pub fn start(alloc: Global, job: &Job) -> Result<Config, AllocError>
        ensures threads { IfOk result (λ c. threads_of (read_job job.now).program c ≡ Some (begin (read_job job.now))) }
        ensures config { IfOk result (λ c. IsConfig (read_job job.now) c) }
    {
        let mut threads = Vec::new(alloc);
        for k in 0..job.roots() {
            threads.push(root_slot(alloc, job, k)?)?;
        }
        Ok(Config { threads, near: 0 })
    }

    /// Whether each thread has ended.
    pub fn all_ended(&self) -> bool
        ensures slots { result ≡ all_end (slots_of self.now) }
        ensures threads { (job : TheJob) → (is : IsConfig job self.now) → (result ≡ true) ↔ IsFinished is.threads }
    {
        each_ended(&self.threads)
    }

    /// Whether the thread of the path can make a step: it is there, has not ended and waits on none.
    pub fn ready(&self, job: &Job, path: &Path) -> bool
        requires { IsConfig (read_job job.now) self.now }
        ensures { IsReady (read_job job.now) (slots_of self.now) path.now result }
    {
        job_is_checked(job);
        match find(&self.threads, path, self.near) {
            Some(slot) => match slot.local.next(job) {
                Next::Free => true,
                Next::Awaits(awaited) => has_ended(&self.threads, awaited, 0),
                Next::Ended => false,
            },
            None => false,
        }
    }

    /// The thread on which that of the path waits; None exactly where there is none.
    pub fn waits_on(&self, job: &Job, path: &Path) -> Option<&Path>
        requires { IsConfig (read_job job.now) self.now }
        ensures { IsWait (read_job job.now) (slots_of self.now) path.now (option_copied result) }
    {
        match find(&self.threads, path, self.near) {
            Some(slot) => match slot.local.next(job) {
                Next::Awaits(awaited) => {
                    if has_ended(&self.threads, awaited, 0) {
                        return None;
                    }
                    Some(awaited)
                }
                Next::Free => None,
                Next::Ended => None,
            },
            None => None,
        }
    }

    /// The records, which are those of the serial meaning; None exactly where some thread has not ended. Those of a checked job have
    /// declared priorities and a graph.
    pub fn records(&self, alloc: Global) -> Result<Option<Records>, AllocError>
        ensures slots { IfOk result (λ r. option_map (map read_record) r ≡ records_from (slots_of self.now)) }
        ensures told { IfOk result (λ r. (job : TheJob) → (is : IsConfig job self.now) → AreRecords job is.threads (option_map (map read_record) r)) }
        ensures declared { IfOk result (λ r. IfSome r (λ rs. (job : TheJob) → IsConfig job self.now → IsChecked job →
            All (λ (x : TheRecord). x.prio < length job.program.names) rs)) }
        ensures graph { IfOk result (λ r. IfSome r (λ rs. (job : TheJob) → IsConfig job self.now → IsChecked job → HasGraph job (map read_record rs))) }
    {
        match records_of(alloc, &self.threads)? {
            Some(list) => Ok(Some(Records::of(list))),
            None => Ok(None),
        }
    }

    /// The same, of a configuration that is used up: it copies none.
    pub fn into_records(self, alloc: Global) -> Result<Option<Records>, AllocError>
        ensures slots { IfOk result (λ r. option_map (map read_record) r ≡ records_from (slots_of self)) }
        ensures told { IfOk result (λ r. (job : TheJob) → (is : IsConfig job self) → AreRecords job is.threads (option_map (map read_record) r)) }
        ensures declared { IfOk result (λ r. IfSome r (λ rs. (job : TheJob) → IsConfig job self → IsChecked job →
            All (λ (x : TheRecord). x.prio < length job.program.names) rs)) }
        ensures graph { IfOk result (λ r. IfSome r (λ rs. (job : TheJob) → IsConfig job self → IsChecked job → HasGraph job (map read_record rs))) }
    {
        match moved_records(alloc, self.threads)? {
            Some(list) => Ok(Some(Records::of(list))),
            None => Ok(None),
        }
    }

    /// Makes the next step of the thread of the path, and answers its event. Where there is none the configuration stays as it was;
    /// only where the thread is there and has not ended may memory be wanting.
    pub fn advance(&mut self, alloc: Global, job: &Job, path: &Path) -> Result<Event, CoreStop>
        requires { IsConfig (read_job job.now) self.old }
        ensures goes { IfOk result (λ e. Advances (read_job job.now) (slots_of self.old) path.now e (slots_of self.new)) }
        ensures config { IsConfig (read_job job.now) self.new }
        ensures kept { OnErr result (slots_of self.new ≡ slots_of self.old) }
        ensures cause { IfErr result (Stops (read_job job.now) (slots_of self.old) path.now) }
    {
        let Some(at) = place_near(&self.threads, path, self.near) else {
            return Err(CoreStop::NoThread);
        };
        match self.handed(alloc, job, at)? {
            Some((awaited, outcome)) => {
                Ok(self.go(alloc, job, at, Some(&outcome), Some(awaited))?)
            }
            None => Ok(self.go(alloc, job, at, None, None)?),
        }
    }

    // Makes that of the thread there, with what it needs.
    fn go(
        &mut self,
        alloc: Global,
        job: &Job,
        at: usize,
        outcome: Option<&Outcome>,
        join: Option<Path>,
    ) -> Result<Event, AllocError>
        requires config { IsConfig (read_job job.now) self.old }
        requires there { at < length self.old }
        requires told { (p : List ℕ) → StandsAt self.old p at → SlotNeeds (read_job job.now) (slots_of self.old) p join (read_awaited outcome) }
        ensures goes { IfOk result (λ e. (p : List ℕ) → StandsAt self.old p at → Advances (read_job job.now) (slots_of self.old) p e (slots_of self.new)) }
        ensures config { IsConfig (read_job job.now) self.new }
        ensures kept { OnErr result (slots_of self.new ≡ slots_of self.old) }
    {
        self.threads.reserve(1)?;
        let made = step_at(&mut self.threads, at, alloc, job, outcome, join)?;
        let Made { event, child } = made;
        let last = add_child(&mut self.threads, alloc, child, at);
        self.near = near_after(&self.threads, &event, last);
        Ok(event)
    }

    // What the next step of the thread there needs: nothing, or the outcome of the thread of that path.
    fn handed(
        &self,
        alloc: Global,
        job: &Job,
        at: usize,
    ) -> Result<Option<(Path, Outcome)>, CoreStop>
        requires { at < length self.now }
        ensures { (p : List ℕ) → StandsAt self.now p at → IsNeed (read_job job.now) (slots_of self.now) p result }
    {
        match self.threads[at].local.next(job) {
            Next::Free => Ok(None),
            Next::Awaits(awaited) => {
                let near = child_near(awaited, at);
                Ok(Some(ended(alloc, &self.threads, awaited, near)?))
            }
            Next::Ended => Err(CoreStop::Ended),
        }
    }
}

impl From<AllocError> for CoreStop {
    ghost from_gives = { λ _ stop. stop ≡ OutOfMemory };

    fn from(_: AllocError) -> CoreStop {
        CoreStop::OutOfMemory
    }
}
