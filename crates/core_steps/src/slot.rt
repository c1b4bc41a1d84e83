//! A thread of a configuration, with its events.

ghost use Rattle.std.specs.Prelude.{◌≡◌, ◌<◌, ◌+◌, ◌++◌, ◌∷◌, [], IfOk, OnOk, OnErr, List, ℕ, Some, None, length, map, slice_get};
ghost use Rattle.std.specs.Option.{option_map};
ghost use Rattle.std.specs.declared.vec.Vec.{Vec as TheVec};
ghost use Rattle.std.specs.declared.alloc.Global.{Global as TheGlobal};
ghost use Rattle.priml_syntax.specs.Read.{read_outcome, read_record};
ghost use Rattle.priml_syntax.specs.declared.record.Record.{Record as TheRecord};
ghost use Rattle.core_steps.specs.Fields.{read_local, read_mode};
ghost use Rattle.core_steps.specs.Locals.{IsFed, IsLocal, ended_with, read_awaited};
ghost use Rattle.core_steps.specs.Inside.Locals.{MakesTo};
ghost use Rattle.core_steps.specs.Configs.{IsCounted, all_end, entry_from, read_slot, records_from, thread_of};
ghost use Rattle.core_steps.specs.Inside.Configs.{JoinsAt};
ghost use Rattle.core_steps.specs.Moves.{read_job};
ghost use Rattle.core_steps.specs.Steps.{root_state};

use crate::local::{Local, Made, Mode};
use priml_syntax::{Event, Outcome, Path, Record};
use std::alloc::{AllocError, Global};
use type_rules::Job;

// A thread so far.
#[derive(Drop)]
pub(crate) struct Slot {
    pub(crate) local: Local,
    pub(crate) events: Vec<Event>,
    // Where the thread that spawned this one stood then, at which a search may begin. Any number will do.
    pub(crate) parent: usize,
}

impl Slot {
    // Makes one step with the outcome of the thread of the path `join`, where it awaits one, and notes its event.
    pub(crate) fn step(
        &mut self,
        alloc: Global,
        job: &Job,
        outcome: Option<&Outcome>,
        join: Option<Path>,
    ) -> Result<Made, AllocError>
        requires state { IsLocal (read_job job.now) (read_local self.old.local) }
        requires counted { self.old.local.steps ≡ length self.old.events.items }
        requires live { ended_with (read_mode self.old.local.mode) ≡ None }
        requires fed { IsFed (read_job job.now) (read_local self.old.local) (read_awaited outcome) }
        requires joins { JoinsAt (read_job job.now) (read_local self.old.local) join }
        ensures goes { IfOk result (λ m. MakesTo (read_job job.now) self.old.local (read_awaited outcome.entry) m self.new.local) }
        ensures events { IfOk result (λ m. self.new.events.items ≡ self.old.events.items ++ m.event ∷ []) }
        ensures steps { OnOk result (self.new.local.steps ≡ self.old.local.steps + 1) }
        ensures kept { OnErr result (read_slot self.new ≡ read_slot self.old) }
    {
        self.events.reserve(1)?;
        let made = self.local.take_step(alloc, job, outcome)?;
        self.events.push(twin(&made.event, join)).unwrap();
        Ok(made)
    }
}

// The k-th root, which has made no step.
pub(crate) fn root_slot(alloc: Global, job: &Job, k: u32) -> Result<Slot, AllocError>
    requires { k < length (read_job job.now).program.mains }
    ensures root { IfOk result (λ s. option_map (λ m. record { state = root_state m k; events = [] })
        (slice_get (read_job job.now).program.mains k) ≡ thread_of (read_job job.now).program (read_slot s)) }
    ensures counted { IfOk result (λ s. IsCounted (read_slot s)) }
{
    let local = Local::root_at(alloc, job, k)?;
    Ok(Slot {
        local,
        events: Vec::new(alloc),
        parent: 0,
    })
}

// Whether each of these has ended.
pub(crate) fn each_ended(slots: &[Slot]) -> bool
    ensures { result ≡ all_end (map read_slot slots.now) }
{
    for slot in slots {
        if slot.local.outcome().is_none() {
            return false;
        }
    }
    true
}

// The records of these, where each has ended.
pub(crate) fn records_of(alloc: Global, slots: &[Slot]) -> Result<Option<Vec<Record>>, AllocError>
    ensures { IfOk result (λ r. option_map (λ (v : TheVec TheRecord TheGlobal). map read_record v.items) r ≡ records_from (map read_slot slots.now)) }
{
    let mut list = Vec::new(alloc);
    for slot in slots {
        match record_of(alloc, slot)? {
            Some(record) => list.push(record)?,
            None => return Ok(None),
        }
    }
    Ok(Some(list))
}

// The record of a thread; None where it has not ended.
fn record_of(alloc: Global, slot: &Slot) -> Result<Option<Record>, AllocError>
    ensures { IfOk result (λ r. option_map read_record r ≡ option_map (entry_from (read_slot slot.now)) (ended_with (read_mode slot.now.local.mode))) }
{
    match slot.local.outcome() {
        Some(outcome) => Ok(Some(record_with(alloc, slot, outcome)?)),
        None => Ok(None),
    }
}

// The record of a thread with this outcome.
fn record_with(alloc: Global, slot: &Slot, outcome: &Outcome) -> Result<Record, AllocError>
    ensures { IfOk result (λ r. read_record r ≡ entry_from (read_slot slot.now) (read_outcome outcome.now)) }
{
    let path = slot.local.path.copy(alloc)?;
    let events = copies(alloc, &slot.events)?;
    let outcome = outcome.copy(alloc)?;
    Ok(Record {
        path,
        prio: slot.local.prio,
        events,
        outcome,
    })
}

// Equal events, in order.
fn copies(alloc: Global, events: &[Event]) -> Result<Vec<Event>, AllocError>
    ensures { IfOk result (λ v. v.items ≡ events.now) }
{
    let mut all = Vec::new(alloc);
    for event in events {
        all.push(event.copy(alloc)?)?;
    }
    Ok(all)
}

// An equal event, made from the path that it joins where it is a Join.
fn twin(event: &Event, join: Option<Path>) -> Event
    requires { (b : List ℕ) → event.now ≡ Event.Join b → join ≡ Some b }
    ensures { result ≡ event.now }
{
    match event {
        Event::Start => Event::Start,
        Event::Plain => Event::Plain,
        Event::Spawn => Event::Spawn,
        Event::Join(_) => match join {
            Some(path) => Event::Join(path),
            None => unreachable!(),
        },
        Event::Read => Event::Read,
        Event::Wrote(n) => Event::Wrote(*n),
        Event::End => Event::End,
    }
}

// The same, of slots that are used up.
pub(crate) fn moved_records(
    alloc: Global,
    slots: Vec<Slot>,
) -> Result<Option<Vec<Record>>, AllocError>
    ensures { IfOk result (λ r. option_map (λ (v : TheVec TheRecord TheGlobal). map read_record v.items) r ≡ records_from (map read_slot slots.items)) }
{
    let mut list = Vec::with_capacity(alloc, slots.len())?;
    for slot in slots {
        let Some(record) = into_record(slot) else {
            return Ok(None);
        };
        list.push(record)?;
    }
    Ok(Some(list))
}

// The record of a thread that is used up; None where it has not ended.
fn into_record(slot: Slot) -> Option<Record>
    ensures { option_map read_record result ≡ option_map (entry_from (read_slot slot)) (ended_with (read_mode slot.local.mode)) }
{
    let Slot { local, events, .. } = slot;
    let Local {
        path,
        prio,
        mode,
        ..
    } = local;
    match mode {
        Mode::Ended(outcome) => Some(Record {
            path,
            prio,
            events,
            outcome,
        }),
        Mode::Fresh => None,
        Mode::Running => None,
        Mode::Failing(_) => None,
    }
}
