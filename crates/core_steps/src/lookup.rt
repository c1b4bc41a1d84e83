//! Where threads stand among the slots of a configuration. A place that is tried first saves the search, and changes no answer.

ghost use Rattle.std.specs.Prelude.{◌≡◌, ◌<◌, ◌≤◌, [], IfOk, IfErr, IfSome, OnErr, List, ℕ, Some, None, true, not, length, map};
ghost use Rattle.std.specs.List.{HoldsAt, insert};
ghost use Rattle.std.specs.Vec.{vec_len, vec_capacity};
ghost use Rattle.std.specs.Option.{is_some, option_copied, option_map};
ghost use Rattle.std.specs.Ordering.{nat_cmp, is_lt};
ghost use Rattle.std.specs.Cmp.Lexicographic.{slice_cmp};
ghost use Rattle.priml_syntax.specs.Read.{read_outcome};
ghost use Rattle.core_steps.specs.Fields.{read_local};
ghost use Rattle.core_steps.specs.Inside.Locals.{read_boxed};
ghost use Rattle.core_steps.specs.Locals.{read_awaited};
ghost use Rattle.core_steps.specs.Configs.{AreSlots, SlotsRise, read_slot};
ghost use Rattle.core_steps.specs.Inside.Configs.{IsEnded, SlotNeeds, StandsAt, StepsAt, outcome_of as the_outcome, slot_added, slot_at, with_slot};
ghost use Rattle.core_steps.specs.declared.slot.Slot.{Slot as TheSlot};
ghost use Rattle.core_steps.specs.Moves.{read_job};

use crate::config::CoreStop;
use crate::local::{Local, Made};
use crate::slot::Slot;
use priml_syntax::{Event, Outcome, Path};
use std::alloc::{AllocError, Global};
use std::cmp::Ordering;
use type_rules::Job;

// The slot of the path, which is looked for there first.
pub(crate) fn find<'a>(slots: &'a [Slot], path: &Path, near: usize) -> Option<&'a Slot>
    requires { SlotsRise (map read_slot slots.now) }
    ensures { option_map read_slot (option_copied result) ≡ slot_at (map read_slot slots.now) path.now }
{
    match place_near(slots, path, near) {
        Some(at) => Some(&slots[at]),
        None => None,
    }
}

// Where the slot of the path stands, or where it would.
fn search(slots: &[Slot], path: &Path) -> Result<usize, usize>
    requires { SlotsRise (map read_slot slots.now) }
    ensures found { IfOk result (λ i. (i < length slots.now)
        × HoldsAt (λ (s : TheSlot). Some (read_slot s) ≡ slot_at (map read_slot slots.now) path.now) slots.now i) }
    ensures absent { IfErr result (λ _. slot_at (map read_slot slots.now) path.now ≡ None) }
{
    slots.binary_search_by(
        |s: &Slot| -> Ordering
            ensures { result ≡ slice_cmp nat_cmp s.now.local.path path.entry.now }
        { s.local.path.compare(path) },
    )
}

// Whether the slot of the path stands there.
fn stands_at(slots: &[Slot], path: &Path, at: usize) -> bool
    requires { SlotsRise (map read_slot slots.now) }
    ensures { result ≡ true → StandsAt slots.now path.now at }
{
    if at >= slots.len() {
        return false;
    }
    slots[at].local.path.equals(path)
}

// Where the slot of the path stands: there, or else it is found by halves.
pub(crate) fn place_near(slots: &[Slot], path: &Path, near: usize) -> Option<usize>
    requires { SlotsRise (map read_slot slots.now) }
    ensures found { IfSome result (StandsAt slots.now path.now) }
    ensures absent { result ≡ None → slot_at (map read_slot slots.now) path.now ≡ None }
{
    if stands_at(slots, path, near) {
        return Some(near);
    }
    match search(slots, path) {
        Ok(at) => Some(at),
        Err(_) => None,
    }
}

// Where a child of the thread there stands if the other children have spawned none.
pub(crate) fn child_near(child: &Path, parent: usize) -> usize {
    let parts = child.parts();
    let number = parts[parts.len() - 1];
    parent.saturating_add(number as usize + 1)
}

// The outcome of the thread of the path, which is looked for there first; None where it has none yet.
fn outcome_of<'a>(slots: &'a [Slot], path: &Path, near: usize) -> Option<&'a Outcome>
    requires { SlotsRise (map read_slot slots.now) }
    ensures { option_map read_outcome (option_copied result) ≡ the_outcome (slot_at (map read_slot slots.now) path.now) }
{
    match find(slots, path, near) {
        Some(slot) => slot.local.outcome(),
        None => None,
    }
}

// Whether the thread of the path has ended.
pub(crate) fn has_ended(slots: &[Slot], path: &Path, near: usize) -> bool
    requires { SlotsRise (map read_slot slots.now) }
    ensures { result ≡ is_some (the_outcome (slot_at (map read_slot slots.now) path.now)) }
{
    match outcome_of(slots, path, near) {
        Some(_) => true,
        None => false,
    }
}

// The thread of the path, which has ended, and its outcome.
pub(crate) fn ended(
    alloc: Global,
    slots: &[Slot],
    path: &Path,
    near: usize,
) -> Result<(Path, Outcome), CoreStop>
    requires { SlotsRise (map read_slot slots.now) }
    ensures { IsEnded (map read_slot slots.now) path.now result }
{
    match outcome_of(slots, path, near) {
        Some(outcome) => Ok((path.copy(alloc)?, outcome.copy(alloc)?)),
        None => Err(CoreStop::Waits(path.copy(alloc)?)),
    }
}

// Where a slot of this path would stand.
fn place_of(slots: &[Slot], path: &Path) -> usize
    requires { SlotsRise (map read_slot slots.now) }
    ensures bound { result ≤ length slots.now }
    ensures place { (s : TheSlot) → s.local.path ≡ path.now → map read_slot (insert slots.now result s) ≡ slot_added (read_slot s) (map read_slot slots.now) }
{
    if is_last(slots, path) {
        return slots.len();
    }
    slots.partition_point(
        |s: &Slot| -> bool
            ensures { result ≡ not (is_lt (slice_cmp nat_cmp path.entry.now s.now.local.path)) }
        { !path.compare(&s.local.path).is_lt() },
    )
}

// Whether each slot stands before that of this path.
fn is_last(slots: &[Slot], path: &Path) -> bool
    requires { SlotsRise (map read_slot slots.now) }
    ensures { result ≡ true → (s : TheSlot) → s.local.path ≡ path.now →
        map read_slot (insert slots.now (length slots.now) s) ≡ slot_added (read_slot s) (map read_slot slots.now) }
{
    let count = slots.len();
    if count == 0 {
        return true;
    }
    slots[count - 1].local.path.compare(path).is_lt()
}

// Adds the thread that a step of the one there spawned, if it did, and answers where the last of the two stands.
pub(crate) fn add_child(
    threads: &mut Vec<Slot>,
    alloc: Global,
    child: Option<Box<Local>>,
    parent: usize,
) -> usize
    requires rise { SlotsRise (map read_slot threads.old.items) }
    requires room { vec_len threads.old < vec_capacity threads.old }
    ensures { map read_slot threads.new.items ≡ with_slot (option_map read_boxed child) (map read_slot threads.old.items) }
{
    match child {
        Some(child) => add(threads, alloc, Box::into_inner(child), parent),
        None => parent,
    }
}

// Adds a thread that has made no step, at its place, which is the answer.
fn add(threads: &mut Vec<Slot>, alloc: Global, child: Local, parent: usize) -> usize
    requires rise { SlotsRise (map read_slot threads.old.items) }
    requires room { vec_len threads.old < vec_capacity threads.old }
    ensures { map read_slot threads.new.items ≡ slot_added (record { local = read_local child; events = [] }) (map read_slot threads.old.items) }
{
    let place = place_of(threads, &child.path);
    threads
        .insert(
            place,
            Slot {
                local: child,
                events: Vec::new(alloc),
                parent,
            },
        )
        .unwrap();
    place
}

// A step of the thread there.
pub(crate) fn step_at(
    threads: &mut Vec<Slot>,
    at: usize,
    alloc: Global,
    job: &Job,
    outcome: Option<&Outcome>,
    join: Option<Path>,
) -> Result<Made, AllocError>
    requires slots { AreSlots (read_job job.now) (map read_slot threads.old.items) }
    requires there { at < length threads.old.items }
    requires told { (p : List ℕ) → StandsAt threads.old.items p at →
        SlotNeeds (read_job job.now) (map read_slot threads.old.items) p join (read_awaited outcome) }
    ensures goes { IfOk result (λ m. (p : List ℕ) → StandsAt threads.old.items p at →
        StepsAt (read_job job.now) (map read_slot threads.old.items) p (read_awaited outcome.entry) m
        (map read_slot threads.new.items)) }
    ensures kept { OnErr result (map read_slot threads.new.items ≡ map read_slot threads.old.items) }
    ensures len { vec_len threads.new ≡ vec_len threads.old }
    ensures room { vec_capacity threads.new ≡ vec_capacity threads.old }
{
    threads[at].step(alloc, job, outcome, join)
}

// Where the thread that goes on after this event of the one there stood when that was spawned.
pub(crate) fn near_after(slots: &[Slot], event: &Event, at: usize) -> usize {
    if at < slots.len() && matches!(event, Event::End) {
        return slots[at].parent;
    }
    at
}
