//! Whether records are those of a finished job.
ghost use Rattle.std.specs.Prelude.{◌≡◌, ◌≢◌, ℕ, ◌<◌, ◌^◌, ◌↔◌, ◌++◌, [], ◌∷◌, length, map, IsTrue, IfOk, IfSome, IfNone};
ghost use Rattle.priml_syntax.specs.Events.{one_spawn, spawns};
ghost use Rattle.priml_syntax.specs.Read.{read_record};
ghost use Rattle.priml_syntax.specs.Records.{InPathOrder};
ghost use Rattle.cost_graph.specs.Records.{part_of, parts_in, event_total, IsThere, HasRoots, AreFinished};
ghost use Rattle.cost_graph.specs.Inside.Tables.{HasSpawn};
ghost use Rattle.cost_graph.specs.Inside.Finished.{IsPartFinished, HasSpawner, HasChildren, AreEventsFit, Fits};

use crate::records::search;
use priml_syntax::{Event, Record, Records};
use std::alloc::{AllocError, Global};

/// Whether the records are those of a job that has finished, so that they have a graph: what `Graph::of_records` asks.
pub fn are_finished(alloc: Global, records: &Records) -> Result<bool, AllocError>
    ensures { IfOk result (λ b. IsTrue b ↔ AreFinished (parts_in records.now)) }
{
    let list = records.list();
    if !are_few(list) {
        return Ok(false);
    }
    if !are_roots(list) {
        return Ok(false);
    }
    for one in list {
        if !is_part_finished(alloc, list, one)? {
            return Ok(false);
        }
    }
    Ok(true)
}

// Whether there are fewer than 2^32 events.
fn are_few(list: &[Record]) -> bool
    ensures { IsTrue result ↔ (event_total (parts_in list.now) < 2 ^ 32) }
{
    let mut left = u32::MAX as usize;
    for one in list {
        let events = one.events.as_slice();
        if events.len() > left {
            return false;
        }
        left -= events.len();
    }
    true
}

// Whether the paths of one part are 0 to some last one, and there is one at least.
fn are_roots(list: &[Record]) -> bool
    requires { InPathOrder (map read_record list.now) }
    ensures { IsTrue result ↔ ((count : ℕ) × (0 < count) × HasRoots (parts_in list.now) count) }
{
    let mut count = 0;
    for one in list {
        if let Some(k) = root_number(one.path.parts()) {
            if k as usize != count {
                return false;
            }
            count += 1;
        }
    }
    count > 0
}

// The number of the root of this path, if it has one part.
fn root_number(path: &[u32]) -> Option<u32>
    ensures some { IfSome result (λ k. path.now ≡ k ∷ []) }
    ensures none { IfNone result (length path.now ≢ 1) }
{
    match path {
        [k] => Some(*k),
        _ => None,
    }
}

// Whether the record of the path is there.
fn is_there(list: &[Record], path: &[u32]) -> bool
    requires { InPathOrder (map read_record list.now) }
    ensures { IsTrue result ↔ IsThere (parts_in list.now) path.now }
{
    match search(list, path) {
        Ok(_) => true,
        Err(_) => false,
    }
}

// Whether the record's events and the records of its kin are those of a finished job.
fn is_part_finished(alloc: Global, list: &[Record], at: &Record) -> Result<bool, AllocError>
    requires order { InPathOrder (map read_record list.now) }
    requires few { event_total (parts_in list.now) < 2 ^ 32 }
    requires small { length at.now.events.items < 2 ^ 32 }
    ensures { IfOk result (λ b. IsTrue b ↔ IsPartFinished (parts_in list.now) (part_of (read_record at.now))) }
{
    if !are_events_fit(list, at.events.as_slice()) {
        return Ok(false);
    }
    if !has_spawner(list, at.path.parts()) {
        return Ok(false);
    }
    has_children(alloc, list, at.path.parts(), count_spawns(&at.events))
}

// How many of the events are Spawns.
fn count_spawns(events: &Vec<Event>) -> u32
    requires { length events.now.items < 2 ^ 32 }
    ensures { result ≡ spawns events.now.items }
{
    let mut count = 0;
    for event in events {
        count += spawns_of(event);
    }
    count
}

fn spawns_of(event: &Event) -> u32
    ensures { result ≡ one_spawn event.now }
{
    match event {
        Event::Spawn => 1,
        Event::Start => 0,
        Event::Plain => 0,
        Event::Join(_) => 0,
        Event::Read => 0,
        Event::Wrote(_) => 0,
        Event::End => 0,
    }
}

// Whether the thread of the path is a root, or a thread of the list spawned it.
fn has_spawner(list: &[Record], path: &[u32]) -> bool
    requires order { InPathOrder (map read_record list.now) }
    requires few { event_total (parts_in list.now) < 2 ^ 32 }
    requires some { 0 < length path.now }
    ensures { IsTrue result ↔ HasSpawner (parts_in list.now) path.now }
{
    let depth = path.len() - 1;
    if depth == 0 {
        return true;
    }
    has_spawn(list, &path[..depth], path[depth])
}

// Whether the list has a thread of the path with a k-th Spawn.
fn has_spawn(list: &[Record], path: &[u32], k: u32) -> bool
    requires order { InPathOrder (map read_record list.now) }
    requires few { event_total (parts_in list.now) < 2 ^ 32 }
    ensures { IsTrue result ↔ HasSpawn (parts_in list.now) path.now k }
{
    match search(list, path) {
        Ok(t) => k < count_spawns(&list[t].events),
        Err(_) => false,
    }
}

// Whether each of the first `count` children of the path is in the list.
fn has_children(
    alloc: Global,
    list: &[Record],
    path: &[u32],
    count: u32,
) -> Result<bool, AllocError>
    requires { InPathOrder (map read_record list.now) }
    ensures { IfOk result (λ b. IsTrue b ↔ HasChildren (parts_in list.now) path.now count) }
{
    for k in 0..count {
        let child = child_of(alloc, path, k)?;
        if !is_there(list, &child) {
            return Ok(false);
        }
    }
    Ok(true)
}

// The path with one part more.
fn child_of(alloc: Global, path: &[u32], k: u32) -> Result<Vec<u32>, AllocError>
    ensures { IfOk result (λ v. v.items ≡ path.now ++ k ∷ []) }
{
    let mut parts = Vec::from_slice(alloc, path)?;
    parts.push(k)?;
    Ok(parts)
}

// Whether Start is just the first event and End just the last, and each Join names a record of the list.
fn are_events_fit(list: &[Record], events: &[Event]) -> bool
    requires { InPathOrder (map read_record list.now) }
    ensures { IsTrue result ↔ AreEventsFit (parts_in list.now) events.now }
{
    for n in 0..events.len() {
        if !fits(list, &events[n], n == 0, n + 1 == events.len()) {
            return false;
        }
    }
    !events.is_empty()
}

// Whether the event may be the first or the last, as it is.
fn fits(list: &[Record], event: &Event, first: bool, last: bool) -> bool
    requires { InPathOrder (map read_record list.now) }
    ensures { IsTrue result ↔ Fits (parts_in list.now) event.now first last }
{
    match event {
        Event::Start => first && !last,
        Event::End => last && !first,
        Event::Join(path) => !first && !last && is_there(list, path.parts()),
        Event::Plain => !first && !last,
        Event::Spawn => !first && !last,
        Event::Read => !first && !last,
        Event::Wrote(_) => !first && !last,
    }
}
