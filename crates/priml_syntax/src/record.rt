ghost use Rattle.std.specs.Prelude.{◌≡◌, ◌≢◌, ◌-◌, ◌^◌, ◌<◌, min, length, map, IfOk, IfErr, MatchOption};
ghost use Rattle.std.specs.List.{Contains, HoldsAt};
ghost use Rattle.std.specs.Ordering.{nat_cmp};
ghost use Rattle.std.specs.Cmp.Lexicographic.{slice_cmp};
ghost use Rattle.priml_syntax.specs.Read.{read_record};
ghost use Rattle.priml_syntax.specs.Records.{InPathOrder, work};
ghost use Rattle.priml_syntax.specs.declared.record.Record.{Record as TheRecord};

use crate::event::{Event, copy_events};
use crate::path::Path;
use crate::value::Outcome;
use std::alloc::{AllocError, Global};
use std::cmp::Ordering;
use std::marker::Model;

/// A thread that has ended.
#[derive(Drop)]
pub struct Record {
    pub path: Path,
    /// Its priority, by the number of its declaration.
    pub prio: u32,
    /// What its steps did, the first step first.
    pub events: Vec<Event>,
    pub outcome: Outcome,
}

/// The records of a job: in the order of their paths, no path twice.
#[derive(Drop)]
pub struct Records {
    list: Vec<Record>,
}

impl Model for Records {
    ghost use Rattle.std.specs.Prelude.{List, map};
    ghost use Rattle.std.specs.Coded.{codes};
    ghost use Rattle.priml_syntax.specs.contracts.value.Value as value;
    ghost use Rattle.priml_syntax.specs.declared.record.Record.{Record};
    ghost use Rattle.priml_syntax.specs.Records.{InPathOrder};
    ghost use Rattle.priml_syntax.specs.Read.{read_record};

    ghost Value = { List Record };

    ghost coded = { Prim.hlevel (codes, value.the_row.coded) };

    ghost view = { λ r. r.list.items };

    ghost invariant = { λ r. InPathOrder (map read_record r.list.items) };
}

impl Record {
    /// An equal record.
    pub fn copy(&self, alloc: Global) -> Result<Record, AllocError>
        ensures { IfOk result (λ r. read_record r ≡ read_record self.now) }
    {
        let path = self.path.copy(alloc)?;
        let events = copy_events(alloc, &self.events)?;
        let outcome = self.outcome.copy(alloc)?;
        Ok(Record {
            path,
            prio: self.prio,
            events,
            outcome,
        })
    }
}

impl Records {
    /// The records of the list, which is in path order and has no path twice.
    pub fn of(list: Vec<Record>) -> Records
        requires { InPathOrder (map read_record list.items) }
        ensures { result ≡ list.items }
    {
        Records { list }
    }

    /// The records, in the order of their paths.
    pub fn list(&self) -> &[Record]
        ensures value { result.now ≡ self.now }
        ensures in_order { InPathOrder (map read_record result.now) }
    {
        &self.list
    }

    /// The number of all events; the last value of u64 where there are more.
    pub fn work(&self) -> u64
        ensures { result ≡ min (work (map read_record self.now)) (2 ^ 64 - 1) }
    {
        let mut sum: u64 = 0;
        for record in &self.list {
            let events = record.events.as_slice();
            sum = sum.saturating_add(events.len() as u64);
        }
        sum
    }

    /// The record of the path, found by halves; None exactly where no record has the path.
    pub fn get(&self, path: &Path) -> Option<&Record>
        ensures { MatchOption result ((r : TheRecord) → Contains self.now r → r.path ≢ path.now) (λ r. (r.now.path ≡ path.now) × Contains self.now r.now) }
    {
        match self.search(path) {
            Ok(at) => self.list.get(at),
            Err(_) => None,
        }
    }

    // Where the record of the path stands, or where it would.
    fn search(&self, path: &Path) -> Result<usize, usize>
        ensures found { IfOk result (λ i. (i < length self.now) × HoldsAt (λ (r : TheRecord). r.path ≡ path.now) self.now i) }
        ensures absent { IfErr result (λ _. (r : TheRecord) → Contains self.now r → r.path ≢ path.now) }
    {
        self.list.binary_search_by(
            |r: &Record| -> Ordering
                ensures { result ≡ slice_cmp nat_cmp r.now.path path.entry.now }
            { r.path.compare(path) },
        )
    }

    /// Equal records.
    pub fn copy(&self, alloc: Global) -> Result<Records, AllocError>
        ensures { IfOk result (λ r. map read_record r ≡ map read_record self.now) }
    {
        let mut list = Vec::new(alloc);
        for record in &self.list {
            list.push(record.copy(alloc)?)?;
        }
        Ok(Records { list })
    }
}
