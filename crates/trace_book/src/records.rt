//! The records of logs.
ghost use Rattle.std.specs.Prelude.{◌≡◌, map, IfOk};
ghost use Rattle.std.specs.Option.{option_map};
ghost use Rattle.priml_syntax.specs.Read.{read_record};
ghost use Rattle.trace_book.specs.Book.{entry_of, entries_of};
ghost use Rattle.trace_book.specs.Inside.Books.{IsPushed, seen};

use crate::log::ThreadLog;
use priml_syntax::{Record, copy_events};
use std::alloc::{AllocError, Global};

// Appends the records of these logs, and tells whether each thread has ended.
pub(crate) fn push_records(
    list: &mut Vec<Record>,
    alloc: Global,
    logs: &[&ThreadLog],
) -> Result<bool, AllocError>
    ensures all { IfOk result (λ full. IsPushed full (map read_record list.old.items) (map read_record list.new.items) (entries_of (seen logs.now))) }
{
    for log in logs {
        match record_of(alloc, log)? {
            Some(record) => list.push(record)?,
            None => return Ok(false),
        }
    }
    Ok(true)
}

// The record of a thread; None exactly where it has not ended.
fn record_of(alloc: Global, log: &ThreadLog) -> Result<Option<Record>, AllocError>
    ensures { IfOk result (λ r. option_map read_record r ≡ entry_of log.now) }
{
    match log.outcome() {
        Some(outcome) => {
            let path = log.path().copy(alloc)?;
            let events = copy_events(alloc, log.events())?;
            let outcome = outcome.copy(alloc)?;
            Ok(Some(Record {
                path,
                prio: log.priority(),
                events,
                outcome,
            }))
        }
        None => Ok(None),
    }
}
