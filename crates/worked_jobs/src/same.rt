//! Steps, outcomes and records compared.
use priml_syntax::{Event, FaultKind, Outcome, Path, Record, Records, Value};
use std::cmp::Ordering;

/// The thread that the event joined.
fn joined(event: &Event) -> Option<&Path> {
    match event {
        Event::Join(path) => Some(path),
        _ => None,
    }
}

/// The number that the event wrote.
fn written(event: &Event) -> Option<i64> {
    match event {
        Event::Wrote(n) => Some(*n),
        _ => None,
    }
}

/// What the event did, in a word.
pub fn name_of(event: &Event) -> &'static str {
    match event {
        Event::Start => "start",
        Event::Plain => "plain",
        Event::Spawn => "spawn",
        Event::Join(_) => "join",
        Event::Read => "read",
        Event::Wrote(_) => "wrote",
        Event::End => "end",
    }
}

fn are_equal(a: &Event, b: &Event) -> bool {
    let same_thread = match (joined(a), joined(b)) {
        (Some(p), Some(q)) => p.compare(q) == Ordering::Equal,
        (p, q) => p.is_none() && q.is_none(),
    };
    same_thread && written(a) == written(b) && name_of(a) == name_of(b)
}

/// The number with which a thread ended.
fn number(outcome: &Outcome) -> Option<i64> {
    match outcome {
        Outcome::Value(Value::Int(n)) => Some(*n),
        _ => None,
    }
}

/// The fault with which a thread ended.
fn fault(outcome: &Outcome) -> Option<FaultKind> {
    match outcome {
        Outcome::Fault(kind) => Some(*kind),
        Outcome::Value(_) => None,
    }
}

/// Whether the steps are the same, one by one.
pub fn are_same_events(a: &[Event], b: &[Event]) -> bool {
    a.len() == b.len() && a.iter().zip(b).all(|(x, y)| are_equal(x, y))
}

/// Whether the outcomes are the same number or fault, or neither is one.
pub fn are_same_outcomes(a: &Outcome, b: &Outcome) -> bool {
    number(a) == number(b) && fault(a) == fault(b)
}

fn is_same(a: &Record, b: &Record) -> bool {
    a.path.compare(&b.path) == Ordering::Equal
        && a.prio == b.prio
        && are_same_events(a.events.as_slice(), b.events.as_slice())
        && are_same_outcomes(&a.outcome, &b.outcome)
}

/// Whether the records are of the same threads, with the same steps, numbers and faults.
pub fn are_same(a: &Records, b: &Records) -> bool {
    let (a, b) = (a.list(), b.list());
    a.len() == b.len() && a.iter().zip(b).all(|(x, y)| is_same(x, y))
}
