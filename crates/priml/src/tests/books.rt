//! The logs of two threads, and their book.
ghost use Rattle.std.specs.Prelude.{◌≡◌, IfOk};

use priml_syntax::{Event, Outcome, Path, Value};
use std::alloc::{AllocError, Global};
use std::process::Abort;
use std::test::Fail;
use trace_book::{AppendStop, Book, Segment, ThreadLog};

/// Appends these steps, made by worker 0, to the log; an End ends the thread with the number 5. What the log answers, with the
/// length that it names.
fn append(alloc: Global, log: &mut ThreadLog, from: u64, steps: &[Event]) -> (&'static str, u64)
    ensures { log.new.path ≡ log.old.path }
{
    let Ok(segment) = segment_of(alloc, log.path(), from, steps) else {
        return ("no segment", 0);
    };
    match log.append(segment) {
        Ok(()) => ("appended", 0),
        Err((_, AppendStop::Gap(length))) => ("gap", length),
        Err((_, AppendStop::Ended)) => ("ended", 0),
        Err((_, AppendStop::OutOfMemory)) => ("out of memory", 0),
    }
}

fn segment_of(alloc: Global, path: &Path, from: u64, steps: &[Event]) -> Result<Segment, AllocError>
    ensures { IfOk result (λ s. s.path ≡ path.now) }
{
    let path = path.copy(alloc)?;
    let mut events = Vec::new(alloc);
    let mut outcome = None;
    for step in steps {
        events.push(step.copy(alloc)?)?;
        if matches!(step, Event::End) {
            outcome = Some(Outcome::Value(Value::Int(5)));
        }
    }
    Ok(Segment {
        path,
        prio: 0,
        from,
        events,
        outcome,
        worker: 0,
    })
}

/// The book of two logs, each in a shard of its own.
fn book_of(alloc: Global, one: ThreadLog, other: ThreadLog) -> Result<Book, AllocError>
    requires { (one.path ≡ other.path) → ⊥ }
{
    let mut ones = Vec::new(alloc);
    ones.push(one)?;
    let mut others = Vec::new(alloc);
    others.push(other)?;
    let mut shards = Vec::new(alloc);
    shards.push(ones)?;
    shards.push(others)?;
    Ok(Book::of_shards(shards))
}

#[test]
fn logs_and_their_book(rt: HostRuntime) -> Result<(), Fail> {
    let alloc = rt.alloc();
    let mut log = ThreadLog::new(alloc, Path::root(alloc)?, 0);
    expect_appends(&rt, alloc, &mut log)?;
    let mut child = ThreadLog::new(alloc, log.path().child(alloc, 0)?, 1);
    let start = append(alloc, &mut child, 0, &[Event::Start]);
    let end = append(alloc, &mut child, 1, &[Event::End]);
    assert!(rt; start == ("appended", 0) && end == ("appended", 0));
    expect_book(&rt, alloc, &book_of(alloc, child, log)?)
}

/// Appends a start, a spawn, a join and an end to an empty log, and among them steps that do not follow or come behind the end.
fn expect_appends(rt: &impl Abort, alloc: Global, log: &mut ThreadLog) -> Result<(), Fail>
    ensures { log.new.path ≡ log.old.path }
{
    let first = [Event::Start, Event::Spawn];
    let last = [Event::Join(log.path().child(alloc, 0)?), Event::End];
    assert_eq!(rt; append(alloc, log, 0, &first), ("appended", 0));
    assert_eq!(rt; append(alloc, log, 0, &first), ("gap", 2));
    assert_eq!(rt; append(alloc, log, 2, &last), ("appended", 0));
    assert_eq!(rt; append(alloc, log, 4, &last), ("ended", 0));
    assert_eq!(rt; append(alloc, log, 3, &last), ("gap", 4));
    Ok(())
}

fn expect_book(rt: &impl Abort, alloc: Global, book: &Book) -> Result<(), Fail> {
    assert_eq!(rt; book.work(), 6);
    match book.records(alloc)? {
        Some(records) => assert_eq!(rt; records.work(), 6),
        None => assert!(rt; false),
    }
    let text = book.cuts_text(alloc)?;
    let want =
        "cut 0 from 0 steps 2 worker 0\ncut 0 from 2 steps 2 worker 0\ncut 0.0 from 0 steps 1 worker 0\ncut 0.0 from 1 steps 1 worker 0\n";
    assert_eq!(rt; text.as_slice(), want.as_bytes());
    Ok(())
}
