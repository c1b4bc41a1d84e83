//! The text of a run of one thread.
ghost use Rattle.std.specs.Prelude.{◌≡◌, ◌<◌, length, map, IfOk};
ghost use Rattle.std.specs.List.{All};
ghost use Rattle.priml_syntax.specs.Read.{read_record};
ghost use Rattle.priml_syntax.specs.Records.{InPathOrder};
ghost use Rattle.priml_syntax.specs.declared.record.Record.{Record as TheRecord};

use priml_syntax::{Event, Outcome, Path, Record, Records, Value};
use priority_order::Order;
use serial_meaning::run_text;
use std::alloc::{AllocError, Global};
use std::test::Fail;

#[test]
fn text_of_one_thread(rt: HostRuntime) -> Result<(), Fail> {
    let text = text_of(rt.alloc())?;
    let want =
        "thread 0 ui 4 value (inl(-9223372036854775808), inr((thread(0), (true, ()))))\nout 12 -3\nwork 4\n";
    assert_eq!(rt; text.as_slice(), want.as_bytes());
    Ok(())
}

fn text_of(alloc: Global) -> Result<Vec<u8>, Fail> {
    let names = names_of(alloc)?;
    let order = Order::build(alloc, &names, &[])?;
    let records = Records::of(list_of(alloc)?);
    Ok(run_text(alloc, &records, &order)?)
}

fn names_of(alloc: Global) -> Result<Vec<String>, AllocError>
    ensures { IfOk result (λ v. length v.items ≡ 1) }
{
    let mut names = Vec::new(alloc);
    names.push(String::from_str(alloc, "ui")?)?;
    Ok(names)
}

// The record of a root with priority 0.
fn list_of(alloc: Global) -> Result<Vec<Record>, AllocError>
    ensures order { IfOk result (λ v. InPathOrder (map read_record v.items)) }
    ensures small { IfOk result (λ v. All (λ (r : TheRecord). r.prio < 1) v.items) }
{
    let path = Path::root(alloc)?;
    let events = events_of(alloc)?;
    let outcome = Outcome::Value(value_of(alloc)?);
    let mut list = Vec::new(alloc);
    list.push(Record {
        path,
        prio: 0,
        events,
        outcome,
    })?;
    Ok(list)
}

fn events_of(alloc: Global) -> Result<Vec<Event>, AllocError> {
    let mut events = Vec::new(alloc);
    events.push(Event::Start)?;
    events.push(Event::Wrote(12))?;
    events.push(Event::Wrote(-3))?;
    events.push(Event::End)?;
    Ok(events)
}

// A value with each form but false.
fn value_of(alloc: Global) -> Result<Value, AllocError> {
    let left = Value::Inl(Box::new(alloc, Value::Int(i64::MIN))?);
    let right = Value::Inr(Box::new(alloc, named(alloc)?)?);
    pair_of(alloc, left, right)
}

fn named(alloc: Global) -> Result<Value, AllocError> {
    let thread = Value::Thread(Path::root(alloc)?, 0);
    let inner = pair_of(alloc, Value::Bool(true), Value::Unit)?;
    pair_of(alloc, thread, inner)
}

fn pair_of(alloc: Global, a: Value, b: Value) -> Result<Value, AllocError> {
    let a = Box::new(alloc, a)?;
    Ok(Value::Pair(a, Box::new(alloc, b)?))
}
