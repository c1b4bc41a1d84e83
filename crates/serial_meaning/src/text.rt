ghost use Rattle.std.specs.Prelude.{◌≡◌, ◌++◌, ◌<◌, length, map, codes, OnOk, IfOk};
ghost use Rattle.std.specs.String.{string_bytes};
ghost use Rattle.std.specs.Fmt.{decimal};
ghost use Rattle.std.specs.List.{All, flat_map};
ghost use Rattle.priml_syntax.specs.Read.{read_record};
ghost use Rattle.priml_syntax.specs.Records.{work};
ghost use Rattle.priml_syntax.specs.declared.record.Record.{Record as TheRecord};
ghost use Rattle.serial_meaning.specs.RunText.{thread_line, record_lines, run_lines};

use crate::outcome::push_outcome;
use crate::written::push_out;
use itoa::Buffer;
use priml_syntax::{Record, Records, push_path};
use priority_order::Order;
use std::alloc::{AllocError, Global};
use std::fmt::Write;

/// The text of a run: for each record, in the order of paths, the line of its thread and, where the thread wrote a
/// number, the line of the numbers that it wrote; and then the number of all steps.
pub fn run_text(alloc: Global, records: &Records, order: &Order) -> Result<Vec<u8>, AllocError>
    requires { All (λ (r : TheRecord). r.prio < length order.now.names) records.now }
    ensures { IfOk result (λ v. v.items ≡ run_lines order.now.names (map read_record records.now)) }
{
    let mut text = String::new(alloc);
    let list = records.list();
    push_records(&mut text, order, list)?;
    let work = work_of(list);
    writeln!(text, "work {work}")?;
    Ok(text.into_bytes())
}

// Appends the lines of the records.
fn push_records(text: &mut String, order: &Order, records: &[Record]) -> Result<(), AllocError>
    requires { All (λ (r : TheRecord). r.prio < length order.now.names) records.now }
    ensures { OnOk result (string_bytes text.new ≡ string_bytes text.old ++ flat_map (record_lines order.now.names) (map read_record records.now)) }
{
    for record in records {
        push_record(text, order, record)?;
    }
    Ok(())
}

// Appends the lines of a thread that has ended.
fn push_record(text: &mut String, order: &Order, thread: &Record) -> Result<(), AllocError>
    requires { thread.now.prio < length order.now.names }
    ensures { OnOk result (string_bytes text.new ≡ string_bytes text.old ++ record_lines order.now.names (read_record thread.now)) }
{
    push_thread(text, order, thread)?;
    push_out(text, thread.events.as_slice())
}

// Appends the line of the thread: its path, its priority's name, the number of its steps, and how it ended.
fn push_thread(text: &mut String, order: &Order, thread: &Record) -> Result<(), AllocError>
    requires { thread.now.prio < length order.now.names }
    ensures { OnOk result (string_bytes text.new ≡ string_bytes text.old ++ thread_line order.now.names (read_record thread.now)) }
{
    text.push_str("thread ")?;
    push_path(text, &thread.path)?;
    push_counted(
        text,
        order.name(thread.prio),
        thread.events.as_slice().len(),
    )?;
    push_outcome(text, &thread.outcome)?;
    text.push_str("\n")
}

// Appends what stands between a thread's path and its outcome.
fn push_counted(text: &mut String, name: &str, steps: usize) -> Result<(), AllocError>
    ensures { OnOk result (string_bytes text.new ≡ string_bytes text.old ++ (codes " " ++ name.now ++ codes " " ++ decimal steps ++ codes " ")) }
{
    let mut buffer = Buffer::new();
    text.push_str(" ")?;
    text.push_str(name)?;
    text.push_str(" ")?;
    text.push_str(buffer.format(steps))?;
    text.push_str(" ")
}

/// The number of all events. It is exact: fewer than 2^63 records have fewer than 2^64 events each.
pub fn work_of(records: &[Record]) -> u128
    ensures { result ≡ work (map read_record records.now) }
{
    let mut sum: u128 = 0;
    for record in records {
        let events = record.events.as_slice();
        sum += events.len() as u128;
    }
    sum
}
