//! The line of a sample.
ghost use Rattle.std.specs.Prelude.{◌≡◌, ◌≤◌, ◌++◌, codes, map, IfOk, OnOk};
ghost use Rattle.std.specs.Fmt.{decimal};
ghost use Rattle.std.specs.String.{string_bytes};
ghost use Rattle.priml_syntax.specs.Read.{read_record};
ghost use Rattle.prompt_checker.specs.Read.{steps_of};
ghost use Rattle.source_maker.specs.Runs.{one_output, outputs, written};
ghost use Rattle.priml.specs.Texts.{counts_text, root_text, summary_text};

use priml_syntax::{Event, Outcome, Record, Records};
use prompt_checker::Schedule;
use serial_meaning::{push_value, work_of};
use std::alloc::{AllocError, Global};
use std::fmt::Write;

/// The line of the sample of this size: how many threads, steps and outputs its run has, how many steps its plan, and what its root gives.
pub fn summary(
    alloc: Global,
    size: u32,
    records: &Records,
    schedule: &Schedule,
) -> Result<Vec<u8>, AllocError>
    ensures { IfOk result (λ v. v.items ≡ summary_text size (map read_record records.now) (steps_of schedule.now)) }
{
    let mut text = String::new(alloc);
    let list = records.list();
    let steps = schedule.steps.as_slice();
    push_counts(
        &mut text,
        size,
        list.len(),
        work_of(list),
        outputs_of(list),
        steps.len(),
    )?;
    push_root(&mut text, list)?;
    text.push_str("\n")?;
    Ok(text.into_bytes())
}

// Appends the numbers of the line.
fn push_counts(
    text: &mut String,
    size: u32,
    threads: usize,
    work: u128,
    outputs: u128,
    steps: usize,
) -> Result<(), AllocError>
    ensures { OnOk result (string_bytes text.new ≡ string_bytes text.old ++ counts_text size threads work outputs steps) }
{
    push_threads(text, size, threads)?;
    write!(text, "{work}")?;
    push_outputs(text, outputs)?;
    write!(text, "{steps} value ")
}

fn push_threads(text: &mut String, size: u32, threads: usize) -> Result<(), AllocError>
    ensures { OnOk result (string_bytes text.new ≡ string_bytes text.old
        ++ (codes "sample " ++ decimal size ++ codes " threads " ++ decimal threads ++ codes " work ")) }
{
    write!(text, "sample {size} threads {threads} work ")
}

fn push_outputs(text: &mut String, outputs: u128) -> Result<(), AllocError>
    ensures { OnOk result (string_bytes text.new ≡ string_bytes text.old ++ (codes " outputs " ++ decimal outputs ++ codes " steps ")) }
{
    write!(text, " outputs {outputs} steps ")
}

// Appends the value of the first record, which is the root's.
fn push_root(text: &mut String, records: &[Record]) -> Result<(), AllocError>
    ensures { OnOk result (string_bytes text.new ≡ string_bytes text.old ++ root_text (map read_record records.now)) }
{
    let Some(root) = records.first() else {
        return Ok(());
    };
    match &root.outcome {
        Outcome::Value(value) => push_value(text, value),
        Outcome::Fault(_) => Ok(()),
    }
}

// How many numbers the threads wrote. It is exact: fewer than 2^63 records have fewer than 2^64 events each.
fn outputs_of(records: &[Record]) -> u128
    ensures { result ≡ outputs (map read_record records.now) }
{
    let mut sum: u128 = 0;
    for record in records {
        sum += written_by(record.events.as_slice()) as u128;
    }
    sum
}

// How many numbers these events wrote.
fn written_by(events: &[Event]) -> u64
    ensures { result ≡ written events.now }
{
    let mut sum: u64 = 0;
    for event in events {
        sum += written_once(event);
    }
    sum
}

// How many numbers the event wrote: one or none.
fn written_once(event: &Event) -> u64
    ensures value { result ≡ one_output event.now }
    ensures few { result ≤ 1 }
{
    match event {
        Event::Wrote(_) => 1,
        _ => 0,
    }
}
