//! `trace`: the run on workers, and which worker made which steps.
ghost use Rattle.std.specs.Prelude.{◌≡◌, ◌<◌, ◌++◌, List, map, length, IfOk};
ghost use Rattle.std.specs.List.{All, flat_map};
ghost use Rattle.priml_io.specs.declared.words.Command.{Command};
ghost use Rattle.priml_syntax.specs.Read.{read_record};
ghost use Rattle.priml_syntax.specs.declared.record.Record.{Record as TheRecord};
ghost use Rattle.serial_meaning.specs.RunText.{run_lines};
ghost use Rattle.trace_book.specs.Book.{IsInPathOrder};
ghost use Rattle.trace_book.specs.CutsText.{log_lines};
ghost use Rattle.trace_book.specs.Log.{Log};
ghost use Rattle.priml.specs.Commands.{Of};
ghost use Rattle.priml.specs.Inside.Reply.{IsTeam, Replies};

use crate::layers::done;
use crate::prefixes::recorded_on_workers;
use crate::refusal::Stop;
use priml_syntax::Records;
use priority_order::Order;
use serial_meaning::run_text;
use std::alloc::{AllocError, Global};
use std::mem::forget;
use std::sync::Wait;
use std::thread::Threads;
use steal_runtime::Gate;
use trace_book::Book;

/// Answers the text of a run of at most so many steps, by so many workers in turns of at most `quantum` steps, and the lines of its cuts.
pub fn trace<R: Threads + Wait + Sync, G: Gate>(
    rt: &R,
    alloc: Global,
    workers: u32,
    quantum: u32,
    most: u64,
    input: &[u8],
    gate: &G,
) -> Result<Vec<u8>, Stop>
    requires { IsTeam workers quantum most }
    ensures { Replies (Of (Command.Trace workers quantum most) input.now) result }
{
    let (_, job, records, book) = recorded_on_workers(
        rt, alloc, input, workers, quantum, most, gate,
    )?;
    let text = trace_text(alloc, job.order(), &records, &book);
    // as in `serial`
    forget(job);
    forget(records);
    forget(book);
    done(text)
}

// The text of the run, and the lines of the cuts of its book.
fn trace_text(
    alloc: Global,
    order: &Order,
    records: &Records,
    book: &Book,
) -> Result<Vec<u8>, AllocError>
    requires { All (λ (r : TheRecord). r.prio < length order.now.names) records.now }
    ensures { IfOk result (λ v. (ls : List Log) × IsInPathOrder book.now ls
        × (v.items ≡ run_lines order.now.names (map read_record records.now) ++ flat_map log_lines ls)) }
{
    let mut text = run_text(alloc, records, order)?;
    let cuts = book.cuts_text(alloc)?;
    text.extend_from_slice(&cuts)?;
    Ok(text)
}
