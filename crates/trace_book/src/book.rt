//! The logs of all threads.
ghost use Rattle.std.specs.Prelude.{◌≡◌, ◌++◌, ◌+◌, ◌-◌, ◌^◌, List, min, map, IfOk, OnOk};
ghost use Rattle.std.specs.List.{flat_map};
ghost use Rattle.std.specs.Option.{option_map};
ghost use Rattle.std.specs.Ordering.{nat_cmp};
ghost use Rattle.std.specs.Cmp.Lexicographic.{slice_cmp};
ghost use Rattle.priml_syntax.specs.Read.{read_record};
ghost use Rattle.trace_book.specs.Log.{Log};
ghost use Rattle.trace_book.specs.Book.{NoPathTwice, IsInPathOrder, all_logs, entries_of, work};
ghost use Rattle.trace_book.specs.CutsText.{log_lines};
ghost use Rattle.trace_book.specs.Inside.Books.{seen};

use crate::log::ThreadLog;
use crate::records::push_records;
use crate::text::push_cuts;
use priml_syntax::Records;
use std::alloc::{AllocError, Global};
use std::cmp::Ordering;
use std::marker::Model;

/// The logs of all threads of a run, in any order, no path twice.
#[derive(Drop)]
pub struct Book {
    shards: Vec<Vec<ThreadLog>>,
}

impl Model for Book {
    ghost use Rattle.std.specs.Prelude.{List};
    ghost use Rattle.std.specs.Coded.{codes};
    ghost use Rattle.priml_syntax.specs.contracts.value.Value as value;
    ghost use Rattle.trace_book.specs.Log.{Log};
    ghost use Rattle.trace_book.specs.Book.{NoPathTwice, all_logs};

    ghost Value = { List Log };

    ghost coded = { Prim.hlevel (codes, value.the_row.coded) };

    ghost view = { λ b. all_logs b.shards.items };

    ghost invariant = { λ b. NoPathTwice (all_logs b.shards.items) };
}

impl Book {
    /// The logs of all shards, no path twice.
    pub fn of_shards(shards: Vec<Vec<ThreadLog>>) -> Book
        requires { NoPathTwice (all_logs shards.items) }
        ensures { result ≡ all_logs shards.items }
    {
        Book { shards }
    }

    /// The number of all events; the last value of u64 where there are more.
    pub fn work(&self) -> u64
        ensures { result ≡ min (work self.now) (2 ^ 64 - 1) }
    {
        let mut sum: u64 = 0;
        for shard in &self.shards {
            sum = with_work(sum, shard);
        }
        sum
    }

    /// The records of the threads; None exactly where one has not ended.
    pub fn records(&self, alloc: Global) -> Result<Option<Records>, AllocError>
        ensures { IfOk result (λ r. (ls : List Log) × IsInPathOrder self.now ls × (option_map (map read_record) r ≡ entries_of ls)) }
    {
        let logs = self.in_path_order(alloc)?;
        let mut list = Vec::new(alloc);
        if push_records(&mut list, alloc, &logs)? {
            return Ok(Some(Records::of(list)));
        }
        Ok(None)
    }

    /// A line for each cut of each thread: the threads in the order of their paths, the cuts of each in the order of its steps.
    pub fn cuts_text(&self, alloc: Global) -> Result<Vec<u8>, AllocError>
        ensures { IfOk result (λ v. (ls : List Log) × IsInPathOrder self.now ls × (v.items ≡ flat_map log_lines ls)) }
    {
        let logs = self.in_path_order(alloc)?;
        let mut text = String::new(alloc);
        for log in &logs {
            push_cuts(&mut text, log.path(), log.cuts())?;
        }
        Ok(text.into_bytes())
    }

    // The logs in the order of their paths.
    fn in_path_order(&self, alloc: Global) -> Result<Vec<&ThreadLog>, AllocError>
        ensures { IfOk result (λ v. IsInPathOrder self.now (seen v.items)) }
    {
        let mut logs = all(alloc, &self.shards)?;
        logs.sort_unstable_by(
            |a: &&ThreadLog, b: &&ThreadLog| -> Ordering
                ensures { result ≡ slice_cmp nat_cmp a.now.now.path b.now.now.path }
            { a.path().compare(b.path()) },
        );
        Ok(logs)
    }
}

// The logs of all shards, as they stand.
fn all(alloc: Global, shards: &[Vec<ThreadLog>]) -> Result<Vec<&ThreadLog>, AllocError>
    ensures { IfOk result (λ v. seen v.items ≡ all_logs shards.now) }
{
    let mut logs = Vec::new(alloc);
    for shard in shards {
        push_logs(&mut logs, shard)?;
    }
    Ok(logs)
}

// Appends the logs of a shard.
fn push_logs<'a>(logs: &mut Vec<&'a ThreadLog>, shard: &'a [ThreadLog]) -> Result<(), AllocError>
    ensures { OnOk result (seen logs.new.items ≡ seen logs.old.items ++ shard.now) }
{
    for log in shard {
        logs.push(log)?;
    }
    Ok(())
}

// The sum with the events of these logs; the last value of u64 where it is more.
fn with_work(sum: u64, logs: &[ThreadLog]) -> u64
    ensures { result ≡ min (sum + work logs.now) (2 ^ 64 - 1) }
{
    let mut sum = sum;
    for log in logs {
        sum = sum.saturating_add(log.events().len() as u64);
    }
    sum
}
