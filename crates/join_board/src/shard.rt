//! A shard: the logs of some threads, and the tasks that wait for their ends.
ghost use Rattle.std.specs.Prelude.{◌≡◌, ◌+◌, ◌*◌, ◌<◌, ◌++◌, ◌∷◌, [], List, length, map, None, IfOk, IfErr, OnOk, OnErr, MatchOption, is_some};
ghost use mathlib.Core.Option.{some};
ghost use lib.ListN.{get_elem?};
ghost use Rattle.std.specs.Option.{option_copied, option_map};
ghost use Rattle.priml_syntax.specs.Read.{read_outcome};
ghost use Rattle.trace_book.specs.Logs.{IsNext, appended as log_appended};
ghost use Rattle.trace_book.specs.Segments.{read_segment};
ghost use Rattle.join_board.specs.Entries.{Entry};
ghost use Rattle.join_board.specs.Logs.{Missing, IsAt, fresh, shard_of};
ghost use Rattle.join_board.specs.Inside.Finds.{Appended, Parked};

use priml_syntax::{Outcome, Path};
use std::alloc::{AllocError, AllocFailed, Global};
use std::cmp::Ordering;
use std::marker::Model;
use std::mem::replace;
use task_state::Task;
use trace_book::{AppendStop, Segment, ThreadLog};

/// Logs, each with the tasks that wait for its thread at the same place of the other list.
#[derive(Drop)]
pub struct Shard {
    pub(crate) logs: Vec<ThreadLog>,
    waiting: Vec<Vec<Task>>,
    // It keeps two neighbours out of one cache line.
    padding: [u64; 8],
}

impl Model for Shard {
    ghost use Rattle.std.specs.Prelude.{List, ◌≡◌, length};
    ghost use Rattle.std.specs.Coded.{codes};
    ghost use Rattle.priml_syntax.specs.contracts.value.Value as value;
    ghost use Rattle.join_board.specs.Entries.{Entry, paired};

    ghost Value = { List Entry };

    ghost coded = { Prim.hlevel (codes, value.the_row.coded) };

    ghost view = { λ s. paired s.logs.items s.waiting.items };

    ghost invariant = { λ s. length s.logs.items ≡ length s.waiting.items };
}

/// The shard of the thread of this path: the sum of its numbers, modulo 64.
pub(crate) fn shard_of(path: &Path) -> usize
    ensures value { result ≡ shard_of path.now }
    ensures small { result < 64 }
{
    let mut sum: u64 = 0;
    for part in path.parts() {
        sum += *part as u64;
    }
    (sum % 64) as usize
}

impl Shard {
    /// A shard without entry.
    pub(crate) fn new(alloc: Global) -> Shard
        ensures { result ≡ [] }
    {
        Shard {
            logs: Vec::new(alloc),
            waiting: Vec::new(alloc),
            padding: [0; 8],
        }
    }

    /// The logs alone. The tasks are dropped.
    pub(crate) fn into_logs(self) -> Vec<ThreadLog>
        ensures { result.items ≡ map (λ (e : Entry). e.log) self }
    {
        let Shard {
            logs,
            waiting,
            padding: _,
        } = self;
        drop(waiting);
        logs
    }

    /// Where the thread's entry stands.
    pub(crate) fn find(&self, path: &Path) -> Option<usize>
        ensures { MatchOption result (Missing self.now path.now) (λ i. IsAt self.now path.now i) }
    {
        for i in 0..self.logs.len() {
            if self.logs[i].path().compare(path) == Ordering::Equal {
                return Some(i);
            }
        }
        None
    }

    /// The number of steps in the log.
    pub(crate) fn len_at(&self, i: usize) -> usize
        requires { i < length self.now }
        ensures { (e : Entry) → get_elem? self.now i ≡ some e → result ≡ length e.log.events }
    {
        self.logs[i].events().len()
    }

    /// How the thread ended, where it has.
    pub(crate) fn outcome_at(&self, i: usize) -> Option<&Outcome>
        requires { i < length self.now }
        ensures { (e : Entry) → get_elem? self.now i ≡ some e → option_copied result ≡ e.log.outcome }
    {
        self.logs[i].outcome()
    }

    /// Whether the thread has ended.
    pub(crate) fn has_ended(&self, i: usize) -> bool
        requires { i < length self.now }
        ensures { (e : Entry) → get_elem? self.now i ≡ some e → result ≡ is_some e.log.outcome }
    {
        self.outcome_at(i).is_some()
    }

    /// An equal outcome, where the thread has ended.
    pub(crate) fn copy_at(&self, alloc: Global, i: usize) -> Result<Option<Outcome>, AllocError>
        requires { i < length self.now }
        ensures { IfOk result (λ o. (e : Entry) → get_elem? self.now i ≡ some e → option_map read_outcome o ≡ option_map read_outcome e.log.outcome) }
    {
        match self.outcome_at(i) {
            Some(outcome) => Ok(Some(outcome.copy(alloc)?)),
            None => Ok(None),
        }
    }

    /// Appends the segment to the log of a thread that has not ended, and hands out the tasks that wait, where it ends it.
    pub(crate) fn append(
        &mut self,
        alloc: Global,
        i: usize,
        segment: Segment,
    ) -> Result<Vec<Task>, Segment>
        requires inside { i < length self.old }
        requires thread { (e : Entry) → get_elem? self.old i ≡ some e →
            (e.log.path ≡ segment.path) × (length e.log.events ≡ segment.from) × (e.log.outcome ≡ None) }
        ensures ok { IfOk result (λ ts. Appended self.old i (read_segment segment) self.new ts.items) }
        ensures handed_back { IfErr result (λ s. read_segment s ≡ read_segment segment) }
        ensures kept { OnErr result (self.new ≡ self.old) }
    {
        let end = segment.outcome.is_some();
        match append_next(&mut self.logs[i], segment) {
            Ok(()) => {
                let none = Vec::new(alloc);
                if end {
                    Ok(replace(&mut self.waiting[i], none))
                } else {
                    Ok(none)
                }
            }
            Err(segment) => Err(segment),
        }
    }

    /// A new entry, without steps.
    pub(crate) fn enroll(&mut self, alloc: Global, path: Path, prio: u32) -> Result<(), AllocError>
        ensures ok { IfOk result (λ _. self.new ≡ self.old ++ fresh path prio ∷ []) }
        ensures err { OnErr result (self.new ≡ self.old) }
    {
        self.waiting.reserve(1)?;
        self.logs.push(ThreadLog::new(alloc, path, prio))?;
        self.waiting.push_reserved(Vec::new(alloc));
        Ok(())
    }

    /// A new entry of a thread with an equal path.
    pub(crate) fn enroll_copy(
        &mut self,
        alloc: Global,
        path: &Path,
        prio: u32,
    ) -> Result<(), AllocError>
        ensures ok { IfOk result (λ _. self.new ≡ self.old ++ fresh path.now prio ∷ []) }
        ensures err { OnErr result (self.new ≡ self.old) }
    {
        let path = path.copy(alloc)?;
        self.enroll(alloc, path, prio)
    }

    /// The task waits for the thread.
    pub(crate) fn park(&mut self, i: usize, task: Task) -> Result<(), Task>
        requires { i < length self.old }
        ensures ok { IfOk result (λ _. Parked self.old i task self.new) }
        ensures err { IfErr result (λ t. (t ≡ task) × (self.new ≡ self.old)) }
    {
        put_last(&mut self.waiting[i], task)
    }
}

// Appends the segment to a log where it is next.
fn append_next(log: &mut ThreadLog, segment: Segment) -> Result<(), Segment>
    requires { (segment.path ≡ log.old.path) × IsNext log.old (read_segment segment) }
    ensures ok { OnOk result (log.new ≡ log_appended log.old (read_segment segment)) }
    ensures handed_back { IfErr result (λ s. read_segment s ≡ read_segment segment) }
    ensures kept { OnErr result (log.new ≡ log.old) }
{
    let Err((segment, why)) = log.append(segment) else {
        return Ok(());
    };
    match why {
        AppendStop::OutOfMemory => Err(segment),
        AppendStop::Gap(_) | AppendStop::Ended => unreachable!(),
    }
}

// The task goes behind those that wait.
fn put_last(waiting: &mut Vec<Task>, task: Task) -> Result<(), Task>
    ensures ok { IfOk result (λ _. waiting.new.items ≡ waiting.old.items ++ task ∷ []) }
    ensures err { IfErr result (λ t. (t ≡ task) × (waiting.new.items ≡ waiting.old.items)) }
{
    match waiting.push(task) {
        Ok(()) => Ok(()),
        Err(AllocFailed { value }) => Err(value),
    }
}
