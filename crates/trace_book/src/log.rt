//! The log of one thread.
ghost use Rattle.std.specs.Prelude.{◌≡◌, [], None, OnOk, OnErr, IfErr};
ghost use Rattle.std.specs.Option.{option_copied};
ghost use Rattle.trace_book.specs.Logs.{IsNext, IsRefused, appended};
ghost use Rattle.trace_book.specs.Segments.{read_segment};

use crate::segment::{Cut, Segment};
use priml_syntax::{Event, Outcome, Path};
use std::alloc::Global;
use std::marker::Model;

/// What a thread has done so far, without gap, and the cuts between the segments that it came in.
#[derive(Drop)]
pub struct ThreadLog {
    path: Path,
    prio: u32,
    events: Vec<Event>,
    outcome: Option<Outcome>,
    cuts: Vec<Cut>,
}

impl Model for ThreadLog {
    ghost use Rattle.std.specs.Coded.{codes};
    ghost use Rattle.priml_syntax.specs.contracts.value.Value as value;
    ghost use Rattle.trace_book.specs.Log.{Log};

    ghost Value = { Log };

    ghost coded = { Prim.hlevel (codes, value.the_row.coded) };

    ghost view = { λ l. record { path = l.path; prio = l.prio; events = l.events.items; outcome = l.outcome; cuts = l.cuts.items } };
}

/// Why a segment was not appended.
#[derive(Debug, Drop)]
pub enum AppendStop {
    /// It does not begin at the length of the log, which is this.
    Gap(u64),
    /// The thread has ended.
    Ended,
    /// Want of memory.
    OutOfMemory,
}

impl ThreadLog {
    /// A log without events.
    pub fn new(alloc: Global, path: Path, prio: u32) -> ThreadLog
        ensures { result ≡ record { path = path; prio = prio; events = []; outcome = None; cuts = [] } }
    {
        ThreadLog {
            path,
            prio,
            events: Vec::new(alloc),
            outcome: None,
            cuts: Vec::new(alloc),
        }
    }

    /// The thread's path.
    pub fn path(&self) -> &Path
        ensures { result.now ≡ self.now.path }
    {
        &self.path
    }

    /// The number of the thread's priority.
    pub fn priority(&self) -> u32
        ensures { result ≡ self.now.prio }
    {
        self.prio
    }

    /// What the thread's steps did, the first step first.
    pub fn events(&self) -> &[Event]
        ensures { result.now ≡ self.now.events }
    {
        &self.events
    }

    /// How the thread ended; None exactly where no segment has ended it.
    pub fn outcome(&self) -> Option<&Outcome>
        ensures { option_copied result ≡ self.now.outcome }
    {
        self.outcome.as_ref()
    }

    /// Where each segment stands, in order.
    pub fn cuts(&self) -> &[Cut]
        ensures { result.now ≡ self.now.cuts }
    {
        &self.cuts
    }

    /// Appends a segment of this thread. A refused one comes back, and the log stays as it was. Decided first is whether the
    /// segment begins where the log ends, then whether the thread has ended, and only then memory may be wanting.
    pub fn append(&mut self, segment: Segment) -> Result<(), (Segment, AppendStop)>
        requires same { segment.path ≡ self.old.path }
        ensures only_next { OnOk result (IsNext self.old (read_segment segment)) }
        ensures ok { OnOk result (self.new ≡ appended self.old (read_segment segment)) }

        // Nothing changes where it is refused.
        ensures refused { IfErr result (λ e. IsRefused self.old (read_segment segment) e.1) }
        ensures handed_back { IfErr result (λ e. read_segment e.0 ≡ read_segment segment) }
        ensures kept { OnErr result (self.new ≡ self.old) }
    {
        let length = self.events.len() as u64;
        if segment.from != length {
            return Err((segment, AppendStop::Gap(length)));
        }
        if self.outcome.is_some() {
            return Err((segment, AppendStop::Ended));
        }
        match self.take_in(segment) {
            Ok(()) => Ok(()),
            Err(segment) => Err((segment, AppendStop::OutOfMemory)),
        }
    }

    // Appends the segment, or hands it back for want of memory.
    fn take_in(&mut self, mut segment: Segment) -> Result<(), Segment>
        ensures ok { OnOk result (self.new ≡ appended self.old (read_segment segment)) }
        ensures handed_back { IfErr result (λ s. read_segment s ≡ read_segment segment) }
        ensures kept { OnErr result (self.new ≡ self.old) }
    {
        let cut = Cut {
            from: segment.from,
            steps: segment.events.len() as u64,
            worker: segment.worker,
        };
        if self.cuts.reserve(1).is_err() {
            return Err(segment);
        }
        if self.events.append(&mut segment.events).is_err() {
            return Err(segment);
        }
        self.cuts.push(cut).unwrap();
        self.outcome = segment.outcome.take();
        Ok(())
    }
}
