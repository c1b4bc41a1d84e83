ghost use Rattle.std.specs.Prelude.{◌≡◌, ◌<◌, ◌++◌, ◌↔◌, [], length, min, take, drop, Some, IfOk, IsErr, MatchResult, Contains};
ghost use Rattle.std.specs.Io.{ReadsAtMost, WritesAtMost};
ghost use Rattle.std.specs.Io.KnownBytes.{ReadConsumes};
ghost use Rattle.priml_io.specs.Ends.{HasCause, PutGrows};
ghost use Rattle.priml_io.specs.Memory.{went_well, went_wrong, source_after, source_failed, told, sink_after, sink_failed};

use crate::ends::{Failed, Sink, Source};
use std::alloc::{AllocError, Global};
use std::marker::Model;

/// Which calls fail, and how many calls and faults there were.
#[derive(Drop)]
struct Calls {
    failing: Vec<u64>,
    calls: u64,
    faults: u64,
}

impl Model for Calls {
    ghost use Rattle.priml_io.specs.Memory.{Script};

    ghost Value = { Script };

    ghost view = { λ s. record { failing = s.failing.items; calls = s.calls; faults = s.faults } };
}

impl Calls {
    fn new(alloc: Global, failing: &[u64]) -> Result<Calls, AllocError>
        ensures { IfOk result (λ s. s ≡ record { failing = failing.now; calls = 0; faults = 0 }) }
    {
        let failing = Vec::from_slice(alloc, failing)?;
        Ok(Calls {
            failing,
            calls: 0,
            faults: 0,
        })
    }

    /// Counts one more call, and its fault where its number is one that fails.
    fn next(&mut self) -> Result<(), Failed>
        ensures cause { HasCause self.old.faults self.new.faults result }
        ensures fails { IsErr result ↔ Contains self.old.failing self.old.calls }
        ensures state { MatchResult result (λ _. self.new ≡ went_well self.old) (λ _. self.new ≡ went_wrong self.old) }
    {
        let call = self.calls;
        self.calls = call.saturating_add(1);
        if self.failing.contains(&call) {
            self.faults = self.faults.saturating_add(1);
            return Err(Failed);
        }
        Ok(())
    }
}

/// A source over bytes in memory, of which chosen calls fail. It tells its bytes.
#[derive(Drop)]
pub struct MemSource {
    bytes: Vec<u8>,
    at: usize,
    width: usize,
    calls: Calls,
}

impl Model for MemSource {
    ghost use Rattle.std.specs.Prelude.{◌≤◌, ◌<◌, length, drop};
    ghost use Rattle.priml_io.specs.Memory.{MemorySource};

    ghost Value = { MemorySource };

    ghost view = { λ s. record { bytes = drop s.at s.bytes.items; width = s.width; script = s.calls } };

    ghost invariant = { λ s. (s.at ≤ length s.bytes.items) × (0 < s.width) };
}

impl MemSource {
    /// A source of a copy of these bytes, which moves at most `width` bytes, at least 1, in a call. The calls whose
    /// numbers, from 0, are in `failing` fail.
    pub fn new(
        alloc: Global,
        bytes: &[u8],
        width: usize,
        failing: &[u64],
    ) -> Result<MemSource, AllocError>
        requires { 0 < width }
        ensures { IfOk result (λ s. s ≡ record { bytes = bytes.now; width = width; script = record { failing = failing.now; calls = 0; faults = 0 } }) }
    {
        let bytes = Vec::from_slice(alloc, bytes)?;
        let calls = Calls::new(alloc, failing)?;
        Ok(MemSource {
            bytes,
            at: 0,
            width,
            calls,
        })
    }
}

impl Source for MemSource {
    ghost left = { λ s. Some s.bytes };

    ghost faults = { λ s. s.script.faults };

    fn take(&mut self, buf: &mut [u8]) -> Result<usize, Failed>
        ensures bound { ReadsAtMost result buf.new }
        ensures bytes { ReadConsumes (Some self.old.bytes) (Some self.new.bytes) result buf.new }
        ensures cause { HasCause self.old.script.faults self.new.script.faults result }
        ensures fails { IsErr result ↔ Contains self.old.script.failing self.old.script.calls }
        ensures count { IfOk result (λ n. n ≡ min self.old.width (min (length self.old.bytes) (length buf.old))) }
        ensures given { IfOk result (λ n. buf.new ≡ take n self.old.bytes ++ drop n buf.old) }
        ensures state { MatchResult result (λ n. self.new ≡ source_after self.old n) (λ _. self.new ≡ source_failed self.old) }
    {
        self.calls.next()?;
        let count = self.width.min(self.bytes.len() - self.at).min(buf.len());
        buf[..count].copy_from_slice(&self.bytes[self.at..self.at + count]);
        self.at += count;
        Ok(count)
    }
}

/// A sink that keeps bytes in memory, of which chosen calls fail. It keeps as many bytes as it has room for, counts
/// those beyond, and tells its bytes up to the first byte that found no room.
#[derive(Drop)]
pub struct MemSink {
    kept: Vec<u8>,
    room: usize,
    beyond: u64,
    width: usize,
    calls: Calls,
}

impl Model for MemSink {
    ghost use Rattle.std.specs.Prelude.{◌≡◌, ◌≤◌, ◌<◌, length, vec_capacity};
    ghost use Rattle.priml_io.specs.Memory.{MemorySink};

    ghost Value = { MemorySink };

    ghost view = { λ s. record { kept = s.kept.items; room = s.room; beyond = s.beyond; width = s.width; script = s.calls } };

    ghost invariant = { λ s. (length s.kept.items ≤ s.room) × (s.room ≤ vec_capacity s.kept) × (0 < s.width) × (0 < s.beyond → length s.kept.items ≡ s.room) };
}

impl MemSink {
    /// A sink with room for this many bytes, which moves at most `width` bytes, at least 1, in a call. The calls whose
    /// numbers, from 0, are in `failing` fail.
    pub fn new(
        alloc: Global,
        room: usize,
        width: usize,
        failing: &[u64],
    ) -> Result<MemSink, AllocError>
        requires { 0 < width }
        ensures { IfOk result (λ s. s ≡ record {
          kept = [];
          room = room;
          beyond = 0;
          width = width;
          script = record { failing = failing.now; calls = 0; faults = 0 };
        }) }
    {
        let kept = Vec::with_capacity(alloc, room)?;
        let calls = Calls::new(alloc, failing)?;
        Ok(MemSink {
            kept,
            room,
            beyond: 0,
            width,
            calls,
        })
    }

    /// The bytes that it kept.
    pub fn bytes(&self) -> &[u8]
        ensures { result.now ≡ self.now.kept }
    {
        self.kept.as_slice()
    }
}

impl Sink for MemSink {
    ghost written = { told };

    ghost faults = { λ s. s.script.faults };

    fn put(&mut self, piece: &[u8]) -> Result<usize, Failed>
        ensures bound { WritesAtMost result piece.now }
        ensures some { IfOk result (λ n. 0 < length piece.now → 0 < n) }
        ensures bytes { PutGrows (told self.old) (told self.new) result piece.now }
        ensures cause { HasCause self.old.script.faults self.new.script.faults result }
        ensures fails { IsErr result ↔ Contains self.old.script.failing self.old.script.calls }
        ensures count { IfOk result (λ n. n ≡ min self.old.width (length piece.now)) }
        ensures state { MatchResult result (λ n. self.new ≡ sink_after self.old (take n piece.now)) (λ _. self.new ≡ sink_failed self.old) }
    {
        self.calls.next()?;
        let count = self.width.min(piece.len());
        let fits = count.min(self.room - self.kept.len());
        let Ok(()) = self.kept.extend_from_slice(&piece[..fits]) else {
            unreachable!()
        };
        self.beyond = self.beyond.saturating_add((count - fits) as u64);
        Ok(count)
    }
}
