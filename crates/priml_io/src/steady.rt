ghost use Rattle.std.specs.Prelude.{◌≡◌, ◌<◌, ◌++◌, [], length, min, take, drop, Some, Ok, IfOk};
ghost use Rattle.std.specs.Io.{ReadsAtMost, WritesAtMost};
ghost use Rattle.std.specs.Io.KnownBytes.{ReadConsumes};
ghost use Rattle.priml_io.specs.Ends.{HasCause, PutGrows};
ghost use Rattle.priml_io.specs.Steady.{told_of, store_after};

use crate::ends::{Failed, Sink, Source};
use crate::memory::{MemSink, MemSource};
use std::alloc::{AllocError, Global};
use std::marker::Model;

/// A source over bytes in memory that never fails. It tells its bytes.
#[derive(Drop)]
pub struct SteadySource {
    inner: MemSource,
}

impl Model for SteadySource {
    ghost use Rattle.std.specs.Prelude.{◌≡◌, ◌^◌, ◌-◌, ℕ, List, []};

    ghost Value = { List ℕ };

    ghost view = { λ s. s.inner.bytes };

    ghost invariant = { λ s. (s.inner.width ≡ 2 ^ 64 - 1) × (s.inner.script.failing ≡ []) };
}

impl SteadySource {
    /// A source of a copy of these bytes.
    pub fn new(alloc: Global, bytes: &[u8]) -> Result<SteadySource, AllocError>
        ensures { IfOk result (λ s. s ≡ bytes.now) }
    {
        let inner = MemSource::new(alloc, bytes, usize::MAX, &[])?;
        Ok(SteadySource { inner })
    }
}

impl Source for SteadySource {
    ghost left = { λ s. Some s };

    ghost faults = { λ _. 0 };

    fn take(&mut self, buf: &mut [u8]) -> Result<usize, Failed>
        ensures bound { ReadsAtMost result buf.new }
        ensures bytes { ReadConsumes (Some self.old) (Some self.new) result buf.new }
        ensures cause { HasCause 0 0 result }
        ensures count { result ≡ Ok (min (length self.old) (length buf.old)) }
        ensures given { IfOk result (λ n. buf.new ≡ take n self.old ++ drop n buf.old) }
        ensures rest { IfOk result (λ n. self.new ≡ drop n self.old) }
    {
        self.inner.take(buf)
    }
}

/// A sink that keeps bytes in memory and never fails. It keeps as many bytes as it has room for, counts those beyond,
/// and tells its bytes up to the first byte that found no room.
#[derive(Drop)]
pub struct SteadySink {
    inner: MemSink,
}

impl Model for SteadySink {
    ghost use Rattle.std.specs.Prelude.{◌≡◌, ◌^◌, ◌-◌, []};
    ghost use Rattle.priml_io.specs.Steady.{Store};

    ghost Value = { Store };

    ghost view = { λ s. record { kept = s.inner.kept; room = s.inner.room; beyond = s.inner.beyond } };

    ghost invariant = { λ s. (s.inner.width ≡ 2 ^ 64 - 1) × (s.inner.script.failing ≡ []) };
}

impl SteadySink {
    /// A sink with room for this many bytes.
    pub fn new(alloc: Global, room: usize) -> Result<SteadySink, AllocError>
        ensures { IfOk result (λ s. s ≡ record { kept = []; room = room; beyond = 0 }) }
    {
        let inner = MemSink::new(alloc, room, usize::MAX, &[])?;
        Ok(SteadySink { inner })
    }

    /// The bytes that it kept.
    pub fn bytes(&self) -> &[u8]
        ensures { result.now ≡ self.now.kept }
    {
        self.inner.bytes()
    }
}

impl Sink for SteadySink {
    ghost written = { told_of };

    ghost faults = { λ _. 0 };

    fn put(&mut self, piece: &[u8]) -> Result<usize, Failed>
        ensures bound { WritesAtMost result piece.now }
        ensures some { IfOk result (λ n. 0 < length piece.now → 0 < n) }
        ensures bytes { PutGrows (told_of self.old) (told_of self.new) result piece.now }
        ensures cause { HasCause 0 0 result }
        ensures count { result ≡ Ok (length piece.now) }
        ensures state { self.new ≡ store_after self.old piece.now }
    {
        self.inner.put(piece)
    }
}
