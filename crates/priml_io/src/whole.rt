ghost use Rattle.std.specs.Prelude.{◌-◌, ◌<◌, ◌≤◌, ◌^◌, IsErrOf, OnErr};
ghost use Rattle.priml_io.specs.Ends.{Rose};
ghost use Rattle.priml_io.specs.Whole.{Reads, Writes};

use crate::ends::{Sink, Source};
use std::alloc::Global;

/// Why `read_all` gave no bytes. Those that it took are gone.
#[derive(Clone, Copy, Debug, PartialEq, Eq)]
pub enum ReadStop {
    /// The source failed, with a fault that rose in this call.
    ReadFault,
    /// The source gave one byte more than the limit.
    TooLong,
    /// There was no memory for the bytes.
    OutOfMemory,
}

/// Why `write_all` wrote a prefix of the piece alone.
#[derive(Clone, Copy, Debug, PartialEq, Eq)]
pub enum WriteStop {
    /// The sink failed, with a fault that rose in this call.
    WriteFault,
}

/// The most bytes that one call asks of a source.
const CHUNK: usize = 65_536;

/// All that the source has left, at most `limit` bytes. Each turn takes at least one byte.
#[tactic(auto, using(crate::proofs::Joins::joins))]
pub fn read_all<S: Source>(alloc: Global, source: &mut S, limit: usize) -> Result<Vec<u8>, ReadStop>
    requires { limit < 2 ^ 64 - 1 }
    ensures bytes { Reads (S.left source.old) (S.left source.new) limit result }
    ensures later { S.faults source.old ≤ S.faults source.new }
    ensures fault { IsErrOf result ReadStop.ReadFault → Rose (S.faults source.old) (S.faults source.new) }
{
    let mut bytes = Vec::new(alloc);
    let mut buf = [0u8; CHUNK];
    while bytes.len() <= limit {
        let room = CHUNK.min(limit + 1 - bytes.len());
        let Ok(count) = source.take(&mut buf[..room]) else {
            return Err(ReadStop::ReadFault);
        };
        if count == 0 {
            return Ok(bytes);
        }
        let Ok(()) = bytes.extend_from_slice(&buf[..count]) else {
            return Err(ReadStop::OutOfMemory);
        };
    }
    Err(ReadStop::TooLong)
}

/// Writes the whole piece. Each turn offers all that is left of it.
#[tactic(auto, using(crate::proofs::Joins::joins))]
pub fn write_all<K: Sink>(sink: &mut K, piece: &[u8]) -> Result<(), WriteStop>
    ensures bytes { Writes (K.written sink.old) (K.written sink.new) piece.now result }
    ensures later { K.faults sink.old ≤ K.faults sink.new }
    ensures fault { OnErr result (Rose (K.faults sink.old) (K.faults sink.new)) }
{
    let mut rest = piece;
    while !rest.is_empty() {
        let Ok(count) = sink.put(rest) else {
            return Err(WriteStop::WriteFault);
        };
        rest = &rest[count..];
    }
    Ok(())
}
