ghost use Rattle.std.specs.Prelude.{◌≡◌, ◌<◌, length, None, Ok, IsOk, IsErr, IsNone, IfOk, IfSome};
ghost use Rattle.std.specs.Io.{ReadsAtMost, WritesAtMost};
ghost use Rattle.std.specs.Io.KnownBytes.{ReadConsumes, WriteAppends};
ghost use Rattle.priml_io.specs.Ends.{HasCause, Counts};
ghost use Rattle.priml_io.specs.Standard.{reader_of, read_faults, writer_of, write_faults};

use crate::ends::{Failed, Sink, Source};
use std::io::{Read, Write};

// How many bytes a call of std moved, or where it moved none for an error a fault, which is counted.
fn or_fault(faults: &mut u64, moved: Option<usize>) -> Result<usize, Failed>
    ensures some { IfSome moved (λ n. result ≡ Ok n) }
    ensures none { IsNone moved → IsErr result }
    ensures cause { HasCause faults.old faults.new result }
    ensures counts { Counts faults.old faults.new result }
{
    match moved {
        Some(count) => Ok(count),
        None => {
            *faults = faults.saturating_add(1);
            Err(Failed)
        }
    }
}

/// A reader of std as a source. Each error is a fault, and nothing else is, so the end is none. It tells no bytes.
#[derive(Drop)]
pub struct StdSource<R> {
    reader: R,
    faults: u64,
}

impl<R> StdSource<R> {
    /// The source of what this reader gives, with no fault yet.
    pub fn new(reader: R) -> StdSource<R>
        ensures { (reader_of result ≡ reader) × (read_faults result ≡ 0) }
    {
        StdSource { reader, faults: 0 }
    }
}

impl<R: Read> Source for StdSource<R> {
    ghost left = { λ _. None };

    ghost faults = { read_faults };

    fn take(&mut self, buf: &mut [u8]) -> Result<usize, Failed>
        ensures bound { ReadsAtMost result buf.new }
        ensures bytes { ReadConsumes (R.remaining (reader_of self.old)) (R.remaining (reader_of self.new)) result buf.new }
        ensures cause { HasCause (read_faults self.old) (read_faults self.new) result }
        ensures counts { Counts (read_faults self.old) (read_faults self.new) result }
    {
        or_fault(&mut self.faults, self.reader.read(buf).ok())
    }
}

/// A writer of std as a sink. Each error is a fault, and so is a write that takes nothing of a piece that is not empty.
/// Where there is nothing to write it asks the writer for nothing. It tells no bytes.
#[derive(Drop)]
pub struct StdSink<W> {
    writer: W,
    faults: u64,
}

impl<W: Write> Sink for StdSink<W> {
    ghost written = { λ _. None };

    ghost faults = { write_faults };

    fn put(&mut self, piece: &[u8]) -> Result<usize, Failed>
        ensures bound { WritesAtMost result piece.now }
        ensures some { IfOk result (λ n. 0 < length piece.now → 0 < n) }
        ensures nothing { length piece.now ≡ 0 → IsOk result }
        ensures bytes { WriteAppends (W.contents (writer_of self.old)) (W.contents (writer_of self.new)) result piece.now }
        ensures cause { HasCause (write_faults self.old) (write_faults self.new) result }
        ensures counts { Counts (write_faults self.old) (write_faults self.new) result }
    {
        if piece.is_empty() {
            return Ok(0);
        }
        match self.writer.write(piece) {
            Ok(count) if count > 0 => or_fault(&mut self.faults, Some(count)),
            _ => or_fault(&mut self.faults, None),
        }
    }
}

impl<W> StdSink<W> {
    /// The sink that writes to this writer, with no fault yet.
    pub fn new(writer: W) -> StdSink<W>
        ensures { (writer_of result ≡ writer) × (write_faults result ≡ 0) }
    {
        StdSink { writer, faults: 0 }
    }
}
