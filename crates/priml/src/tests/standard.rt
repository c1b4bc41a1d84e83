//! Readers and writers of std as sources and sinks.

use priml_io::{
    Failed, ReadStop, Sink, Source, StdSink, StdSource, WriteStop, read_all, write_all,
};
use std::alloc::{AllocError, Global};
use std::io::{self, Read, Write};
use std::test::Fail;

/// A reader, and a writer, that gives an error at each call.
#[derive(Drop)]
struct Broken;

impl Read for Broken {
    fn read(&mut self, _buf: &mut [u8]) -> io::Result<usize> {
        Err(io::Error::from(io::ErrorKind::Other))
    }
}

impl Write for Broken {
    fn write(&mut self, _buf: &[u8]) -> io::Result<usize> {
        Err(io::Error::from(io::ErrorKind::Other))
    }

    fn flush(&mut self) -> io::Result<()> {
        Ok(())
    }
}

/// A reader that gives an error at its first call, and then the byte 7 at each.
#[derive(Drop)]
struct Late {
    is_ready: bool,
}

impl Read for Late {
    fn read(&mut self, buf: &mut [u8]) -> io::Result<usize> {
        if !self.is_ready {
            self.is_ready = true;
            return Err(io::Error::from(io::ErrorKind::Interrupted));
        }
        if buf.is_empty() {
            return Ok(0);
        }
        buf[0] = 7;
        Ok(1)
    }
}

/// Whether a sink takes these bytes whole.
fn takes(alloc: Global, bytes: &[u8]) -> bool {
    let mut all = Vec::new(alloc);
    let mut sink = StdSink::new(&mut all);
    let end = write_all(&mut sink, bytes);
    end == Ok(()) && all.as_slice() == bytes
}

/// 200,000 bytes.
fn long_piece(alloc: Global) -> Result<Vec<u8>, AllocError> {
    let mut piece = Vec::new(alloc);
    for i in 0..200_000u32 {
        piece.push((i % 251) as u8)?;
    }
    Ok(piece)
}

/// Whether a source gives these bytes whole, and then none.
fn gives(alloc: Global, bytes: &[u8]) -> bool {
    let mut source = StdSource::new(bytes);
    match read_all(alloc, &mut source, bytes.len()) {
        Ok(read) => read.as_slice() == bytes && source.take(&mut [0; 4]) == Ok(0),
        Err(_) => false,
    }
}

#[test]
fn a_long_piece(rt: HostRuntime) -> Result<(), Fail> {
    let piece = long_piece(rt.alloc())?;
    assert!(rt; takes(rt.alloc(), &piece) && gives(rt.alloc(), &piece));
    Ok(())
}

#[test]
fn a_late_reader(rt: HostRuntime) {
    let mut late = StdSource::new(Late { is_ready: false });
    let mut buf = [0u8; 3];
    let first = late.take(&mut buf);
    let second = late.take(&mut buf);
    assert!(rt; first == Err(Failed) && second == Ok(1) && buf == [7, 0, 0]);
}

/// Whether three bytes are read whole with this limit, or why they are not.
fn read_abc(alloc: Global, limit: u8) -> Result<bool, ReadStop> {
    let mut source = StdSource::new(b"abc".as_slice());
    match read_all(alloc, &mut source, limit as usize) {
        Ok(bytes) => Ok(bytes.as_slice() == b"abc".as_slice()),
        Err(stop) => Err(stop),
    }
}

#[test]
fn readers_of_std(rt: HostRuntime) {
    let reads = [
        (4, Ok(true)),
        (3, Ok(true)),
        (2, Err(ReadStop::TooLong)),
        (0, Err(ReadStop::TooLong)),
    ];
    for (limit, want) in reads {
        assert!(rt; read_abc(rt.alloc(), limit) == want, "{limit}");
    }
}

#[test]
fn a_broken_reader(rt: HostRuntime) {
    let mut source = StdSource::new(b"abc".as_slice().chain(Broken));
    assert!(rt; read_all(rt.alloc(), &mut source, 9).err() == Some(ReadStop::ReadFault));
}

#[test]
fn a_writer_of_std(rt: HostRuntime) {
    assert!(rt; takes(rt.alloc(), b"abc"));
}

#[test]
fn a_full_writer(rt: HostRuntime) {
    let mut room = [0u8; 2];
    let mut full = StdSink::new(&mut room[..]);
    let written = write_all(&mut full, b"abc");
    let nothing = full.put(&[]);
    assert!(rt; written == Err(WriteStop::WriteFault) && nothing == Ok(0));
    assert_eq!(rt; room.as_slice(), b"ab".as_slice());
}

#[test]
fn a_broken_writer(rt: HostRuntime) {
    let mut broken = StdSink::new(Broken);
    let written = write_all(&mut broken, b"abc");
    let nothing = write_all(&mut broken, &[]);
    assert!(rt; written == Err(WriteStop::WriteFault) && nothing == Ok(()));
}
