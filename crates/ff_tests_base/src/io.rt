// Sources and sinks of bytes.
ghost use Rattle.std.specs.Prelude.{◌≤◌};

use ff_io::{
    Failed, MemSink, MemSource, ReadSource, ReadStop, Sink, Source, WriteSink, read_up_to,
    write_all,
};
use std::alloc::Global;
use std::io::{Error, ErrorKind, Read, Write};
use std::test::Fail;

const TEXT: &[u8] = b"thirty bytes of a short input.";

/// How many bytes come from a source with this chunk and this failing call.
fn count(alloc: Global, chunk: usize, failing: u64) -> Result<Result<usize, ReadStop>, Fail>
    requires { 1 ≤ chunk }
{
    let fails = vec![in alloc; failing]?;
    let mut source = MemSource::new(TEXT.to_vec(alloc)?, chunk, fails);
    Ok(read_up_to(alloc, &mut source, 100).map(|taken| taken.len()))
}

// The last call is at the end of input.
#[test]
fn reads_to_the_end_or_to_a_fault(rt: HostRuntime) -> Result<(), Fail> {
    assert_eq!(rt; count(rt.alloc(), 1, 1)?, Err(ReadStop::Fault));
    assert_eq!(rt; count(rt.alloc(), 1, 31)?, Err(ReadStop::Fault));
    assert_eq!(rt; count(rt.alloc(), 1, 32)?, Ok(30));
    assert_eq!(rt; count(rt.alloc(), 16, 2)?, Err(ReadStop::Fault));
    assert_eq!(rt; count(rt.alloc(), 16, 3)?, Err(ReadStop::Fault));
    assert_eq!(rt; count(rt.alloc(), 16, 4)?, Ok(30));
    Ok(())
}

#[test]
fn reads_once(rt: HostRuntime) {
    let mut buf = [0; 6];
    assert_eq!(rt; ReadSource::new(TEXT).read(&mut buf), Ok(6));
    assert_eq!(rt; buf.as_slice(), &TEXT[..6]);
}

#[test]
fn writes_once(rt: HostRuntime) -> Result<(), Fail> {
    let places = vec![in rt.alloc(); 0; 40]?;
    let mut sink = MemSink::new(places, 8, Vec::new(rt.alloc()));
    assert_eq!(rt; sink.write(TEXT), Ok(8));
    assert_eq!(rt; sink.written(), &TEXT[..8]);
    assert_eq!(rt; WriteSink::new(FullWriter { taken: 0 }).write(TEXT), Ok(4));
    Ok(())
}

#[test]
fn stops_at_the_limit(rt: HostRuntime) -> Result<(), Fail> {
    let mut source = MemSource::new(TEXT.to_vec(rt.alloc())?, 16, Vec::new(rt.alloc()));
    let taken = read_up_to(rt.alloc(), &mut source, 20).expect(&rt, "no call fails");
    assert_eq!(rt; taken.as_slice(), &TEXT[..20]);
    let mut buf = [0; 4];
    assert_eq!(rt; source.read(&mut buf), Ok(4));
    assert_eq!(rt; buf.as_slice(), &TEXT[20..24]);
    Ok(())
}

/// How many bytes of the text a sink with these places, this chunk and this failing call took, and
/// whether it took them without a fault.
fn written(
    alloc: Global,
    places: usize,
    chunk: usize,
    failing: u64,
) -> Result<(usize, Result<(), Failed>), Fail>
    requires { 1 ≤ chunk }
{
    let fails = vec![in alloc; failing]?;
    let mut sink = MemSink::new(vec![in alloc; 0; places]?, chunk, fails);
    let end = write_all(&mut sink, TEXT);
    if !TEXT.starts_with(sink.written()) {
        return Err(Fail::from("other bytes were written"));
    }
    Ok((sink.written().len(), end))
}

#[test]
fn writes_all_or_fails(rt: HostRuntime) -> Result<(), Fail> {
    assert_eq!(rt; written(rt.alloc(), 30, 30, 2)?, (30, Ok(())));
    assert_eq!(rt; written(rt.alloc(), 29, 30, 9)?, (29, Err(Failed)));
    assert_eq!(rt; written(rt.alloc(), 40, 1, 31)?, (30, Ok(())));
    assert_eq!(rt; written(rt.alloc(), 40, 1, 30)?, (29, Err(Failed)));
    assert_eq!(rt; written(rt.alloc(), 40, 8, 2)?, (8, Err(Failed)));
    assert_eq!(rt; written(rt.alloc(), 40, 8, 1)?, (0, Err(Failed)));
    Ok(())
}

/// Gives a byte at each call, and fails at the third.
#[derive(Drop)]
struct FailingReader {
    calls: u8,
}

impl Read for FailingReader {
    fn read(&mut self, buf: &mut [u8]) -> Result<usize, Error> {
        if buf.is_empty() {
            return Ok(0);
        }
        if self.calls == 2 {
            return Err(Error::from(ErrorKind::Other));
        }
        self.calls = self.calls.saturating_add(1);
        buf[0] = b'a';
        Ok(1)
    }
}

#[test]
fn adapts_readers(rt: HostRuntime) {
    let taken = read_up_to(rt.alloc(), &mut ReadSource::new(TEXT), 100);
    assert_eq!(rt; taken.expect(&rt, "nothing fails").as_slice(), TEXT);

    let mut failing = ReadSource::new(FailingReader { calls: 0 });
    let taken = read_up_to(rt.alloc(), &mut failing, 100).map(|taken| taken.len());
    assert_eq!(rt; taken, Err(ReadStop::Fault));
}

/// Takes up to four bytes at a call, and none once it has ten.
#[derive(Drop)]
struct FullWriter {
    taken: usize,
}

impl Write for FullWriter {
    fn write(&mut self, buf: &[u8]) -> Result<usize, Error> {
        let room = 10usize.saturating_sub(self.taken);
        let count = buf.len().min(4).min(room);
        self.taken += count;
        Ok(count)
    }

    fn flush(&mut self) -> Result<(), Error> {
        Ok(())
    }
}

#[test]
fn adapts_writers(rt: HostRuntime) {
    let mut bytes = Vec::new(rt.alloc());
    assert_eq!(rt; write_all(&mut WriteSink::new(&mut bytes), TEXT), Ok(()));
    assert_eq!(rt; bytes.as_slice(), TEXT);

    let mut full = WriteSink::new(FullWriter { taken: 0 });
    assert_eq!(rt; write_all(&mut full, &TEXT[..10]), Ok(()));
    assert_eq!(rt; full.write(TEXT), Err(Failed));
}
