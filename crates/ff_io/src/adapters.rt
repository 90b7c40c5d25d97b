// Sources and sinks over the readers and writers of std.
ghost use Rattle.std.specs.Prelude.{◌≡◌, ◌<◌, length, IfOk};
ghost use Rattle.std.specs.Io.{ReadsAtMost, WritesAtMost};
ghost use Rattle.std.specs.Io.KnownBytes.{ReadConsumes, WriteAppends};
ghost use Rattle.ff_io.specs.Causes.{HasCause, faults_after};

use super::{Failed, Sink, Source};
use std::io::{Read, Write};
use std::marker::Model;

/// A source over a reader. It tells of its bytes what the reader tells, and counts a fault at
/// each error of the reader.
///
/// In contracts it is the record of the reader and this count.
#[derive(Drop)]
pub struct ReadSource<R> {
    reader: R,
    faults: u64,
}

impl<R> Model for ReadSource<R> {
    ghost use Rattle.ff_io.specs.Counted.{Counted};

    ghost Value = { Counted R };

    ghost view = { λ source. record { inner = source.reader; faults = source.faults } };
}

impl<R: Read> ReadSource<R> {
    /// A source over `reader`, with no fault so far.
    pub fn new(reader: R) -> ReadSource<R>
        ensures { result ≡ record { inner = reader; faults = 0 } }
    {
        ReadSource { reader, faults: 0 }
    }
}

impl<R: Read> Source for ReadSource<R> {
    ghost left = { λ source. R.remaining source.inner };

    ghost faults = { λ source. source.faults };

    /// Answers `Failed` where the reader answers an error, and counts a fault exactly then. The
    /// count stops at the last value of u64.
    fn read(&mut self, buf: &mut [u8]) -> Result<usize, Failed>
        ensures bound { ReadsAtMost result buf.new }
        ensures bytes { let old = R.remaining self.old.inner in
            let new = R.remaining self.new.inner in
            ReadConsumes old new result buf.new }
        ensures cause { HasCause self.old.faults self.new.faults result }
        ensures counted { self.new.faults ≡ faults_after result self.old.faults }
    {
        match self.reader.read(buf) {
            Ok(count) => Ok(count),
            Err(_) => {
                self.faults = self.faults.saturating_add(1);
                Err(Failed)
            }
        }
    }
}

/// A sink over a writer. It tells of its bytes what the writer tells, and counts a fault at each
/// error of the writer, and where the writer takes none of some bytes.
///
/// In contracts it is the record of the writer and this count.
#[derive(Drop)]
pub struct WriteSink<W> {
    writer: W,
    faults: u64,
}

impl<W> Model for WriteSink<W> {
    ghost use Rattle.ff_io.specs.Counted.{Counted};

    ghost Value = { Counted W };

    ghost view = { λ sink. record { inner = sink.writer; faults = sink.faults } };
}

impl<W: Write> WriteSink<W> {
    /// A sink over `writer`, with no fault so far.
    pub fn new(writer: W) -> WriteSink<W>
        ensures { result ≡ record { inner = writer; faults = 0 } }
    {
        WriteSink { writer, faults: 0 }
    }
}

impl<W: Write> Sink for WriteSink<W> {
    ghost written = { λ sink. W.contents sink.inner };

    ghost faults = { λ sink. sink.faults };

    /// Answers `Failed` where the writer answers an error, or takes no byte of `bytes` though it
    /// is not empty, and counts a fault exactly then. The count stops at the last value of u64.
    fn write(&mut self, bytes: &[u8]) -> Result<usize, Failed>
        ensures bound { WritesAtMost result bytes.now }
        ensures bytes { let old = W.contents self.old.inner in
            let new = W.contents self.new.inner in
            WriteAppends old new result bytes.now }
        ensures progress { IfOk result (λ count. 0 < length bytes.now → 0 < count) }
        ensures cause { HasCause self.old.faults self.new.faults result }
        ensures counted { self.new.faults ≡ faults_after result self.old.faults }
    {
        match self.writer.write(bytes) {
            Ok(count) if count > 0 || bytes.is_empty() => Ok(count),
            _ => {
                self.faults = self.faults.saturating_add(1);
                Err(Failed)
            }
        }
    }
}
