// A sink of bytes in memory.
ghost use Rattle.std.specs.Prelude.{◌≡◌, ◌≤◌, ◌<◌, ◌⊎◌, ◌↔◌, [], length, Some, IfOk};
ghost use Rattle.std.specs.Result.{IsErr};
ghost use Rattle.std.specs.Io.{WritesAtMost};
ghost use Rattle.std.specs.Io.KnownBytes.{WriteAppends};
ghost use Rattle.ff_io.specs.Causes.{HasCause};
ghost use Rattle.ff_io.specs.Memory.{FailsNext, IsFullFor, sink_after, write_count};

use super::calls::CallLog;
use super::{Failed, Sink};
use std::marker::Model;

/// A sink that fills a buffer, whose calls fail at chosen numbers. No call takes memory.
///
/// In contracts it is the record of the bytes that it took, the number of bytes that it still has
/// room for, the most that one call takes, and the calls so far: how many there were, the numbers
/// of those that fail, and the faults.
#[derive(Drop)]
pub struct MemSink {
    buf: Vec<u8>,
    filled: usize,
    chunk: usize,
    calls: CallLog,
}

impl Model for MemSink {
    ghost use Rattle.std.specs.Prelude.{◌≤◌, ◌-◌, length, take};
    ghost use Rattle.ff_io.specs.Memory.{SinkState};

    ghost Value = { SinkState };

    ghost view = { λ sink. record {
      written = take sink.filled sink.buf.items;
      room = length sink.buf.items - sink.filled;
      chunk = sink.chunk;
      calls = sink.calls;
    } };

    ghost invariant = { λ sink. (sink.filled ≤ length sink.buf.items) × (1 ≤ sink.chunk) };
}

impl MemSink {
    /// A sink that fills `buf` from its start, at most `chunk` bytes in a call. `chunk` is at
    /// least 1. The calls whose numbers, from 1 on, are in `fails` answer `Failed`.
    pub fn new(buf: Vec<u8>, chunk: usize, fails: Vec<u64>) -> MemSink
        requires { 1 ≤ chunk }
        ensures written { result.written ≡ [] }
        ensures room { result.room ≡ length buf.items }
        ensures chunk { result.chunk ≡ chunk }
        ensures calls { result.calls ≡ record { count = 0; fails = fails.items; faults = 0 } }
    {
        MemSink {
            buf,
            filled: 0,
            chunk,
            calls: CallLog::new(fails),
        }
    }

    /// The bytes that the sink took so far, in their order.
    pub fn written(&self) -> &[u8]
        ensures { result.now ≡ self.now.written }
    {
        &self.buf[..self.filled]
    }
}

impl Sink for MemSink {
    ghost written = { λ sink. Some sink.written };

    ghost faults = { λ sink. sink.calls.faults };

    /// Answers `Failed` exactly where the number of this call is among those that fail, or where
    /// `bytes` is not empty and no room is left. Otherwise it takes as many bytes as the chunk,
    /// `bytes` and the room left allow.
    fn write(&mut self, bytes: &[u8]) -> Result<usize, Failed>
        ensures bound { WritesAtMost result bytes.now }
        ensures bytes { let old = Some self.old.written in
            let new = Some self.new.written in
            WriteAppends old new result bytes.now }
        ensures progress { IfOk result (λ count. 0 < length bytes.now → 0 < count) }
        ensures cause { HasCause self.old.calls.faults self.new.calls.faults result }

        ensures fails { IsErr result ↔ (FailsNext self.old.calls ⊎ IsFullFor self.old bytes.now) }
        ensures count { IfOk result (λ count. count ≡ write_count self.old bytes.now) }
        ensures after { self.new ≡ sink_after result bytes.now self.old }
    {
        self.calls.begin()?;
        let room = self.buf.len() - self.filled;
        if room == 0 && !bytes.is_empty() {
            return Err(self.calls.fault());
        }
        let count = self.chunk.min(bytes.len()).min(room);
        let end = self.filled + count;
        self.buf[self.filled..end].copy_from_slice(&bytes[..count]);
        self.filled = end;
        Ok(count)
    }
}
