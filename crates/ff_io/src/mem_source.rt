// A source of bytes in memory.
ghost use Rattle.std.specs.Prelude.{◌≡◌, ◌+◌, ◌≤◌, ◌++◌, ◌↔◌, take, drop, Some, IfOk};
ghost use Rattle.std.specs.Result.{IsErr};
ghost use Rattle.std.specs.Io.{ReadsAtMost};
ghost use Rattle.std.specs.Io.KnownBytes.{ReadConsumes};
ghost use Rattle.ff_io.specs.Causes.{HasCause};
ghost use Rattle.ff_io.specs.Memory.{FailsNext, count_of, read_count, source_after};

use super::calls::CallLog;
use super::{Failed, Source};
use std::marker::Model;

/// A source of the bytes of a list, whose calls fail at chosen numbers. No call takes memory.
///
/// In contracts it is the record of the bytes that are left, the most that one call gives, and
/// the calls so far: how many there were, the numbers of those that fail, and the faults.
#[derive(Drop)]
pub struct MemSource {
    bytes: Vec<u8>,
    taken: usize,
    chunk: usize,
    calls: CallLog,
}

impl Model for MemSource {
    ghost use Rattle.std.specs.Prelude.{◌≤◌, length, drop};
    ghost use Rattle.ff_io.specs.Memory.{SourceState};

    ghost Value = { SourceState };

    ghost view = { λ source. record {
      left = drop source.taken source.bytes.items;
      chunk = source.chunk;
      calls = source.calls;
    } };

    ghost invariant = { λ source. (source.taken ≤ length source.bytes.items) × (1 ≤ source.chunk) };
}

impl MemSource {
    /// A source of `bytes`, at most `chunk` of them in a call. `chunk` is at least 1. The calls
    /// whose numbers, from 1 on, are in `fails` answer `Failed`. Other calls do not.
    pub fn new(bytes: Vec<u8>, chunk: usize, fails: Vec<u64>) -> MemSource
        requires { 1 ≤ chunk }
        ensures left { result.left ≡ bytes.items }
        ensures chunk { result.chunk ≡ chunk }
        ensures calls { result.calls ≡ record { count = 0; fails = fails.items; faults = 0 } }
    {
        MemSource {
            bytes,
            taken: 0,
            chunk,
            calls: CallLog::new(fails),
        }
    }
}

impl Source for MemSource {
    ghost left = { λ source. Some source.left };

    ghost faults = { λ source. source.calls.faults };

    /// Answers `Failed` exactly where the number of this call is among those that fail. Otherwise
    /// it gives as many bytes as the chunk, `buf` and what is left allow.
    fn read(&mut self, buf: &mut [u8]) -> Result<usize, Failed>
        ensures bound { ReadsAtMost result buf.new }
        ensures bytes { let old = Some self.old.left in
            let new = Some self.new.left in
            ReadConsumes old new result buf.new }
        ensures cause { HasCause self.old.calls.faults self.new.calls.faults result }

        ensures fails { IsErr result ↔ FailsNext self.old.calls }
        ensures count { IfOk result (λ count. count ≡ read_count self.old buf.old) }
        ensures buffer { let count = count_of result in
            buf.new ≡ take count self.old.left ++ drop count buf.old }
        ensures after { self.new ≡ source_after result self.old }
    {
        self.calls.begin()?;
        let left = self.bytes.len() - self.taken;
        let count = self.chunk.min(buf.len()).min(left);
        let end = self.taken + count;
        buf[..count].copy_from_slice(&self.bytes[self.taken..end]);
        self.taken = end;
        Ok(count)
    }
}
