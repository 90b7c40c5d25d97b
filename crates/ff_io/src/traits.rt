// What sources and sinks of bytes promise.
ghost use Rattle.std.specs.Prelude.{◌<◌, ℕ, List, length, IfOk};
ghost use Rattle.std.specs.Io.{ReadsAtMost, WritesAtMost};
ghost use Rattle.std.specs.Io.KnownBytes.{ReadConsumes, WriteAppends};
ghost use Rattle.std.specs.declared.option.Option.{Option};
ghost use Rattle.ff_io.specs.Causes.{HasCause};

/// A call of a source or a sink failed. Its count of faults has the cause.
#[derive(Clone, Copy, PartialEq, Eq, Debug)]
pub struct Failed;

/// A source of bytes.
///
/// In contracts `left` is the list of the bytes that are left, where the source tells it, and
/// `faults` counts the faults so far.
pub trait Source {
    ghost left: { Self → Option (List ℕ) };

    ghost faults: { Self → ℕ };

    /// Moves a prefix of what is left to the start of `buf`, and returns its length, at most the
    /// length of `buf`. At a `buf` that is not empty, 0 is the end of input.
    ///
    /// `Failed` comes only where `faults` rose in this call or stands at the last value of u64.
    /// Then no byte was taken.
    fn read(&mut self, buf: &mut [u8]) -> Result<usize, Failed>
        ensures bound { ReadsAtMost result buf.new }
        ensures bytes { ReadConsumes (left self.old) (left self.new) result buf.new }
        ensures cause { HasCause (faults self.old) (faults self.new) result };
}

/// A sink of bytes.
///
/// In contracts `written` is the list of the bytes that it has taken, where the sink tells it,
/// and `faults` counts the faults so far.
pub trait Sink {
    ghost written: { Self → Option (List ℕ) };

    ghost faults: { Self → ℕ };

    /// Takes a prefix of `bytes`, and returns its length: at least 1 where `bytes` is not empty.
    ///
    /// `Failed` comes only where `faults` rose in this call or stands at the last value of u64.
    /// Then no byte was taken.
    fn write(&mut self, bytes: &[u8]) -> Result<usize, Failed>
        ensures bound { WritesAtMost result bytes.now }
        ensures bytes { WriteAppends (written self.old) (written self.new) result bytes.now }
        ensures progress { IfOk result (λ count. 0 < length bytes.now → 0 < count) }
        ensures cause { HasCause (faults self.old) (faults self.new) result };
}
