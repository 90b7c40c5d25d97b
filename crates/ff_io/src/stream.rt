// A whole input, read in several calls, and a whole text, written in several calls.
ghost use Rattle.std.specs.Prelude.{◌≡◌, ◌≤◌, ◌<◌, ◌++◌, take, length, vec_len};
ghost use Rattle.std.specs.Prelude.{IfOk, OnOk, OnErr, Err};
ghost use Rattle.std.specs.Io.KnownBytes.{Appends, Consumes, IsAtEnd};
ghost use Rattle.ff_io.specs.Bytes.{AppendsProperPrefix, TakesSome, TakesUpTo};
ghost use Rattle.ff_io.specs.Causes.{HasCause, Rose};

use super::{Failed, Sink, Source};
use std::alloc::Global;

/// Why a source was not read to its end.
#[derive(Clone, Copy, PartialEq, Eq, Debug)]
pub enum ReadStop {
    /// A call of the source failed.
    Fault,
    /// There was no memory for the bytes.
    NoMemory,
}

// The most bytes that one call of a source is asked for.
const CHUNK: usize = 4096;

/// Reads a source to its end, or to `limit` bytes where it has more, and returns these bytes. With
/// fewer than `limit` bytes the source was read to its end. No call of the source gets an empty
/// buffer, and each but the last takes a byte, so there are at most `limit` calls.
///
/// `Fault` comes only where the faults of the source rose, or stand at the last value of u64, and
/// `NoMemory` where the bytes found no memory. At an error a prefix of the source's bytes, of at
/// most `limit`, was taken and is lost.
pub fn read_up_to<S: Source>(
    alloc: Global,
    source: &mut S,
    limit: usize,
) -> Result<Vec<u8>, ReadStop>
    ensures later { S.faults source.old ≤ S.faults source.new }

    ensures bytes { let old = S.left source.old in
        let new = S.left source.new in
        IfOk result (λ taken. TakesUpTo limit old new taken.items) }
    ensures bound { IfOk result (λ taken. vec_len taken ≤ limit) }
    ensures end { let new = S.left source.new in
        IfOk result (λ taken. vec_len taken < limit → IsAtEnd new) }

    ensures fault { let before = S.faults source.old in
        result ≡ Err ReadStop.Fault → Rose before (S.faults source.new) }
    ensures lost { OnErr result (TakesSome limit (S.left source.old) (S.left source.new)) }
{
    let mut taken = Vec::new(alloc);
    let mut chunk = [0; CHUNK];
    while taken.len() < limit {
        let room = CHUNK.min(limit - taken.len());
        let count = read_chunk(source, &mut chunk[..room], &mut taken)?;
        if count == 0 {
            return Ok(taken);
        }
    }
    Ok(taken)
}

// One call of the source, with the buffer `chunk`. What it gives goes to the end of `taken`.
fn read_chunk<S: Source>(
    source: &mut S,
    chunk: &mut [u8],
    taken: &mut Vec<u8>,
) -> Result<usize, ReadStop>
    requires { 0 < length chunk.old }
    ensures later { S.faults source.old ≤ S.faults source.new }

    ensures count { IfOk result (λ count. count ≤ length chunk.new) }
    ensures taken { let old = taken.old.items in
        IfOk result (λ count. taken.new.items ≡ old ++ take count chunk.new) }
    ensures bytes { let old = S.left source.old in
        let new = S.left source.new in
        IfOk result (λ count. Consumes old new (take count chunk.new)) }
    ensures end { IfOk result (λ count. count ≡ 0 → IsAtEnd (S.left source.new)) }

    ensures fault { let before = S.faults source.old in
        result ≡ Err ReadStop.Fault → Rose before (S.faults source.new) }
    ensures lost { let limit = length chunk.old in
        OnErr result (TakesSome limit (S.left source.old) (S.left source.new)) }
{
    let Ok(count) = source.read(chunk) else {
        return Err(ReadStop::Fault);
    };
    if taken.extend_from_slice(&chunk[..count]).is_err() {
        return Err(ReadStop::NoMemory);
    }
    Ok(count)
}

/// Writes all of `bytes`, and takes no memory. Each call of the sink that does not fail takes a
/// byte.
///
/// `Failed` comes only where the faults of the sink rose, or stand at the last value of u64. Then
/// a proper prefix of `bytes` was written.
pub fn write_all<T: Sink>(sink: &mut T, bytes: &[u8]) -> Result<(), Failed>
    ensures ok { let old = T.written sink.old in
        let new = T.written sink.new in
        OnOk result (Appends old new bytes.now) }
    ensures failed { let old = T.written sink.old in
        let new = T.written sink.new in
        OnErr result (AppendsProperPrefix old new bytes.now) }
    ensures cause { HasCause (T.faults sink.old) (T.faults sink.new) result }
{
    let mut done = 0;
    while done < bytes.len() {
        done += sink.write(&bytes[done..])?;
    }
    Ok(())
}
