// Reading a whole text.
ghost use Rattle.std.specs.Prelude.{◌≤◌, length};
ghost use Rattle.ff_text.specs.Reads.{Reads};

use crate::fault::TextFault;
use crate::job::MAX_BYTES;
use crate::layout::Mode;
use crate::reader::{Reader, Stop};
use crate::symbol::meaning;
use std::alloc::Global;

/// Reads a text to its end, or to its fault.
pub fn read(alloc: Global, mode: Mode, bytes: &[u8]) -> Result<Reader, TextFault>
    requires { length bytes.now ≤ MAX_BYTES }
    ensures { Reads mode bytes.now result }
{
    let mut reader = Reader::new(alloc, mode);
    for (at, byte) in bytes.iter().enumerate() {
        match reader.step(alloc, meaning(*byte)) {
            Ok(()) => {}
            Err(Stop::Unexpected) => return Err(TextFault::Syntax { at }),
            Err(Stop::NoMemory) => return Err(TextFault::NoMemory),
        }
    }
    match reader.finish(alloc) {
        Ok(reader) => Ok(reader),
        Err(Stop::Unexpected) => Err(TextFault::Syntax { at: bytes.len() }),
        Err(Stop::NoMemory) => Err(TextFault::NoMemory),
    }
}
