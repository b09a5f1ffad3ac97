//! Reads a part of an input.

ghost use Rattle.std.specs.Prelude.{◌<◌, ◌≤◌, ◌≡◌, IfOk, length};
ghost use Rattle.std.specs.Io.{ReadsAtMost};
ghost use Rattle.std.specs.Io.KnownBytes.{ReadConsumes};

use std::io::{self, Read};

/// Reads up to `most` bytes to the front of a block, and returns how many: 0 at the end of the input, or where the
/// block is empty. The caller's condition: `most` isn't 0. Fails as the reader does. Takes no memory.
pub fn read_some<R: Read>(reader: &mut R, block: &mut [u8], most: usize) -> io::Result<usize>
    requires { 0 < most }
    ensures most { IfOk result (λ n. n ≤ most) }
    ensures bound { ReadsAtMost result block.new }
    ensures room { length block.new ≡ length block.old }
    ensures bytes { ReadConsumes (R.remaining reader.old) (R.remaining reader.new)
        result block.new }
{
    let room = most.min(block.len());
    reader.read(&mut block[..room])
}
