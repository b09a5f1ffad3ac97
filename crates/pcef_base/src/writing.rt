//! Bytes that are written.

ghost use Rattle.std.specs.Prelude.{OnErr, OnOk};
ghost use Rattle.std.specs.Io.KnownBytes.{Appends};
ghost use Rattle.pcef_base.specs.Writing.{AppendsFront};

use std::io::{self, ErrorKind, Write};

/// Writes all of some bytes, or a front of them and the error. Every error of the writer ends it, an interruption too,
/// and so does a write that takes no byte. It doesn't flush, and takes no memory.
pub fn put_all<W: Write>(writer: &mut W, bytes: &[u8]) -> io::Result<()>
    ensures all { OnOk result (Appends (W.contents writer.old) (W.contents writer.new) bytes.now) }
    ensures front { OnErr result
        (AppendsFront (W.contents writer.old) (W.contents writer.new) bytes.now) }
{
    let mut rest = bytes;
    while !rest.is_empty() {
        match writer.write(rest) {
            Ok(0) => return Err(io::Error::from(ErrorKind::WriteZero)),
            Ok(n) => rest = rest.split_at(n).1,
            Err(error) => return Err(error),
        }
    }
    Ok(())
}
