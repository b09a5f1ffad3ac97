//! Writes answers.

ghost use Rattle.std.specs.Prelude.{◌∷◌, [], OnOk, IfErr};
ghost use Rattle.std.specs.Io.KnownBytes.{Appends};
ghost use Rattle.pcef_script.specs.LineAnswers.{answer_bytes};
ghost use Rattle.pcef_script.specs.ScriptLines.{WritesFront};

use crate::fault::ScriptFault;
use crate::step::LineAnswer;
use std::io::Write;

/// Writes all of some bytes, or a front of them and [`ScriptFault::Write`]. Every error of the writer ends it, an
/// interruption too, and so does a write that takes no byte. It doesn't flush, and takes no memory.
pub fn put_all<W: Write>(writer: &mut W, bytes: &[u8]) -> Result<(), ScriptFault>
    ensures all { OnOk result (Appends (W.contents writer.old) (W.contents writer.new) bytes.now) }
    ensures front { IfErr result
        (WritesFront (W.contents writer.old) (W.contents writer.new) bytes.now) }
{
    match pcef_base::put_all(writer, bytes) {
        Ok(()) => Ok(()),
        Err(_) => Err(ScriptFault::Write),
    }
}

/// Writes an answer and a line feed, as [`put_all`] does.
pub fn write_answer<W: Write>(writer: &mut W, answer: &LineAnswer) -> Result<(), ScriptFault>
    ensures all { OnOk result (Appends (W.contents writer.old) (W.contents writer.new)
        (answer_bytes answer.now)) }
    ensures front { IfErr result (WritesFront (W.contents writer.old) (W.contents writer.new)
        (answer_bytes answer.now)) }
{
    put_all(writer, answer.text.as_bytes())?;
    put_all(writer, b"\n")
}
