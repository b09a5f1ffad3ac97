//! Lines that are built of their fields, as their canonical spelling is read.

ghost use Rattle.std.specs.Prelude.{◌≤◌, Ok, codes};
ghost use Rattle.hex.specs.Hex.{encode_lower};
ghost use Rattle.pcef_line.specs.Canonical.{step_text, take_text};
ghost use Rattle.pcef_line.specs.LineOf.{LineOf};

use crate::fault::LineFault;
use crate::field::Field;
use crate::line::Line;
use pcef_model::Step;
use pcef_packet::{Dir, read_header};

/// The line that a `take` in its canonical spelling is, with its packet in hexadecimal of lower case, or the packet's
/// fault. That the worker is one of 0 to 15 is the caller's condition. Spells and reads no text, and takes no memory.
pub fn take_line(worker: u8, dir: Dir, packet: &[u8]) -> Result<Line, LineFault>
    requires { worker ≤ 15 }
    ensures { LineOf (take_text worker dir (encode_lower packet.now)) result }
{
    match read_header(dir, packet) {
        Ok(header) => Ok(Line::Step(Step::Take { worker, header })),
        Err(fault) => Err(LineFault::BadPacket(Field::Packet, fault)),
    }
}

/// The line that a `flush` in its canonical spelling is. That the worker is one of 0 to 15 is the caller's condition.
/// Spells and reads no text, and takes no memory.
pub fn flush_line(worker: u8) -> Line
    requires { worker ≤ 15 }
    ensures { LineOf (step_text (codes "flush") worker) (Ok result) }
{
    Line::Step(Step::Flush { worker })
}
