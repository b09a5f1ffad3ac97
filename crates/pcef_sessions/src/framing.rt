//! Frames that are served, one after the other.

ghost use Rattle.std.specs.Prelude.{◌≡◌, ◌≤◌, Err, IfOk, IfSome, drop, length, vec_len};
ghost use Rattle.pcef_sessions.specs.Frames.{meaning};
ghost use Rattle.pcef_sessions.specs.private.Framing.{EndStops, EndsFrames, FailsMore, ReadsFrames, SaysMore, StopsFrames, StopsReading, TakesFrames};

use crate::ahead::{Input, read_ahead};
use crate::frame_fault::FrameFault;
use crate::front::{Front, front_of};
use crate::running::{either, write_named};
use crate::sessions::Sessions;
use pcef_script::ScriptFault;
use std::io::Write;

/// Frames that are served.
#[derive(Drop)]
pub(crate) struct Framing {
    /// The sessions.
    pub sessions: Sessions,
    /// Whether a frame was malformed, or its line at fault.
    pub any_fault: bool,
    /// What was read of memory ahead of its use. It stands here lest the reading be left out, for nobody asks for it.
    pub read: u64,
}

/// Answers a frame.
fn answer_frame<W: Write>(
    framing: &mut Framing,
    writer: &mut W,
    frame: &[u8],
) -> Result<(), ScriptFault>
    ensures ok { SaysMore result (W.contents writer.old) framing.old
        (W.contents writer.new) framing.new (meaning frame.now) }
    ensures err { FailsMore result (W.contents writer.old) framing.old
        (W.contents writer.new) (meaning frame.now) }
{
    match framing.sessions.answer_frame(frame) {
        Err(_) => Err(ScriptFault::NoMemory),
        Ok(named) => {
            write_named(writer, &named)?;
            framing.any_fault = either(framing.any_fault, named.answer.is_fault);
            Ok(())
        }
    }
}

/// Answers what is malformed, and isn't a whole frame.
pub(crate) fn say_malformed<W: Write>(
    framing: &mut Framing,
    writer: &mut W,
    fault: FrameFault,
) -> Result<(), ScriptFault>
    ensures ok { SaysMore result (W.contents writer.old) framing.old
        (W.contents writer.new) framing.new (Err fault) }
    ensures err { FailsMore result (W.contents writer.old) framing.old
        (W.contents writer.new) (Err fault) }
{
    match framing.sessions.malformed(fault) {
        Err(_) => Err(ScriptFault::NoMemory),
        Ok(named) => {
            write_named(writer, &named)?;
            framing.any_fault = either(framing.any_fault, named.answer.is_fault);
            Ok(())
        }
    }
}

/// Answers the frames at the front of some octets, and returns how many octets they are; none where a length follows
/// that no frame has, which is answered too.
pub(crate) fn take_frames<W: Write>(
    framing: &mut Framing,
    writer: &mut W,
    octets: &[u8],
) -> Result<Option<usize>, ScriptFault>
    ensures ok { TakesFrames result (W.contents writer.old) framing.old
        (W.contents writer.new) framing.new octets.now }
    ensures err { StopsFrames result (W.contents writer.old) framing.old
        (W.contents writer.new) octets.now }
    ensures most { IfOk result (λ taken. IfSome taken (λ many. many ≤ length octets.now)) }
{
    let mut rest = octets;
    let mut left = 0;
    'frames: loop {
        left = read_ahead(
            left,
            &mut framing.read,
            &framing.sessions,
            Input::Frames,
            rest,
        );
        match front_of(rest) {
            Front::Whole(frame, others) => {
                answer_frame(framing, writer, frame)?;
                rest = others;
            }
            Front::Part => return Ok(Some(octets.len() - rest.len())),
            Front::Bad => {
                say_malformed(framing, writer, FrameFault::BadLength)?;
                return Ok(None);
            }
        }
    }
}

/// Lets the first octets go.
fn let_go(pending: &mut Vec<u8>, many: usize)
    requires { many ≤ vec_len pending.old }
    ensures { pending.new.items ≡ drop many pending.old.items }
{
    let left = pending.len() - many;
    pending.copy_within(many.., 0);
    pending.truncate(left);
}

/// Takes octets, and answers each frame that ends in them. Flushes the writer where one did: whoever waits for its answer
/// gets it before more is read. Returns whether frames may follow.
pub(crate) fn answer_frames<W: Write>(
    framing: &mut Framing,
    pending: &mut Vec<u8>,
    writer: &mut W,
    block: &[u8],
) -> Result<bool, ScriptFault>
    ensures ok { ReadsFrames result (W.contents writer.old) framing.old pending.old.items
        (W.contents writer.new) framing.new pending.new.items block.now }
    ensures err { StopsReading result (W.contents writer.old) framing.old pending.old.items
        (W.contents writer.new) block.now }
{
    let Ok(()) = pending.extend_from_slice(block) else {
        return Err(ScriptFault::NoMemory);
    };
    match take_frames(framing, writer, pending)? {
        None => Ok(false),
        Some(0) => Ok(true),
        Some(many) => {
            let_go(pending, many);
            match writer.flush() {
                Ok(()) => Ok(true),
                Err(_) => Err(ScriptFault::Write),
            }
        }
    }
}

/// Answers what is left at the end of the input, if it is a part of a frame.
pub(crate) fn end_frames<W: Write>(
    framing: &mut Framing,
    pending: &[u8],
    writer: &mut W,
) -> Result<(), ScriptFault>
    ensures ok { EndsFrames result (W.contents writer.old) framing.old pending.now
        (W.contents writer.new) framing.new }
    ensures err { EndStops result (W.contents writer.old) framing.old pending.now
        (W.contents writer.new) }
{
    if pending.is_empty() {
        return Ok(());
    }
    say_malformed(framing, writer, FrameFault::CutFrame)
}
