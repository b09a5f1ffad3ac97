//! Serves lines, or frames, from a reader to a writer.

ghost use Rattle.std.specs.Prelude.{◌≡◌, ℕ, List, None};
ghost use Rattle.pcef_model.specs.Setting.{Setting};
ghost use Rattle.pcef_model.specs.Refusals.{first_of, open_faults};
ghost use Rattle.pcef_model.specs.ProfileModel.{setting_of};
ghost use Rattle.pcef_script.specs.Scripts.{Opened};
ghost use Rattle.pcef_sessions.specs.FramesServed.{ServesFrames};
ghost use Rattle.pcef_sessions.specs.Served.{Serves};
ghost use Rattle.pcef_sessions.specs.Standing.{fixed, held};

use crate::framing::{Framing, answer_frames, end_frames};
use crate::running::{Serving, answer_block, end_line};
use crate::sessions::Sessions;
use pcef_built_in::ShapedCatalog;
use pcef_model::Profile;
use pcef_script::{ScriptFault, read_some};
use std::alloc::Global;
use std::hash::RandomState;
use std::io::{Read, Write};

/// The most octets of lines that are read at once.
const BLOCK: usize = 8192;

/// The most octets of frames that are read at once.
const FRAMES_BLOCK: usize = 65_536;

fn serve_all<R: Read, W: Write>(
    alloc: Global,
    sessions: Sessions,
    reader: &mut R,
    writer: &mut W,
) -> Result<bool, ScriptFault>
    requires { (name : List ℕ) → held sessions name ≡ None }
    ensures opened { (p : Setting) → first_of (open_faults p) ≡ None → Opened p result }
    ensures answers { Serves (fixed sessions) result
        (R.remaining reader.old) (R.remaining reader.new)
        (W.contents writer.old) (W.contents writer.new) }
{
    let mut serving = Serving {
        sessions,
        line: Vec::new(alloc),
        any_fault: false,
        read: 0,
    };
    let mut block = [0u8; BLOCK];
    for _ in 0..u64::MAX {
        match read_some(reader, &mut block, BLOCK) {
            Ok(0) => {
                end_line(&mut serving, writer)?;
                return Ok(serving.any_fault);
            }
            Ok(n) => answer_block(&mut serving, writer, &block[..n])?,
            Err(_) => return Err(ScriptFault::Read),
        }
    }
    Err(ScriptFault::Read)
}

/// Answers each line of many sessions of a profile, and returns whether a line was at fault.
///
/// A line is a session's name, one space, and a line of a script, or one that opens the session, renews it, shows its
/// lines or ends it. A line feed ends a line, and so does the end of input; there is no answer to a line of spaces, tabs
/// and CR alone. Of a line no more than 262,210 octets are kept. Reads in blocks of at most 8,192 octets, and writes each answer when its line has
/// ended. Flushes the writer after each block in which a line ended, so that whoever waits for an answer has it before
/// more is read; the caller flushes at the end. Takes memory for a line, an answer, and what the sessions keep.
///
/// Ends early with the first [`ScriptFault`] that it meets: that of the reader, also after 2^64 blocks, that of the
/// writer, out of memory, or, before anything is read, a profile that no session can have.
pub fn serve<R: Read, W: Write>(
    alloc: Global,
    reader: &mut R,
    writer: &mut W,
    profile: Profile,
    catalog: ShapedCatalog,
    keys: RandomState,
) -> Result<bool, ScriptFault>
    ensures opened { Opened (setting_of profile catalog) result }
    ensures answers { Serves (setting_of profile catalog) result
        (R.remaining reader.old) (R.remaining reader.new)
        (W.contents writer.old) (W.contents writer.new) }
{
    let sessions = Sessions::new(alloc, profile, catalog, keys)?;
    serve_all(alloc, sessions, reader, writer)
}

fn serve_all_frames<R: Read, W: Write>(
    alloc: Global,
    sessions: Sessions,
    reader: &mut R,
    writer: &mut W,
) -> Result<bool, ScriptFault>
    requires { (name : List ℕ) → held sessions name ≡ None }
    ensures opened { (p : Setting) → first_of (open_faults p) ≡ None → Opened p result }
    ensures answers { ServesFrames (fixed sessions) result
        (R.remaining reader.old) (R.remaining reader.new)
        (W.contents writer.old) (W.contents writer.new) }
{
    let mut framing = Framing {
        sessions,
        any_fault: false,
        read: 0,
    };
    let mut pending = Vec::new(alloc);
    let mut block = [0u8; FRAMES_BLOCK];
    for _ in 0..u64::MAX {
        match read_some(reader, &mut block, FRAMES_BLOCK) {
            Ok(0) => {
                end_frames(&mut framing, &pending, writer)?;
                return Ok(framing.any_fault);
            }
            Ok(n) => {
                if !answer_frames(&mut framing, &mut pending, writer, &block[..n])? {
                    return Ok(framing.any_fault);
                }
            }
            Err(_) => return Err(ScriptFault::Read),
        }
    }
    Err(ScriptFault::Read)
}

/// Answers each frame of many sessions of a profile, and returns whether one was malformed or its line at fault.
///
/// A frame is four octets, the highest first, that say how many follow, 1 to 262,210; the length of a session's name, in
/// an octet, and the name; its kind, in an octet; and its fields. It means a line as [`serve`] has it, and what is
/// written for it is what is written for the line. A malformed frame is answered with its fault under no name, and
/// nothing is done for it. So is a frame that the input ends in, and a length that no frame has, which ends the run.
///
/// Reads in blocks of at most 65,536 octets, and keeps no more than that beside a frame. Flushes the writer after each
/// block in which a frame ended; the caller flushes at the end. Takes memory for a frame, an answer, and what the sessions
/// keep. Ends early with the first [`ScriptFault`] that it meets, as `serve` does.
pub fn serve_frames<R: Read, W: Write>(
    alloc: Global,
    reader: &mut R,
    writer: &mut W,
    profile: Profile,
    catalog: ShapedCatalog,
    keys: RandomState,
) -> Result<bool, ScriptFault>
    ensures opened { Opened (setting_of profile catalog) result }
    ensures answers { ServesFrames (setting_of profile catalog) result
        (R.remaining reader.old) (R.remaining reader.new)
        (W.contents writer.old) (W.contents writer.new) }
{
    let sessions = Sessions::new(alloc, profile, catalog, keys)?;
    serve_all_frames(alloc, sessions, reader, writer)
}
