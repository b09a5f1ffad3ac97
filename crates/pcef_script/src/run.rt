//! Runs a script from a reader to a writer.

ghost use Rattle.std.specs.Prelude.{◌≡◌, [], IfErr, IfOk, None};
ghost use Rattle.std.specs.Arc.{arc_value};
ghost use Rattle.pcef_model.specs.Setting.{Setting};
ghost use Rattle.pcef_model.specs.Refusals.{first_of, open_faults};
ghost use Rattle.pcef_model.specs.ProfileModel.{setting_of};
ghost use Rattle.pcef_catalog.specs.Catalogs.{offers_of};
ghost use Rattle.pcef_world.specs.Worlds.{IsOpenedWorld};
ghost use Rattle.pcef_script.specs.Running.{OpenFails};
ghost use Rattle.pcef_script.specs.Runs.{Runs};
ghost use Rattle.pcef_script.specs.Scripts.{Opened};

use crate::fault::ScriptFault;
use crate::reading::read_some;
use crate::running::{Running, answer_block, end_line};
use pcef_catalog::{Catalog, Detects, Offers};
use pcef_model::{OpenFault, Profile};
use pcef_world::WorldState;
use std::alloc::Global;
use std::io;
use std::io::{Read, Write};
use std::sync::Arc;

fn open(alloc: Global, profile: Profile, catalog: &Catalog) -> Result<WorldState, ScriptFault>
    ensures made { IfOk result (IsOpenedWorld (setting_of profile (offers_of catalog.now))) }
    ensures opened { Opened (setting_of profile (offers_of catalog.now)) result }
    ensures fault { IfErr result OpenFails }
{
    let Ok(listing) = catalog.listing().share() else {
        return Err(ScriptFault::NoMemory);
    };
    match WorldState::open(alloc, profile, listing) {
        Ok(world) => Ok(world),
        Err(OpenFault::NoMemory) => Err(ScriptFault::NoMemory),
        Err(fault) => Err(ScriptFault::Profile(fault)),
    }
}

fn run<C: Detects, R: Read, W: Write>(
    alloc: Global,
    catalog: &C,
    world: WorldState,
    reader: &mut R,
    writer: &mut W,
) -> Result<u64, ScriptFault>
    requires offered { C.offers catalog.now ≡ world.session.setting.catalog }
    requires journal { world.session.journal ≡ [] }
    requires workers { world.workers ≡ [] }
    ensures opened { (p : Setting) → first_of (open_faults p) ≡ None → Opened p result }
    ensures answers { Runs world.session.setting result
        (R.remaining reader.old) (R.remaining reader.new)
        (W.contents writer.old) (W.contents writer.new) }
{
    let mut script = Running::new(alloc, world);
    let mut block = [0u8; 8192];
    loop {
        match read_some(reader, &mut block, script.line.room()) {
            Ok(0) => return end_line(alloc, catalog, &mut script, writer),
            Ok(n) => answer_block(alloc, catalog, &mut script, writer, &block[..n])?,
            Err(_) => return Err(ScriptFault::Read),
        }
    }
}

/// Answers each line of a script on a session of its own, and returns the number of lines at fault.
///
/// A line feed ends a line, and so does the end of input; there is no answer to a line of spaces, tabs and CR alone. A
/// line has at most 262,144 bytes, and no more are kept of it; a script has at most 1,073,741,824. Reads in blocks of
/// at most 8,192 bytes; the last one ends at most one byte after those that a script may have. Writes each answer when
/// its line has ended. Flushes the writer after each block in which a line ended, so that whoever waits for an answer
/// has it before more is read; the caller flushes at the end. Takes memory for the line, the answer and what the
/// session keeps.
///
/// Ends early with the first [`ScriptFault`] that it meets: the reader's or the writer's (an interruption too, a write
/// that takes no byte, and a flush that fails), a script that is too long, out of memory, or a profile that no session
/// can have, before anything is read.
pub fn run_script<R: Read, W: Write>(
    alloc: Global,
    reader: &mut R,
    writer: &mut W,
    profile: Profile,
    catalog: Arc<Catalog>,
) -> Result<u64, ScriptFault>
    ensures opened { Opened (setting_of profile (offers_of (arc_value catalog))) result }
    ensures answers { Runs (setting_of profile (offers_of (arc_value catalog))) result
        (R.remaining reader.old) (R.remaining reader.new)
        (W.contents writer.old) (W.contents writer.new) }
{
    let world = open(alloc, profile, &catalog)?;
    run(alloc, &*catalog, world, reader, writer)
}
