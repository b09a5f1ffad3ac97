//! A script that runs, line by line.

ghost use Rattle.std.specs.Prelude.{◌≡◌, ◌<◌, ◌≤◌, ◌+◌, ◌∷◌, ◌^◌, [], IfErr, IfOk, OnOk, length};
ghost use Rattle.std.specs.Io.KnownBytes.{Appends};
ghost use Rattle.pcef_model.specs.Journals.{report_count};
ghost use Rattle.pcef_script.specs.LineAnswers.{AnswersKept, answer_bytes};
ghost use Rattle.pcef_script.specs.ScriptAnswers.{fault_count};
ghost use Rattle.pcef_script.specs.ScriptLines.{WritesFront, has_feed, kept_of};
ghost use Rattle.pcef_script.specs.Running.{EndsKept, FailsKept, ReadsAll, ReadsSome, StopsAt, StopsIn, script_offers};

use crate::fault::ScriptFault;
use crate::input::Pending;
use crate::step::{LineAnswer, answer_line, answer_too_long};
use crate::writing::write_answer;
use memchr::memchr;
use pcef_catalog::Detects;
use pcef_line::LineReader;
use pcef_world::WorldState;
use std::alloc::{AllocError, Global};
use std::io::Write;

/// A script that runs.
#[derive(Drop)]
pub(crate) struct Running {
    /// The session and its workers.
    pub world: WorldState,
    /// Reads the lines.
    pub lines: LineReader,
    /// The line that is being read.
    pub line: Pending,
    /// How many lines were at fault.
    pub faults: u64,
}

fn answer_of<C: Detects>(
    alloc: Global,
    catalog: &C,
    world: &mut WorldState,
    lines: &mut LineReader,
    line: &Pending,
) -> Result<LineAnswer, AllocError>
    requires offered { C.offers catalog.now ≡ world.old.session.setting.catalog }
    requires kept { world.old.session.forgotten ≤ report_count world.old.session.journal }
    ensures answer { AnswersKept line.now world.old result world.new }
    ensures setting { world.new.session.setting ≡ world.old.session.setting }
{
    match line.bytes() {
        None => answer_too_long(alloc),
        Some(bytes) => answer_line(alloc, catalog, world, lines, bytes),
    }
}

/// Writes an answer, and returns how many lines are at fault then.
fn write_and_count<W: Write>(
    writer: &mut W,
    answer: &LineAnswer,
    faults: u64,
) -> Result<u64, ScriptFault>
    ensures count { faults < 2 ^ 63 →
        IfOk result (λ n. n ≡ faults + fault_count answer.now.is_fault) }
    ensures all { OnOk result (Appends (W.contents writer.old) (W.contents writer.new)
        (answer_bytes answer.now)) }
    ensures front { IfErr result (WritesFront (W.contents writer.old) (W.contents writer.new)
        (answer_bytes answer.now)) }
{
    write_answer(writer, answer)?;
    if answer.is_fault {
        Ok(faults.saturating_add(1))
    } else {
        Ok(faults)
    }
}

/// Answers the line of a script, which has ended, and returns how many lines are at fault then. The reports of the lines
/// before it were written, and are forgotten.
pub(crate) fn end_line<C: Detects, W: Write>(
    alloc: Global,
    catalog: &C,
    script: &mut Running,
    writer: &mut W,
) -> Result<u64, ScriptFault>
    requires { C.offers catalog.now ≡ script_offers script.old }
    ensures ok { EndsKept script.old.line script.old.faults script.old.world result script.new.world
        (W.contents writer.old) (W.contents writer.new) }
    ensures err { FailsKept script.old.line script.old.world result
        (W.contents writer.old) (W.contents writer.new) }
    ensures setting { script.new.world.session.setting ≡ script.old.world.session.setting }
    ensures line { script.new.line ≡ script.old.line }
{
    if script.line.is_blank() {
        return Ok(script.faults);
    }
    script.world.forget();
    match answer_of(
        alloc,
        catalog,
        &mut script.world,
        &mut script.lines,
        &script.line,
    ) {
        Ok(answer) => write_and_count(writer, &answer, script.faults),
        Err(_) => Err(ScriptFault::NoMemory),
    }
}

/// Takes one byte of the script: a line feed ends the line.
fn take_byte<C: Detects, W: Write>(
    alloc: Global,
    catalog: &C,
    script: &mut Running,
    writer: &mut W,
    byte: u8,
) -> Result<(), ScriptFault>
    requires { C.offers catalog.now ≡ script_offers script.old }
    ensures ok { ReadsAll result (W.contents writer.old) script.old
        (W.contents writer.new) script.new (byte ∷ []) }
    ensures err { StopsAt result (W.contents writer.old) script.old
        (W.contents writer.new) byte }
    ensures offers { script_offers script.new ≡ script_offers script.old }
{
    if !script.line.take(byte)? {
        return Ok(());
    }
    script.faults = end_line(alloc, catalog, script, writer)?;
    script.line.clear();
    Ok(())
}

/// Takes the bytes up to the next line feed at once, then the next byte, if there is one, and returns how many these
/// are.
fn take_some<C: Detects, W: Write>(
    alloc: Global,
    catalog: &C,
    script: &mut Running,
    writer: &mut W,
    bytes: &[u8],
) -> Result<usize, ScriptFault>
    requires offered { C.offers catalog.now ≡ script_offers script.old }
    requires some { 0 < length bytes.now }
    ensures ok { ReadsSome result (W.contents writer.old) script.old
        (W.contents writer.new) script.new bytes.now }
    ensures goes_on { IfOk result (λ n. (0 < n) × (n ≤ length bytes.now)) }
    ensures err { StopsIn result (W.contents writer.old) script.old
        (W.contents writer.new) bytes.now }
    ensures offers { script_offers script.new ≡ script_offers script.old }
{
    let taken = script.line.take_plain(bytes);
    if taken == bytes.len() {
        return Ok(taken);
    }
    take_byte(alloc, catalog, script, writer, bytes[taken])?;
    Ok(taken + 1)
}

/// Takes bytes of the script.
fn take_block<C: Detects, W: Write>(
    alloc: Global,
    catalog: &C,
    script: &mut Running,
    writer: &mut W,
    block: &[u8],
) -> Result<(), ScriptFault>
    requires { C.offers catalog.now ≡ script_offers script.old }
    ensures ok { ReadsAll result (W.contents writer.old) script.old
        (W.contents writer.new) script.new block.now }
    ensures err { StopsIn result (W.contents writer.old) script.old
        (W.contents writer.new) block.now }
    ensures offers { script_offers script.new ≡ script_offers script.old }
{
    let mut rest = block;
    while !rest.is_empty() {
        let taken = take_some(alloc, catalog, script, writer, rest)?;
        rest = rest.split_at(taken).1;
    }
    Ok(())
}

/// Whether a line ends in some bytes.
fn has_feed(bytes: &[u8]) -> bool
    ensures { result ≡ has_feed bytes.now }
{
    memchr(b'\n', bytes).is_some()
}

/// Takes bytes of the script, and flushes the writer where a line ends in them: whoever waits for its answer
/// gets it before more is read.
pub(crate) fn answer_block<C: Detects, W: Write>(
    alloc: Global,
    catalog: &C,
    script: &mut Running,
    writer: &mut W,
    block: &[u8],
) -> Result<(), ScriptFault>
    requires { C.offers catalog.now ≡ script_offers script.old }
    ensures ok { ReadsAll result (W.contents writer.old) script.old
        (W.contents writer.new) script.new block.now }
    ensures err { StopsIn result (W.contents writer.old) script.old
        (W.contents writer.new) block.now }
    ensures offers { script_offers script.new ≡ script_offers script.old }
{
    take_block(alloc, catalog, script, writer, block)?;
    if !has_feed(block) {
        return Ok(());
    }
    match writer.flush() {
        Ok(()) => Ok(()),
        Err(_) => Err(ScriptFault::Write),
    }
}

impl Running {
    /// Nothing was read yet.
    pub(crate) fn new(alloc: Global, world: WorldState) -> Running
        ensures world { result.world ≡ world }
        ensures line { result.line ≡ kept_of [] 0 }
        ensures faults { result.faults ≡ 0 }
    {
        Running {
            world,
            lines: LineReader::new(alloc),
            line: Pending::new(alloc),
            faults: 0,
        }
    }
}
