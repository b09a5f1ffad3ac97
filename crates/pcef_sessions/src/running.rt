//! Lines that are served, one after the other.

ghost use Rattle.std.specs.Prelude.{◌≡◌, ◌||◌, ◌∷◌, ◌++◌, [], IfErr, OnOk, false};
ghost use Rattle.std.specs.Io.KnownBytes.{Appends};
ghost use Rattle.pcef_script.specs.ScriptLines.{WritesFront, has_feed};
ghost use Rattle.pcef_script.specs.declared.fault.ScriptFault.TheVariants.{NoMemory};
ghost use Rattle.pcef_sessions.specs.Sayings.{said_of};
ghost use Rattle.pcef_sessions.specs.Served.{name_bytes, said_bytes};
ghost use Rattle.pcef_sessions.specs.private.Running.{EndsAll, FailsAtEnd, KeepsMore, ReadsAll, StopsIn};

use crate::ahead::{Input, read_ahead};
use crate::name::{NO_NAME, SessionName};
use crate::saying::NamedAnswer;
use crate::sessions::Sessions;
use memchr::memchr;
use pcef_script::{ScriptFault, is_blank, put_all, write_answer};
use std::io::Write;

/// How many octets of a line are kept: a name of 64 octets, a space, and one octet more than a script's line may have.
const MOST_KEPT: usize = 262_210;

/// Lines that are served.
#[derive(Drop)]
pub(crate) struct Serving {
    /// The sessions.
    pub sessions: Sessions,
    /// What is kept of the line that is being read.
    pub line: Vec<u8>,
    /// Whether a line was at fault.
    pub any_fault: bool,
    /// What was read of memory ahead of its use. It stands here lest the reading be left out, for nobody asks for it.
    pub read: u64,
}

/// A name, or a dash in the place of one.
fn name_text(name: &Option<SessionName>) -> &str
    ensures { result.now ≡ name_bytes name.now }
{
    match name {
        Some(name) => name.as_str(),
        None => NO_NAME,
    }
}

fn write_name<W: Write>(writer: &mut W, name: &Option<SessionName>) -> Result<(), ScriptFault>
    ensures all { OnOk result (Appends (W.contents writer.old) (W.contents writer.new)
        (name_bytes name.now ++ 32 ∷ [])) }
    ensures front { IfErr result (WritesFront (W.contents writer.old) (W.contents writer.new)
        (name_bytes name.now ++ 32 ∷ [])) }
{
    put_all(writer, name_text(name).as_bytes())?;
    put_all(writer, b" ")
}

/// Writes an answer behind its name, and a line feed.
pub(crate) fn write_named<W: Write>(writer: &mut W, named: &NamedAnswer) -> Result<(), ScriptFault>
    ensures all { OnOk result (Appends (W.contents writer.old) (W.contents writer.new)
        (said_bytes (said_of named.now))) }
    ensures front { IfErr result (WritesFront (W.contents writer.old) (W.contents writer.new)
        (said_bytes (said_of named.now))) }
{
    write_name(writer, &named.name)?;
    write_answer(writer, &named.answer)
}

/// Keeps more octets of a line, as far as there is room.
fn keep(line: &mut Vec<u8>, bytes: &[u8]) -> Result<(), ScriptFault>
    ensures ok { OnOk result (KeepsMore line.old.items bytes.now line.new.items) }
    ensures err { IfErr result (λ e. e ≡ NoMemory) }
{
    let room = MOST_KEPT.saturating_sub(line.len());
    let taken = room.min(bytes.len());
    match line.extend_from_slice(bytes.split_at(taken).0) {
        Ok(()) => Ok(()),
        Err(_) => Err(ScriptFault::NoMemory),
    }
}

/// Whether one of two holds.
pub(crate) fn either(one: bool, other: bool) -> bool
    ensures { result ≡ (one || other) }
{
    one || other
}

/// Answers the line that was read, unless it is blank.
pub(crate) fn end_line<W: Write>(serving: &mut Serving, writer: &mut W) -> Result<(), ScriptFault>
    ensures ok { EndsAll result (W.contents writer.old) serving.old
        (W.contents writer.new) serving.new }
    ensures err { FailsAtEnd result (W.contents writer.old) serving.old (W.contents writer.new) }
{
    if is_blank(&serving.line) {
        return Ok(());
    }
    match serving.sessions.answer(&serving.line) {
        Err(_) => Err(ScriptFault::NoMemory),
        Ok(named) => {
            write_named(writer, &named)?;
            serving.any_fault = either(serving.any_fault, named.answer.is_fault);
            Ok(())
        }
    }
}

/// Takes the octets up to a line feed, and the line feed.
fn take_line<W: Write>(
    serving: &mut Serving,
    writer: &mut W,
    bytes: &[u8],
) -> Result<(), ScriptFault>
    requires { has_feed bytes.now ≡ false }
    ensures ok { ReadsAll result (W.contents writer.old) serving.old
        (W.contents writer.new) serving.new (bytes.now ++ 10 ∷ []) }
    ensures err { StopsIn result (W.contents writer.old) serving.old
        (W.contents writer.new) (bytes.now ++ 10 ∷ []) }
{
    keep(&mut serving.line, bytes)?;
    end_line(serving, writer)?;
    serving.line.clear();
    Ok(())
}

/// Takes octets, and answers each line that ends in them.
fn take_block<W: Write>(
    serving: &mut Serving,
    writer: &mut W,
    block: &[u8],
) -> Result<(), ScriptFault>
    ensures ok { ReadsAll result (W.contents writer.old) serving.old
        (W.contents writer.new) serving.new block.now }
    ensures err { StopsIn result (W.contents writer.old) serving.old
        (W.contents writer.new) block.now }
{
    let mut rest = block;
    let mut left = 0;
    'lines: while let Some(place) = memchr(b'\n', rest) {
        left = read_ahead(
            left,
            &mut serving.read,
            &serving.sessions,
            Input::Lines,
            rest,
        );
        take_line(serving, writer, rest.split_at(place).0)?;
        rest = rest.split_at(place + 1).1;
    }
    keep(&mut serving.line, rest)?;
    Ok(())
}

/// Whether a line ends in some octets.
pub(crate) fn has_feed(bytes: &[u8]) -> bool
    ensures { result ≡ has_feed bytes.now }
{
    memchr(b'\n', bytes).is_some()
}

/// Takes octets, and flushes the writer where a line ends in them: whoever waits for its answer gets it before more is
/// read.
pub(crate) fn answer_block<W: Write>(
    serving: &mut Serving,
    writer: &mut W,
    block: &[u8],
) -> Result<(), ScriptFault>
    ensures ok { ReadsAll result (W.contents writer.old) serving.old
        (W.contents writer.new) serving.new block.now }
    ensures err { StopsIn result (W.contents writer.old) serving.old
        (W.contents writer.new) block.now }
{
    take_block(serving, writer, block)?;
    if !has_feed(block) {
        return Ok(());
    }
    match writer.flush() {
        Ok(()) => Ok(()),
        Err(_) => Err(ScriptFault::Write),
    }
}
