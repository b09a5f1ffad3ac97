//! The lines of an input that is at hand whole.

ghost use Rattle.std.specs.Prelude.{◌≡◌, Result, option_map};
ghost use Rattle.std.specs.List.{list_all};
ghost use Rattle.pcef_line.specs.LineValues.{Gives};
ghost use Rattle.pcef_line.specs.declared.line.Line.{Line};
ghost use Rattle.pcef_line.specs.declared.fault.LineFault.{LineFault};
ghost use Rattle.pcef_script.specs.ScriptAnswers.{LineDue};
ghost use Rattle.pcef_script.specs.ScriptLines.{is_blank_line, is_space};
ghost use Rattle.pcef_script.specs.Scripts.{IsFirstLine};

use memchr::memchr;
use pcef_line::{Line, LineFault, LineReader};
use simdutf8::basic::from_utf8;
use std::alloc::Global;

/// The most bytes of a line, without its line feed.
pub const MAX_LINE: usize = 262_144;

/// Whether all bytes are spaces, tabs and CR.
pub(crate) fn is_space(bytes: &[u8]) -> bool
    ensures { result ≡ list_all is_space bytes.now }
{
    bytes
        .iter()
        .all(|byte| *byte == b' ' || *byte == b'\t' || *byte == b'\r')
}

/// Whether a script leaves a line without an answer: it has at most [`MAX_LINE`] bytes, all of them spaces, tabs and
/// CR.
pub fn is_blank(line: &[u8]) -> bool
    ensures { result ≡ is_blank_line line.now }
{
    line.len() <= MAX_LINE && is_space(line)
}

/// The first line of an input, and what follows its line feed, if one ends it.
pub fn first_line(input: &[u8]) -> (&[u8], Option<&[u8]>)
    ensures { IsFirstLine input.now result.0.now (option_map (λ rest. rest.now) result.1) }
{
    let Some(place) = memchr(b'\n', input) else {
        return (input, None);
    };
    let (line, rest) = input.split_at(place);
    (line, Some(rest.split_at(1).1))
}

/// What a line asks for, or its first fault: it has more than [`MAX_LINE`] bytes, it isn't UTF-8 (RFC 3629), or the
/// reader of lines finds one. Takes memory for the line; [`LineFault::NoMemory`] where there is none.
pub fn line_of(alloc: Global, reader: &mut LineReader, bytes: &[u8]) -> Result<Line, LineFault>
    ensures { (due : Result Line LineFault) × LineDue bytes.now due × Gives (λ l. l) result due }
{
    if bytes.len() > MAX_LINE {
        return Err(LineFault::LineTooLong);
    }
    match from_utf8(bytes) {
        Ok(text) => reader.read(alloc, text),
        Err(_) => Err(LineFault::NotUtf8),
    }
}
