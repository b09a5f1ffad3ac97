//! Reads a line.

ghost use Rattle.std.specs.Prelude.{Result};
ghost use Rattle.serde_json.specs.View.{view};
ghost use Rattle.pcef_filter.specs.Reading.{reading_of};
ghost use Rattle.pcef_line.specs.declared.line.Line.{Line};
ghost use Rattle.pcef_line.specs.declared.fault.LineFault.{LineFault};
ghost use Rattle.pcef_line.specs.LineValues.{Gives};
ghost use Rattle.pcef_line.specs.LineOf.{word_at, fields_at, line_at, line_by, LineOf};

use crate::command::{
    activate, install, lose, monitor, notice, of_command, remove, report, stop, triggers,
};
use crate::fault::LineFault;
use crate::field::Field;
use crate::known::is_known;
use crate::line::Line;
use crate::short::short_line;
use crate::word::Word;
use crate::worker::{abandon, finish, flush, refresh, take};
use json::Scratch;
use pcef_model::{Command, Step};
use serde_json::Value;
use std::alloc::Global;

#[tactic(auto, unfolding(crate::specs::LineOf::word_at))]
fn word_field(line: &Value) -> Result<Word, LineFault>
    ensures { Gives (λ w. w) result (word_at (view line.now)) }
{
    match line
        .get(Field::Do.text())
        .and_then(Value::as_str)
        .and_then(Word::from_text)
    {
        Some(word) => Ok(word),
        None => Err(LineFault::UnknownDo),
    }
}

/// Reads the fields of a line that has this word.
#[tactic(auto, unfolding(crate::specs::LineOf::fields_at))]
fn fields(alloc: Global, word: Word, line: &Value) -> Result<Line, LineFault>
    ensures { Gives (λ l. l) result (fields_at reading_of word (view line.now)) }
{
    match word {
        Word::Install => install(alloc, line),
        Word::Activate => activate(line),
        Word::Remove => remove(line),
        Word::Monitor => monitor(line),
        Word::Stop => stop(line),
        Word::Report => report(line),
        Word::Triggers => triggers(line),
        Word::Notice => notice(line),
        Word::Lose => lose(line),
        Word::Close => Ok(of_command(Command::Close)),
        Word::Terminate => Ok(of_command(Command::Terminate)),
        Word::Attach => Ok(Line::Step(Step::Attach)),
        Word::Take => take(alloc, line),
        Word::Refresh => refresh(line),
        Word::Flush => flush(line),
        Word::Finish => finish(line),
        Word::Abandon => abandon(line),
        Word::Show => Ok(Line::Show),
    }
}

#[tactic(auto, unfolding(crate::specs::LineOf::line_at))]
fn line(alloc: Global, value: &Value) -> Result<Line, LineFault>
    ensures { Gives (λ l. l) result (line_at reading_of (view value.now)) }
{
    if !value.is_object() {
        return Err(LineFault::NotObject);
    }
    let word = word_field(value)?;
    if !is_known(word, value) {
        return Err(LineFault::UnknownField);
    }
    fields(alloc, word, value)
}

#[tactic(auto, unfolding(crate::specs::LineOf::line_by))]
fn line_of(alloc: Global, text: &str) -> Result<Line, LineFault>
    ensures { Gives (λ l. l) result (line_by reading_of text.now) }
{
    match Value::from_str(alloc, text) {
        Ok(value) => line(alloc, &value),
        Err(error) if error.is_memory() => Err(LineFault::NoMemory),
        Err(_) => Err(LineFault::NotJson),
    }
}

/// The line that a text is, or its first fault. For each text exactly one of these is due
/// ([`one_line`](crate::one_line)). Whole numbers are JSON numbers without fraction and exponent below 2^64; of a key
/// that stands twice in an object the last value counts. Takes memory; out of memory is answered in place of any line
/// or fault.
pub fn read_line(alloc: Global, text: &str) -> Result<Line, LineFault>
    ensures { (due : Result Line LineFault) × LineOf text.now due × Gives (λ l. l) result due }
{
    line_of(alloc, text)
}

/// Reads lines, one after another, and keeps the memory that reading takes: some 16 KB, and as much again as the
/// longest line. `take`, `refresh` and `flush` in their usual form are read in one pass over their text.
#[derive(Drop)]
pub struct LineReader {
    scratch: Scratch,
    octets: Vec<u8>,
}

impl LineReader {
    /// Nothing was read yet. Takes no memory.
    pub fn new(alloc: Global) -> LineReader {
        LineReader {
            scratch: Scratch::new(alloc),
            octets: Vec::new(alloc),
        }
    }

    /// The line that a text is, or its first fault, as [`read_line`] answers it. The reader may go on after a fault.
    /// Takes memory; out of memory is answered in place of any line or fault.
    pub fn read(&mut self, alloc: Global, text: &str) -> Result<Line, LineFault>
        ensures { (due : Result Line LineFault) × LineOf text.now due × Gives (λ l. l) result due }
    {
        match short_line(text, &mut self.scratch, &mut self.octets) {
            Some(line) => line,
            None => line_of(alloc, text),
        }
    }
}
