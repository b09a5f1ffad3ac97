//! A text that is written piece by piece.

use crate::place::Place;
use crate::wanted::Wanted;
use serde_json::Value;
use std::alloc::{AllocError, Global};
use std::fmt::Display;

/// A text that is written piece by piece. Once there is no memory for a piece, nothing more is written, and the whole
/// text fails: so a function that writes has no return path behind each piece.
#[derive(Drop)]
pub(crate) struct Message {
    text: String,
    is_refused: bool,
}

/// The longest text that is shown whole, in bytes.
pub(crate) const MOST_SHOWN: usize = 80;

impl Message {
    /// An empty message. Takes no memory.
    pub(crate) fn new(alloc: Global) -> Message {
        Message {
            text: String::new(alloc),
            is_refused: false,
        }
    }

    /// Notes that there was no memory.
    pub(crate) fn refuse(&mut self) {
        self.is_refused = true;
    }

    /// Writes a text as it stands.
    pub(crate) fn text(&mut self, piece: &str) {
        if !self.is_refused {
            self.is_refused = self.text.push_str(piece).is_err();
        }
    }

    /// Writes a text in quotation marks, with escapes.
    pub(crate) fn quote(&mut self, piece: &str) {
        if !self.is_refused {
            self.is_refused = write!(self.text, "{piece:?}").is_err();
        }
    }

    /// Writes a value as it prints itself.
    pub(crate) fn value<T: Display>(&mut self, value: &T) {
        if !self.is_refused {
            self.is_refused = write!(self.text, "{value}").is_err();
        }
    }

    /// Writes a word in quotation marks.
    pub(crate) fn word(&mut self, word: &str) {
        self.text("\"");
        self.text(word);
        self.text("\"");
    }

    /// Writes words in quotation marks, with commas between them.
    pub(crate) fn words(&mut self, words: &[&str]) {
        let mut is_first = true;
        for word in words {
            if !is_first {
                self.text(", ");
            }
            self.word(word);
            is_first = false;
        }
    }

    /// Writes a number.
    pub(crate) fn number(&mut self, number: usize) {
        if !self.is_refused {
            self.is_refused = write!(self.text, "{number}").is_err();
        }
    }

    /// Writes a hexadecimal digit.
    pub(crate) fn digit(&mut self, digit: usize) {
        if !self.is_refused {
            self.is_refused = write!(self.text, "{digit:x}").is_err();
        }
    }

    /// Writes the number of a character, in four hexadecimal digits or more.
    pub(crate) fn code(&mut self, character: char) {
        let code = u32::from(character);
        if !self.is_refused {
            self.is_refused = write!(self.text, "{code:04X}").is_err();
        }
    }

    /// Writes a character.
    pub(crate) fn character(&mut self, character: char) {
        if !self.is_refused {
            self.is_refused = self.text.push(character).is_err();
        }
    }

    /// Writes an octet as `0x` and two hexadecimal digits.
    pub(crate) fn octet(&mut self, octet: u8) {
        if !self.is_refused {
            self.is_refused = write!(self.text, "{octet:#04x}").is_err();
        }
    }

    /// Writes where a value stands, as `rule.filters[1].text`.
    pub(crate) fn place(&mut self, place: Place<'_>) {
        if place.is_in_rule {
            self.text("rule.");
        }
        self.text(place.key);
        if let Some(item) = place.item {
            self.text("[");
            self.number(item);
            self.text("]");
        }
        if let Some(inner) = place.inner {
            self.text(".");
            self.text(inner);
        }
    }

    /// Writes what may stand at a field.
    pub(crate) fn expectation(&mut self, wanted: Wanted) {
        self.text(wanted.text());
        match wanted {
            Wanted::Number(least, most) => {
                self.number(least as usize);
                self.text(" to ");
                self.number(most as usize);
            }
            Wanted::Word(words) => self.words(words),
            _ => {}
        }
    }

    /// Writes a value: a short text, a number or a flag as such, others by their kind.
    pub(crate) fn value_found(&mut self, value: &Value) {
        match value {
            Value::Null => self.text("null"),
            Value::Bool(true) => self.text("true"),
            Value::Bool(false) => self.text("false"),
            Value::Number(number) => self.value(number),
            Value::String(text) => self.short(text.as_str()),
            Value::Array(_) => self.text("a list"),
            Value::Object(_) => self.text("an object"),
        }
    }

    /// Writes a text in quotation marks, or how long it is.
    pub(crate) fn short(&mut self, text: &str) {
        if text.len() > MOST_SHOWN {
            self.text("a text of ");
            self.number(text.len());
            self.text(" bytes");
        } else {
            self.quote(text);
        }
    }

    /// The whole text. Fails when out of memory.
    pub(crate) fn whole(self) -> Result<String, AllocError> {
        if self.is_refused {
            Err(AllocError)
        } else {
            Ok(self.text)
        }
    }
}
