//! A text that is written piece by piece.

use crate::escape::push_text;
use crate::metrics::push_label;
use itoa::Buffer;
use std::alloc::{AllocError, Global};

/// A text that is written piece by piece. Once there is no memory for a piece, nothing more is written, and the whole
/// is refused.
#[derive(Drop)]
pub(crate) struct Sheet {
    text: String,
    is_refused: bool,
}

impl Sheet {
    /// An empty one. Takes no memory.
    pub(crate) fn new(alloc: Global) -> Sheet {
        Sheet {
            text: String::new(alloc),
            is_refused: false,
        }
    }

    /// An empty one with room for so many octets. Takes memory for them.
    pub(crate) fn with_room(alloc: Global, octets: usize) -> Result<Sheet, AllocError> {
        Ok(Sheet {
            text: String::with_capacity(alloc, octets)?,
            is_refused: false,
        })
    }

    /// Empties it. Its room stays.
    pub(crate) fn clear(&mut self) {
        self.text.clear();
    }

    /// The text so far. Fails when out of memory.
    pub(crate) fn so_far(&self) -> Result<&str, AllocError> {
        if self.is_refused {
            Err(AllocError)
        } else {
            Ok(self.text.as_str())
        }
    }

    /// Writes a piece as it stands.
    pub(crate) fn raw(&mut self, piece: &str) {
        if !self.is_refused {
            self.is_refused = self.text.push_str(piece).is_err();
        }
    }

    /// Writes a text in a page of HTML: none of its octets begins or ends a tag, an attribute or an entity.
    pub(crate) fn text(&mut self, text: &str) {
        if !self.is_refused {
            self.is_refused = push_text(&mut self.text, text).is_err();
        }
    }

    /// Writes the value of a label of OpenMetrics.
    pub(crate) fn label(&mut self, value: &str) {
        if !self.is_refused {
            self.is_refused = push_label(&mut self.text, value).is_err();
        }
    }

    /// Writes a number.
    pub(crate) fn number(&mut self, number: u64) {
        if !self.is_refused {
            self.is_refused = write!(self.text, "{number}").is_err();
        }
    }

    /// Writes a number with a comma behind each thousand.
    pub(crate) fn count(&mut self, number: u64) {
        let mut buffer = Buffer::new();
        let digits = buffer.format(number).as_bytes();
        for place in 0..digits.len() {
            if place > 0 && (digits.len() - place) % 3 == 0 {
                self.raw(",");
            }
            self.digit(digits[place]);
        }
    }

    /// Writes a digit by its octet.
    fn digit(&mut self, digit: u8) {
        if !self.is_refused {
            self.is_refused = self.text.push(char::from(digit)).is_err();
        }
    }

    /// Writes tenths of a percent as a percentage.
    pub(crate) fn percent(&mut self, tenths: u64) {
        self.number(tenths / 10);
        self.raw(".");
        self.number(tenths % 10);
        self.raw("%");
    }

    /// Writes a number as an attribute of an element, whose quotation mark the next attribute or `raw` ends.
    pub(crate) fn attribute(&mut self, name: &str, value: u64) {
        self.raw("\" ");
        self.raw(name);
        self.raw("=\"");
        self.number(value);
    }

    /// The whole text. Fails when out of memory.
    pub(crate) fn whole(self) -> Result<String, AllocError> {
        if self.is_refused {
            Err(AllocError)
        } else {
            Ok(self.text)
        }
    }
}
