//! Lines that come in parts.

use serde_json::Value;
use std::alloc::{AllocError, Global};
use std::str;

/// The most octets that are kept of a line: 262,144 of a script's, one more to tell that it is too long, and a number in
/// front.
const MAX_LINE: usize = 262_200;

/// A line that isn't whole yet, and the number of those before it.
#[derive(Drop)]
pub(crate) struct Lines {
    part: Vec<u8>,
    whole: u64,
}

impl Lines {
    /// No line came yet. Takes no memory.
    pub(crate) fn new(alloc: Global) -> Lines {
        Lines {
            part: Vec::new(alloc),
            whole: 0,
        }
    }

    /// Puts a piece of a line behind those that came. Takes memory.
    pub(crate) fn add(&mut self, piece: &[u8]) -> Result<(), AllocError> {
        let room = MAX_LINE.saturating_sub(self.part.len());
        self.part
            .extend_from_slice(&piece[..room.min(piece.len())])?;
        Ok(())
    }

    /// The line that is whole now, and its number, from 1 on. The next one begins. Takes memory.
    pub(crate) fn end(&mut self) -> Result<(Vec<u8>, u64), AllocError> {
        let line = self.part.clone()?;
        self.part.clear();
        self.whole = self.whole.saturating_add(1);
        Ok((line, self.whole))
    }

    /// Whether the last line has no line feed.
    pub(crate) fn has_part(&self) -> bool {
        !self.part.is_empty()
    }
}

/// Whether a line is `{"do":"end"}`, in any spelling of JSON. Takes memory.
pub(crate) fn is_end(alloc: Global, line: &[u8]) -> Result<bool, AllocError> {
    let Ok(text) = str::from_utf8(line) else {
        return Ok(false);
    };
    match Value::from_str(alloc, text) {
        Ok(value) => Ok(is_only_end(&value)),
        Err(error) if error.is_memory() => Err(AllocError),
        Err(_) => Ok(false),
    }
}

/// Whether a value is an object with the word `end` alone.
fn is_only_end(value: &Value) -> bool {
    let fields = match value.as_object() {
        Some(object) => object.len(),
        None => 0,
    };
    fields == 1 && value.get("do").and_then(Value::as_str) == Some("end")
}
