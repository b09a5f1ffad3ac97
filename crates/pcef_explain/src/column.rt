//! The column in which a value of a line begins.

use crate::place::{Place, Step};
use json::{Reader, Scratch, Token};
use std::alloc::{AllocError, Global};

/// An object or a list that the walk is in.
#[derive(Clone, Copy)]
struct Level {
    is_list: bool,
    /// The number of the next item.
    next: usize,
    /// Whether it stands on the way to the place.
    is_on_way: bool,
}

/// A walk over the tokens of a line.
#[derive(Drop)]
struct Walk<'a> {
    place: Place<'a>,
    levels: Vec<Level>,
    /// Whether the last key is that of the next step.
    has_key: bool,
}

fn is_item(step: Option<Step<'_>>, number: usize) -> bool {
    match step {
        Some(Step::Item(item)) => item == number,
        _ => false,
    }
}

fn is_key(step: Option<Step<'_>>, key: &str) -> bool {
    match step {
        Some(Step::Key(wanted)) => wanted == key,
        _ => false,
    }
}

impl Walk<'_> {
    /// The step from the innermost level on, if that level is on the way.
    fn next_step(&self) -> Option<Step<'_>> {
        match self.levels.last() {
            Some(level) if level.is_on_way => self.place.step(self.levels.len().saturating_sub(1)),
            _ => None,
        }
    }

    /// Whether the value that begins here is on the way, or at its end.
    fn is_next(&self) -> bool {
        match self.levels.last() {
            None => true,
            Some(level) if level.is_list => is_item(self.next_step(), level.next),
            Some(_) => self.has_key,
        }
    }

    /// Whether the value that begins here is at the end of the way.
    fn is_last(&self) -> bool {
        self.place.step(self.levels.len()).is_none()
    }

    /// Counts an item, in a list.
    fn pass(&mut self) {
        if let Some(level) = self.levels.last_mut() {
            level.next = level.next.saturating_add(1);
        }
    }

    fn enter(&mut self, is_list: bool) -> Result<bool, AllocError> {
        let is_next = self.is_next();
        let is_place = is_next && self.is_last();
        self.pass();
        self.levels.push(Level {
            is_list,
            next: 0,
            is_on_way: is_next && !is_place,
        })?;
        Ok(is_place)
    }

    /// Takes a token, and returns whether the value at the place begins with it.
    fn take(&mut self, token: Token<'_>) -> Result<bool, AllocError> {
        match token {
            Token::Key(key) => {
                self.has_key = is_key(self.next_step(), key);
                Ok(false)
            }
            Token::BeginObject => self.enter(false),
            Token::BeginArray => self.enter(true),
            Token::EndObject | Token::EndArray => {
                let _ = self.levels.pop();
                Ok(false)
            }
            Token::Bad => Ok(false),
            Token::String(_) | Token::Number(_) | Token::Bool(_) | Token::Null => {
                let is_place = self.is_next() && self.is_last();
                self.pass();
                Ok(is_place)
            }
        }
    }
}

/// The column of the first octet from an offset on that is no blank and no mark between values.
fn column_from(line: &[u8], offset: usize) -> Option<usize> {
    line.iter()
        .enumerate()
        .skip(offset)
        .find(|(_, octet)| !matches!(**octet, b' ' | b'\t' | b'\r' | b'\n' | b':' | b','))
        .map(|(number, _)| number.saturating_add(1))
}

/// The column in which the value at a place begins, from 1 and counted in octets, if there is one. Of a key that stands
/// twice, the last value counts. Takes memory.
pub(crate) fn column_of(
    alloc: Global,
    line: &str,
    place: Place<'_>,
) -> Result<Option<usize>, AllocError> {
    let mut scratch = Scratch::new(alloc);
    let mut reader = Reader::new(line, &mut scratch)?;
    let mut walk = Walk {
        place,
        levels: Vec::new(alloc),
        has_key: false,
    };
    let mut column = None;
    for _ in 0..line.len() {
        let offset = reader.offset();
        let Some(token) = reader.next() else {
            break;
        };
        if walk.take(token)? {
            column = column_from(line.as_bytes(), offset);
        }
    }
    Ok(column)
}
