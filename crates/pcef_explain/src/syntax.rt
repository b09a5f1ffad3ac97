//! Where a text stops being JSON (RFC 8259), what stands there, and what is expected.

use crate::message::Message;
use json::{Reader, Scratch, Token};
use serde_json::Value;
use std::alloc::{AllocError, Global};

/// The most levels of nested objects and lists that the reader of lines takes.
const MAX_LEVELS: usize = 127;

/// What may follow at a place of a text.
#[derive(Clone, Copy)]
pub(crate) enum Due {
    /// The line's object.
    Object,
    Value,
    /// The name of a member.
    Name,
    /// The name of the first member, or the end of the object.
    NameOrEnd,
    Colon,
    /// The first value of a list, or its end.
    ItemOrEnd,
    /// Another member, or the end of the object.
    MemberOrEnd,
    /// Another value, or the end of the list.
    MoreOrEnd,
    /// A quotation mark, behind a text.
    Quote,
    /// An escape, behind a backslash.
    Escape,
    /// A character of a text.
    Character,
    /// A text whose surrogates, \ud800 to \udfff, stand in pairs.
    Pairs,
    /// An object or a list that isn't nested too deeply.
    Shallow,
    /// A number that the reader can hold.
    Range,
    Nothing,
}

impl Due {
    fn text(self) -> &'static str {
        match self {
            Due::Object => "a JSON object",
            Due::Value => "a value, as \"voice\", 5 or true,",
            Due::Name => "a name in double quotation marks",
            Due::NameOrEnd => "a name in double quotation marks, or '}',",
            Due::Colon => "':'",
            Due::ItemOrEnd => "a value, or ']',",
            Due::MemberOrEnd => "',' or '}'",
            Due::MoreOrEnd => "',' or ']'",
            Due::Quote => "'\"' behind a text",
            Due::Escape => "one of \"\\/bfnrt, or u and four hexadecimal digits,",
            Due::Character => "an escape, as \\t or \\n,",
            Due::Pairs => "a text in which \\ud800 to \\udfff stand in pairs",
            Due::Shallow => "no object or list within 127 others",
            Due::Range => "a number from -1.7e308 to 1.7e308",
            Due::Nothing => "nothing more",
        }
    }

    /// Whether it is a name or a value.
    fn is_item(self) -> bool {
        match self {
            Due::Object | Due::Value | Due::Name | Due::NameOrEnd | Due::ItemOrEnd => true,
            _ => false,
        }
    }
}

/// The place of an octet that doesn't fit, from 0, and what is expected there.
pub(crate) type Misplaced = (usize, Due);

/// The objects and lists around a place of a text, and what is due there.
#[derive(Drop)]
struct Syntax {
    /// Whether each, from the outermost, is a list.
    levels: Vec<bool>,
    due: Due,
}

/// The place of the last octet of a part of a text that is no blank, if that octet is `mark`.
fn mark_at_end(text: &[u8], from: usize, to: usize, mark: u8) -> Option<usize> {
    let mut found = None;
    for (number, octet) in text.get(from..to)?.iter().enumerate() {
        if !matches!(*octet, b' ' | b'\t' | b'\r' | b'\n') {
            found = if *octet == mark {
                Some(from.saturating_add(number))
            } else {
                None
            };
        }
    }
    found
}

/// Whether a token is what is due, or begins it.
fn is_due(due: Due, token: Token<'_>) -> bool {
    match token {
        Token::Key(_) => matches!(due, Due::Name | Due::NameOrEnd),
        Token::EndObject => matches!(due, Due::NameOrEnd | Due::MemberOrEnd),
        Token::EndArray => matches!(due, Due::ItemOrEnd | Due::MoreOrEnd),
        Token::Bad => false,
        _ => matches!(due, Due::Object | Due::Value | Due::ItemOrEnd),
    }
}

impl Syntax {
    /// What is due behind a value, with a comma or without.
    fn due_behind(&self, has_comma: bool) -> Due {
        match (self.levels.last(), has_comma) {
            (None, _) => Due::Nothing,
            (Some(true), true) => Due::Value,
            (Some(false), true) => Due::Name,
            (Some(true), false) => Due::MoreOrEnd,
            (Some(false), false) => Due::MemberOrEnd,
        }
    }

    /// Passes a value, with the comma behind it if there is one.
    fn pass(&mut self, comma: Option<usize>) -> Option<Misplaced> {
        self.due = self.due_behind(comma.is_some());
        match (self.due, comma) {
            (Due::Nothing, Some(place)) => Some((place, Due::Nothing)),
            _ => None,
        }
    }

    /// Passes a token that is due, from its place up to that of the next one.
    fn take(
        &mut self,
        text: &[u8],
        token: Token<'_>,
        from: usize,
        to: usize,
    ) -> Result<Option<Misplaced>, AllocError> {
        match token {
            Token::Key(_) => self.due = Due::Value,
            Token::BeginObject => {
                self.levels.push(false)?;
                self.due = Due::NameOrEnd;
            }
            Token::BeginArray => {
                self.levels.push(true)?;
                self.due = Due::ItemOrEnd;
            }
            Token::EndObject | Token::EndArray => {
                let _ = self.levels.pop();
                return Ok(self.pass(mark_at_end(text, from, to, b',')));
            }
            _ => return Ok(self.pass(mark_at_end(text, from, to, b','))),
        }
        Ok(None)
    }

    /// The fault at a token that isn't due.
    fn fault(&self, text: &[u8], token: Token<'_>, from: usize, to: usize) -> Misplaced {
        match token {
            Token::String(_) if matches!(self.due, Due::Name | Due::NameOrEnd) => {
                (mark_at_end(text, from, to, b',').unwrap_or(to), Due::Colon)
            }
            Token::Key(_) if self.due.is_item() => {
                let place = mark_at_end(text, from, to, b':').unwrap_or(from);
                (place, self.due_behind(false))
            }
            Token::Bad if self.due.is_item() && text.get(to) == Some(&b'"') => {
                fault_in_text(text, to)
            }
            Token::Bad => (to, self.due),
            _ => (from, self.due),
        }
    }
}

/// Whether the reader of lines has no room for a number.
fn is_beyond(alloc: Global, number: &str) -> Result<bool, AllocError> {
    match Value::from_str(alloc, number) {
        Ok(_) => Ok(false),
        Err(error) if error.is_memory() => Err(AllocError),
        Err(_) => Ok(true),
    }
}

/// The limit of the reader of lines that a token within `levels` objects and lists passes, if it does.
fn limit_passed(alloc: Global, levels: usize, token: Token<'_>) -> Result<Option<Due>, AllocError> {
    match token {
        Token::BeginObject | Token::BeginArray if levels >= MAX_LEVELS => Ok(Some(Due::Shallow)),
        Token::Number(number) if is_beyond(alloc, number)? => Ok(Some(Due::Range)),
        _ => Ok(None),
    }
}

/// Whether `count` octets from a place on are hexadecimal digits.
fn are_digits(text: &[u8], from: usize, count: usize) -> bool {
    let digits = text.iter().skip(from).take(count);
    digits.filter(|octet| octet.is_ascii_hexdigit()).count() == count
}

/// The first fault of a text in quotation marks, by the place of its opening one.
fn fault_in_text(text: &[u8], from: usize) -> Misplaced {
    let mut is_escape = false;
    for (number, octet) in text.iter().enumerate().skip(from).skip(1) {
        match *octet {
            b'u' if is_escape && are_digits(text, number.saturating_add(1), 4) => {
                is_escape = false;
            }
            b'"' | b'\\' | b'/' | b'b' | b'f' | b'n' | b'r' | b't' if is_escape => {
                is_escape = false;
            }
            _ if is_escape => return (number, Due::Escape),
            b'\\' => is_escape = true,
            b'"' => return (from, Due::Pairs),
            octet if octet < b' ' => return (number, Due::Character),
            _ => {}
        }
    }
    (text.len(), Due::Quote)
}

/// The first octet of a text that doesn't fit, if it is found here. Takes memory.
pub(crate) fn first_fault(alloc: Global, text: &str) -> Result<Option<Misplaced>, AllocError> {
    let mut scratch = Scratch::new(alloc);
    let mut reader = Reader::new(text, &mut scratch)?;
    let text = text.as_bytes();
    let mut syntax = Syntax {
        levels: Vec::new(alloc),
        due: Due::Object,
    };
    for _ in 0..=text.len() {
        let from = reader.offset();
        let token = match (reader.next(), syntax.due) {
            (Some(token), _) => token,
            (None, Due::Nothing) => return Ok(None),
            (None, due) => return Ok(Some((text.len(), due))),
        };
        let to = reader.offset();
        if !is_due(syntax.due, token) {
            return Ok(Some(syntax.fault(text, token, from, to)));
        }
        if let Some(limit) = limit_passed(alloc, syntax.levels.len(), token)? {
            return Ok(Some((from, limit)));
        }
        if let Some(fault) = syntax.take(text, token, from, to)? {
            return Ok(Some(fault));
        }
    }
    Ok(None)
}

/// Whether a character may stand in a word that is shown whole.
fn is_of_word(character: char) -> bool {
    character.is_ascii_graphic() && !matches!(character, ',' | ':' | '{' | '}' | '[' | ']' | '"')
}

/// The most characters of a word that are shown.
const MOST_SHOWN: usize = 20;

/// The word at the front of a text, or the mark there.
fn word_of(text: &str) -> &str {
    let count = text
        .chars()
        .take(MOST_SHOWN + 1)
        .take_while(|character| is_of_word(*character))
        .count();
    text.get(..count.max(1)).unwrap_or(text)
}

/// Writes which character or word stands at the front of a text.
fn write_front(message: &mut Message, text: &str) {
    match text.chars().next() {
        None => message.text("the line ends"),
        Some('\u{feff}') => {
            message.text("a byte order mark (U+FEFF), which has to be left out, stands");
        }
        Some('"') => message.text("'\"' stands"),
        Some(first) if !first.is_ascii_graphic() => {
            message.text("the character U+");
            message.code(first);
            message.text(" stands");
        }
        Some(_) => {
            message.word(word_of(text));
            message.text(" stands");
        }
    }
}

/// Writes, of a text that isn't JSON, what stands at the first octet that doesn't fit, and what is expected there. It
/// is also used where a limit of the reader of lines is passed.
pub(crate) fn write_misplaced(message: &mut Message, text: &str, (place, due): Misplaced) {
    write_front(message, text.get(place..).unwrap_or(""));
    message.text(" where ");
    message.text(due.text());
    message.text(" is expected");
    match due {
        Due::Nothing => message.text(": a line holds one object"),
        Due::Object => {}
        _ if place >= text.len() => {
            message.text(": a line holds a whole object, up to its last '}'");
        }
        _ => {}
    }
}
