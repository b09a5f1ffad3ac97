//! One session among the lines of many.

use crate::fault::Fault;
use crate::session_times::SessionTimes;
use crate::source::{FileLines, is_blank};
use serde_json::Value;
use std::alloc::{AllocError, Global};
use std::str;

/// What stands behind the name of a session and a space, if the line is the session's.
fn rest_of<'a>(line: &'a [u8], name: &str) -> Option<&'a [u8]> {
    let (front, rest) = line.split_at_checked(name.len())?;
    if front != name.as_bytes() {
        return None;
    }
    let (space, rest) = rest.split_at_checked(1)?;
    if space == b" ".as_slice() {
        Some(rest)
    } else {
        None
    }
}

/// The lines of a session in a file, each in its place and without the name: all others are empty. The times of its
/// packets are read beside it. Takes memory for the session's lines, and an octet for each of the others.
pub(crate) fn own_text<'a>(
    rt: &HostRuntime,
    file: &'a str,
    name: &str,
    times: &mut SessionTimes<'a>,
) -> Result<Vec<u8>, Fault<'a>> {
    let mut lines = match FileLines::open(rt, file) {
        Ok(lines) => lines,
        Err(error) => return Err(Fault::at_read(file, error)),
    };
    let mut text = Vec::new(rt.alloc());
    for number in 1..u64::MAX {
        let line = match lines.next() {
            Ok(Some(line)) => line,
            Ok(None) => break,
            Err(error) => return Err(Fault::at_read(file, error)),
        };
        let own = rest_of(line, name);
        times.take(rt, number, line, own.is_some());
        if let Some(own) = own {
            text.extend_from_slice(own)?;
        }
        text.push(b'\n')?;
    }
    Ok(text)
}

/// A line of the session.
#[derive(Clone, Copy)]
struct Own<'a> {
    /// Its number among all lines, from 1.
    number: u64,
    line: &'a [u8],
}

/// The lines that aren't blank.
fn filled<'a>(alloc: Global, text: &'a [u8]) -> Result<Vec<Own<'a>>, AllocError> {
    let mut own = Vec::new(alloc);
    let mut number = 0u64;
    for line in text.split(|octet| *octet == b'\n') {
        number = number.saturating_add(1);
        if !is_blank(line) {
            own.push(Own { number, line })?;
        }
    }
    Ok(own)
}

/// The text in which the lines before the one of this number are empty.
fn text_from(alloc: Global, text: &[u8], first: u64) -> Result<Vec<u8>, AllocError> {
    let mut kept = Vec::new(alloc);
    let mut number = 0u64;
    for line in text.split(|octet| *octet == b'\n') {
        number = number.saturating_add(1);
        if number >= first {
            kept.extend_from_slice(line)?;
        }
        kept.push(b'\n')?;
    }
    Ok(kept)
}

/// The address that an `open` line gives, empty where it gives none, or no text where the line is none.
fn opened(alloc: Global, line: &[u8]) -> Result<Option<String>, AllocError> {
    let Ok(text) = str::from_utf8(line) else {
        return Ok(None);
    };
    let value = match Value::from_str(alloc, text) {
        Ok(value) => value,
        Err(error) if error.is_memory() => return Err(AllocError),
        Err(_) => return Ok(None),
    };
    if value.get("do").and_then(Value::as_str) != Some("open") {
        return Ok(None);
    }
    let address = value.get("ue").and_then(Value::as_str).unwrap_or("");
    Ok(Some(String::from_str(alloc, address)?))
}

/// The last session of a name: its lines and answers, as of a session alone.
pub(crate) struct OneSession {
    /// Its lines, from its `open` on.
    pub lines: Vec<u8>,
    /// Their answers.
    pub answers: Vec<u8>,
    /// The number of its `open` line, from 1.
    pub first: u64,
    /// The address that its `open` gave, or an empty text.
    pub address: String,
}

// Written out, so that an owner proves one call on each return path.
impl Drop for OneSession {
    fn drop(self) {
        let OneSession {
            lines: _,
            answers: _,
            first: _,
            address: _,
        } = self;
    }
}

impl OneSession {
    /// The address that its `open` gave, or this one where it gave none.
    pub(crate) fn address_or(self, other: Option<String>) -> Option<String> {
        let OneSession {
            lines: _,
            answers: _,
            first: _,
            address,
        } = self;
        if address.is_empty() {
            other
        } else {
            Some(address)
        }
    }
}

/// The answer to an `open` line that was done.
const DONE: &[u8] = b"{\"ok\":true}";

/// Where the last session of a name begins: the numbers of its `open` line and of the answer, and its address.
#[derive(Drop)]
struct Beginning {
    line: u64,
    answer: u64,
    address: String,
}

/// The beginning of the last session, among the lines of its name and their answers.
fn last_beginning(
    alloc: Global,
    lines: &[Own<'_>],
    answers: &[Own<'_>],
) -> Result<Option<Beginning>, AllocError> {
    let mut found = None;
    for (own, answer) in lines.iter().zip(answers) {
        if answer.line.trim_ascii() == DONE {
            if let Some(address) = opened(alloc, own.line)? {
                found = Some(Beginning {
                    line: own.number,
                    answer: answer.number,
                    address,
                });
            }
        }
    }
    Ok(found)
}

/// The last session of a name, if one was opened, by the lines and the answers under this name. Takes memory for them.
pub(crate) fn one_session(
    alloc: Global,
    lines: &[u8],
    answers: &[u8],
) -> Result<Option<OneSession>, AllocError> {
    let own = filled(alloc, lines)?;
    let told = filled(alloc, answers)?;
    let Some(begin) = last_beginning(alloc, own.as_slice(), told.as_slice())? else {
        return Ok(None);
    };
    let Beginning {
        line,
        answer,
        address,
    } = begin;
    Ok(Some(OneSession {
        lines: text_from(alloc, lines, line)?,
        answers: text_from(alloc, answers, answer)?,
        first: line,
        address,
    }))
}
