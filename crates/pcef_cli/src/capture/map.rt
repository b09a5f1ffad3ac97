//! The map of sessions: a line `NAME ADDRESS` for each.

use crate::capture::sessions::{Refusal, Sessions};
use pcef_capture_script::Turn;
use pcef_packet::Addr;
use std::alloc::{AllocError, Global};
use std::str;

/// The most octets of a name.
const MAX_NAME: usize = 64;

/// What is wrong with a map.
#[derive(Clone, Copy, Debug, PartialEq, Eq)]
pub(crate) enum MapFault {
    /// A line has no space behind a name.
    BadLine,
    /// A name has other octets than those from 0x21 to 0x7E, none, or more than 64, or is a dash alone.
    BadName,
    /// What stands behind the space is no address.
    BadAddress,
    /// A name stands in an earlier line, too.
    NameTwice,
    /// An address, or another one of its /64, stands in an earlier line, too.
    AddressTwice,
    /// There is no line with a session.
    NoSessions,
    /// There is no memory left.
    NoMemory,
}

impl MapFault {
    /// The name that is printed.
    pub(crate) fn name(self) -> &'static str {
        match self {
            MapFault::BadLine => "BadLine",
            MapFault::BadName => "BadName",
            MapFault::BadAddress => "BadAddress",
            MapFault::NameTwice => "NameTwice",
            MapFault::AddressTwice => "AddressTwice",
            MapFault::NoSessions => "NoSessions",
            MapFault::NoMemory => "NoMemory",
        }
    }

    /// What it means, in a few words.
    pub(crate) fn message(self) -> &'static str {
        match self {
            MapFault::BadLine => "a line is a session's name, one space, and its address",
            MapFault::BadName => "a name has 1 to 64 octets from 0x21 to 0x7E, and isn't - alone",
            MapFault::BadAddress => "an address is expected, as 10.0.0.2 or 2001:db8::2",
            MapFault::NameTwice => "the name stands in an earlier line, too",
            MapFault::AddressTwice => {
                "the address stands in an earlier line, too; in version 6 so does each one of its /64"
            }
            MapFault::NoSessions => "the map has no session",
            MapFault::NoMemory => "there is no memory left",
        }
    }
}

/// A fault of a map, and the number of its line, from 1 on.
#[derive(Clone, Copy)]
pub(crate) struct FaultyLine {
    pub number: u64,
    pub fault: MapFault,
}

/// Whether a line has nothing but spaces, tabs and CR.
fn is_blank(line: &[u8]) -> bool {
    line.iter()
        .all(|octet| matches!(*octet, b' ' | b'\t' | b'\r'))
}

/// The line without a CR at its end.
fn without_cr(line: &[u8]) -> &[u8] {
    match line.split_last() {
        Some((b'\r', front)) => front,
        _ => line,
    }
}

/// Whether these octets may be a name, as those of pcef many.
fn is_name(octets: &[u8]) -> bool {
    1 <= octets.len()
        && octets.len() <= MAX_NAME
        && octets != b"-".as_slice()
        && octets.iter().all(|octet| matches!(*octet, 0x21..=0x7e))
}

/// A copy of a name.
fn name_of(alloc: Global, octets: &[u8]) -> Result<String, MapFault> {
    if !is_name(octets) {
        return Err(MapFault::BadName);
    }
    let Ok(name) = str::from_utf8(octets) else {
        return Err(MapFault::BadName);
    };
    match String::from_str(alloc, name) {
        Ok(name) => Ok(name),
        Err(_) => Err(MapFault::NoMemory),
    }
}

/// The octets before the first space, and those behind it.
fn split_at_space(line: &[u8]) -> Option<(&[u8], &[u8])> {
    let place = line.iter().position(|octet| *octet == b' ')?;
    let (name, rest) = line.split_at_checked(place)?;
    let (_, address) = rest.split_first()?;
    Some((name, address))
}

/// Adds the session of a line.
fn add_line(
    alloc: Global,
    sessions: &mut Sessions,
    line: &[u8],
    turn: Turn,
) -> Result<(), MapFault> {
    let Some((name, text)) = split_at_space(without_cr(line)) else {
        return Err(MapFault::BadLine);
    };
    let name = name_of(alloc, name)?;
    let Some(address) = Addr::from_text(text) else {
        return Err(MapFault::BadAddress);
    };
    match sessions.add(name, address, turn) {
        Ok(()) => Ok(()),
        Err(Refusal::NameTwice) => Err(MapFault::NameTwice),
        Err(Refusal::AddressTwice) => Err(MapFault::AddressTwice),
        Err(Refusal::NoMemory) => Err(MapFault::NoMemory),
    }
}

/// Reads the sessions of a map's lines, each with this turn, in their order. Blank lines are skipped. The first line at
/// fault is returned. Takes memory for the sessions.
pub(crate) fn read_map(alloc: Global, octets: &[u8], turn: Turn) -> Result<Sessions, FaultyLine> {
    let mut sessions = Sessions::new(alloc);
    let mut number = 0u64;
    for line in octets.split(|octet| *octet == b'\n') {
        number = number.saturating_add(1);
        if is_blank(line) {
            continue;
        }
        if let Err(fault) = add_line(alloc, &mut sessions, line, turn) {
            return Err(FaultyLine { number, fault });
        }
    }
    if sessions.len() == 0 {
        return Err(FaultyLine {
            number,
            fault: MapFault::NoSessions,
        });
    }
    Ok(sessions)
}
