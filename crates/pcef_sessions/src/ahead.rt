//! Memory that lines need, read before the first of them is answered. What many sessions touch isn't in the caches, and
//! the processor waits for the memory of some sessions at once, where each line would wait for its own. What is read says
//! nothing, and no answer depends on it.

use crate::frame::parts;
use crate::front::{Front, front_of};
use crate::held::Held;
use crate::name::{at_space, name_of};
use crate::sessions::Sessions;
use memchr::memchr;
use pcef_session::SessionState;
use pcef_table::{Source, TableEntry};
use pcef_world::{WorldState, WorldWorker};

/// The sessions of so many lines are read at once: what they touch fits into the caches.
const AHEAD: usize = 32;

/// What fewer sessions touch stays in the caches.
const FEW: usize = 512;

/// So many of a table's first rules are read.
const MOST_RULES: usize = 4;

/// So many of a session's first workers are read.
const MOST_WORKERS: u8 = 2;

/// What octets hold.
#[derive(Clone, Copy)]
pub(crate) enum Input {
    /// Lines.
    Lines,
    /// Frames.
    Frames,
}

/// Reads octets of a rule.
fn read_rule(entry: &TableEntry) -> u64 {
    let Source::Dynamic(rule) = &entry.source else {
        return 0;
    };
    let Some(filter) = rule.filters().first() else {
        return 0;
    };
    let name = rule.properties().name.as_str().len() as u64;
    let ports = filter.source.ports.len() ^ filter.target.ports.len();
    name ^ ports as u64 ^ u64::from(filter.proto.is_some())
}

/// Reads octets of the table that a worker holds, and of the row that waits last.
fn read_worker(worker: &WorldWorker) -> u64 {
    let mut sum = 0;
    for entry in worker.held.table().entries().iter().take(MOST_RULES) {
        sum ^= read_rule(entry);
    }
    match worker.waiting.items().last() {
        Some(item) => sum ^ item.row.seq,
        None => sum,
    }
}

/// Reads octets of what a session counts.
fn read_session(session: &SessionState) -> u64 {
    let journal = session.journal();
    u64::from(session.generation()) ^ journal.rows_len() ^ journal.forgotten()
}

/// Reads octets of what the next lines of a session touch.
pub(crate) fn read_world(world: &WorldState) -> u64 {
    let mut sum = read_session(world.session());
    for number in 0..MOST_WORKERS {
        if let Some(worker) = world.worker(number) {
            sum ^= read_worker(worker);
        }
    }
    sum
}

/// Reads octets of what the next lines of sessions touch, all of them found before.
fn read_all(found: &[Option<&Held>; AHEAD]) -> u64 {
    let mut sum = 0;
    for held in found {
        if let Some(held) = held {
            sum ^= held.read();
        }
    }
    sum
}

/// The session that a line is for, if there is one.
fn named<'a>(sessions: &'a Sessions, line: &[u8]) -> Option<&'a Held> {
    let (name, _) = at_space(line)?;
    sessions.find(&name_of(name)?)
}

/// The session that a frame is for, if there is one.
fn named_by<'a>(sessions: &'a Sessions, frame: &[u8]) -> Option<&'a Held> {
    let (name, _, _) = parts(frame)?;
    sessions.find(&name_of(name)?)
}

/// Reads octets of what the first lines of a block touch.
fn read_for_lines(sessions: &Sessions, block: &[u8]) -> u64 {
    let mut found = [None; AHEAD];
    let mut rest = block;
    for place in 0..AHEAD {
        let Some(end) = memchr(b'\n', rest) else {
            break;
        };
        found[place] = named(sessions, rest.split_at(end).0);
        rest = rest.split_at(end + 1).1;
    }
    read_all(&found)
}

/// Reads octets of what the first of some frames touch.
fn read_for_frames(sessions: &Sessions, octets: &[u8]) -> u64 {
    let mut found = [None; AHEAD];
    let mut rest = octets;
    for place in 0..AHEAD {
        let Front::Whole(frame, others) = front_of(rest) else {
            break;
        };
        found[place] = named_by(sessions, frame);
        rest = others;
    }
    read_all(&found)
}

/// Reads ahead of the next lines or frames in some octets, unless that was done for `left` of them. Returns for how many
/// behind the first one it is done then. Takes no memory.
pub(crate) fn read_ahead(
    left: usize,
    read: &mut u64,
    sessions: &Sessions,
    input: Input,
    octets: &[u8],
) -> usize {
    if left > 0 {
        return left - 1;
    }
    if !sessions.are_below(FEW) {
        *read = match input {
            Input::Lines => read_for_lines(sessions, octets),
            Input::Frames => read_for_frames(sessions, octets),
        };
    }
    AHEAD - 1
}
