//! What comes, and what is done for it.

use crate::command_line::or_no_memory;
use crate::gx::end::{End, Stop};
use crate::gx::lines::Lines;
use crate::gx::link::Link;
use crate::gx::member::Effect;
use crate::gx::members::Note;
use crate::gx::naming::{is_blank, named};
use crate::gx::reading::{Arrival, Came, Origin, Readers};
use pcef_gx_node::Numbering;
use pcef_packet::Addr;
use std::alloc::Global;
use std::io::Write;
use std::rt::Clock;
use std::str;
use std::sync::Wait;
use std::thread::Threads;

/// Where requests are numbered from: the clock's number where none is given.
pub(crate) fn numbering_of<T: Clock>(clock: &T, first: Option<u32>) -> Numbering {
    match (first, clock.since_1970()) {
        (Some(next), _) => Numbering { next },
        (None, Ok(time)) => Numbering::at(time.as_secs()),
        (None, Err(_)) => Numbering { next: 1 },
    }
}

/// What was at fault so far, which is printed already.
#[derive(Clone, Copy)]
struct Faults {
    lines: bool,
    sessions: bool,
}

/// Where lines come from, and whether each has the number of its session in front.
#[derive(Clone, Copy)]
pub(crate) struct Feed<'a> {
    pub names: bool,
    pub path: Option<&'a str>,
}

/// A connection, the lines of its sessions, and what was at fault.
#[derive(Drop)]
struct Serving<'a, W: Write + Drop> {
    alloc: Global,
    link: Link<'a, W>,
    lines: Lines,
    names: bool,
    faults: Faults,
}

/// Says what became of a session that isn't opened.
fn say(rt: &HostRuntime, note: Note) {
    let Note { session, effect } = note;
    let _ = match effect {
        Effect::Refused(Some(code)) => {
            eprintln!(rt; "session {session} fault the PCRF refuses it by Result-Code {code}")
        }
        Effect::NotOpened(fault) => eprintln!(rt; "session {session} fault {fault}"),
        _ => eprintln!(rt; "session {session} fault the PCRF refuses it"),
    };
}

impl<'a, W: Write + Drop> Serving<'a, W> {
    /// Says what became of sessions that aren't opened.
    fn say_all(&mut self, rt: &HostRuntime) {
        for _ in 0..self.link.members().len() {
            let Some(note) = self.link.take_note() else {
                return;
            };
            self.faults.sessions = true;
            say(rt, note);
        }
    }

    /// What is answered to a line that is at fault.
    fn answer(&mut self, line: &[u8]) -> Result<Option<Vec<u8>>, Stop> {
        if !self.names {
            return self.link.take_line(0, line);
        }
        if is_blank(line) {
            return Ok(None);
        }
        match named(line, self.link.members().len()) {
            Ok((place, behind)) => self.link.take_line(place, behind),
            Err(answer) => match Vec::from_slice(self.alloc, answer) {
                Ok(answer) => Ok(Some(answer)),
                Err(_) => Err(Stop::NoMemory),
            },
        }
    }

    /// Does the line that is whole now.
    fn end_line(&mut self, rt: &HostRuntime) -> Result<(), Stop> {
        let Ok((line, number)) = self.lines.end() else {
            return Err(Stop::NoMemory);
        };
        if let Some(answer) = self.answer(&line)? {
            self.faults.lines = true;
            let text = str::from_utf8(&answer).unwrap_or("");
            let _ = eprintln!(rt; "line {number} fault {text}");
        }
        Ok(())
    }

    /// Adds a piece of a line.
    fn add_piece(&mut self, piece: &[u8]) -> Result<(), Stop> {
        match self.lines.add(piece) {
            Ok(()) => Ok(()),
            Err(_) => Err(Stop::NoMemory),
        }
    }

    /// Takes octets of lines.
    fn take_lines(&mut self, rt: &HostRuntime, octets: &[u8]) -> Result<(), Stop> {
        for piece in octets.split_inclusive(|octet| *octet == b'\n') {
            match piece.split_last() {
                Some((b'\n', front)) => {
                    self.add_piece(front)?;
                    self.end_line(rt)?;
                }
                _ => self.add_piece(piece)?,
            }
        }
        Ok(())
    }

    /// Does what is due for what came.
    fn take(&mut self, rt: &HostRuntime, arrival: Arrival) -> Result<(), Stop> {
        let Arrival { origin, came } = arrival;
        match (origin, came) {
            (Origin::Peer, Came::Octets(octets)) => {
                let taken = self.link.take(&octets);
                self.say_all(rt);
                taken
            }
            (Origin::Peer, Came::End) => Err(Stop::Ended),
            (Origin::Peer, Came::Fault(error)) => Err(or_no_memory(
                error,
                Stop::NoMemory,
                Stop::Input,
            )),
            (Origin::Lines, Came::Octets(octets)) => self.take_lines(rt, &octets),
            (Origin::Lines, Came::End) if self.lines.has_part() => self.end_line(rt),
            (Origin::Lines, Came::End) => Ok(()),
            (Origin::Lines, Came::Fault(error)) => Err(or_no_memory(
                error,
                Stop::NoMemory,
                Stop::Lines,
            )),
        }
    }

    /// How the program ends by why the connection ended: well, where the session has ended.
    fn end<'b>(self, stop: Stop) -> End<'b> {
        let Serving {
            alloc: _,
            link,
            lines: _,
            names: _,
            faults,
        } = self;
        if stop == Stop::NoMemory || !link.members().are_over() {
            return End::Stopped(stop);
        }
        match faults {
            Faults { sessions: true, .. } => End::Sessions,
            Faults { lines: true, .. } => End::Lines,
            _ => End::Clean,
        }
    }
}

/// Starts to read the lines, once each session is answered.
fn begin_lines<T: Threads + Wait + Drop + Send + Sync + Copy + 'static>(
    starting: T,
    rt: HostRuntime,
    readers: &mut Readers,
    packets: Option<&str>,
) -> Result<(), Stop> {
    match packets {
        Some(path) if !readers.reads_lines() => match readers.read_lines(starting, rt, path) {
            Ok(()) => Ok(()),
            Err(_) => Err(Stop::NoMemory),
        },
        _ => Ok(()),
    }
}

/// Takes what comes until the connection ends.
fn take_all<T: Threads + Wait + Drop + Send + Sync + Copy + 'static, W: Write + Drop>(
    starting: T,
    rt: HostRuntime,
    serving: &mut Serving<'_, W>,
    packets: Option<&str>,
) -> Result<(), Stop> {
    let Ok(mut readers) = Readers::new(rt.alloc()) else {
        return Err(Stop::NoMemory);
    };
    if readers.read_peer(starting, rt).is_err() {
        return Err(Stop::NoMemory);
    }
    for _ in starting.forever() {
        let Some(arrival) = readers.next(&starting) else {
            return Err(Stop::Input);
        };
        let origin = arrival.origin;
        serving.take(&rt, arrival)?;
        if serving.link.members().are_answered() {
            begin_lines(starting, rt, &mut readers, packets)?;
        }
        readers.go_on(&starting, origin);
    }
    Ok(())
}

/// Speaks until the connection ends.
pub(crate) fn serve<'a, T: Threads + Wait + Drop + Send + Sync + Copy + 'static, W: Write + Drop>(
    starting: T,
    rt: HostRuntime,
    link: Link<'_, W>,
    address: Addr,
    feed: Feed<'_>,
) -> End<'a> {
    let mut serving = Serving {
        alloc: rt.alloc(),
        link,
        lines: Lines::new(rt.alloc()),
        names: feed.names,
        faults: Faults {
            lines: false,
            sessions: false,
        },
    };
    let ended = match serving.link.begin(address) {
        Ok(()) => take_all(starting, rt, &mut serving, feed.path),
        Err(stop) => Err(stop),
    };
    match ended {
        Err(stop) => serving.end(stop),
        Ok(()) => serving.end(Stop::Ended),
    }
}
