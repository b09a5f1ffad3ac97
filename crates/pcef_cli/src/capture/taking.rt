//! Lines for the packets of sessions, and their times.

use crate::capture::counts::{Counts, Outcome};
use crate::capture::looking::{Look, Sides, look_into};
use crate::capture::sessions::Sessions;
use crate::capture::stopped::Stopped;
use pcef_capture_file::{Packet, Time, ip_of, padded};
use pcef_capture_script::{End, Packets, write_flush_line, write_take_line};
use pcef_packet::Dir;
use std::alloc::Global;
use std::io::{self, Write};

/// What is taken, and what was taken so far.
#[derive(Drop)]
pub(crate) struct Taking {
    pub sessions: Sessions,
    pub packets: Packets,
    /// Whether packets that were recorded in part are padded.
    pub pads: bool,
    pub counts: Counts,
}

/// Where lines and times are written.
#[derive(Drop)]
pub(crate) struct Output<W: Write + Drop, T: Write + Drop> {
    pub lines: W,
    pub times: Option<T>,
}

impl<W: Write + Drop, T: Write + Drop> Output<W, T> {
    /// Writes out all lines and times so far.
    pub(crate) fn flush(&mut self) -> Result<(), Stopped> {
        if let Err(error) = self.lines.flush() {
            return Err(Stopped::at_write(error));
        }
        match &mut self.times {
            Some(times) => match times.flush() {
                Ok(()) => Ok(()),
                Err(error) => Err(Stopped::at_times(error)),
            },
            None => Ok(()),
        }
    }
}

/// Writes the name before a session's line, if it has one.
fn write_name<W: Write>(writer: &mut W, name: Option<&str>) -> io::Result<()> {
    match name {
        Some(name) => write!(writer, "{name} "),
        None => Ok(()),
    }
}

/// Writes the line of a flush.
fn write_flush<W: Write>(writer: &mut W, name: Option<&str>, worker: u8) -> io::Result<()> {
    write_name(writer, name)?;
    write_flush_line(writer, worker)
}

/// Writes the line of a packet for a session, and that of a flush where it is the last of a batch.
fn write_take<W: Write>(
    alloc: Global,
    writer: &mut W,
    sessions: &mut Sessions,
    number: usize,
    dir: Dir,
    octets: &[u8],
) -> io::Result<()> {
    let Some(turn) = sessions.turn(number) else {
        return Ok(());
    };
    let worker = turn.worker;
    let full = turn.take();
    let name = sessions.name(number);
    write_name(writer, name)?;
    write_take_line(alloc, writer, worker, dir, octets)?;
    match full {
        Some(worker) => write_flush(writer, name, worker),
        None => Ok(()),
    }
}

/// Writes the lines of the flushes of all sessions whose packets wait.
pub(crate) fn write_rest<W: Write>(writer: &mut W, sessions: &mut Sessions) -> io::Result<()> {
    for number in 0..sessions.len() {
        let Some(turn) = sessions.turn(number) else {
            return Ok(());
        };
        if turn.waiting > 0 {
            let worker = turn.worker;
            write_flush(writer, sessions.name(number), worker)?;
        }
    }
    Ok(())
}

/// Writes the line of a packet's time.
fn write_time<T: Write>(times: &mut T, time: Time, frame: u64) -> io::Result<()> {
    writeln!(times, "{}.{:09} {frame}", time.seconds, time.nanoseconds)
}

/// Writes the line of the time of a packet, if times are wanted.
fn put_time<T: Write>(
    times: &mut Option<T>,
    time: Option<Time>,
    frame: u64,
) -> Result<(), Stopped> {
    let Some(times) = times else {
        return Ok(());
    };
    let Some(time) = time else {
        return Err(Stopped::NoTime(frame));
    };
    match write_time(times, time, frame) {
        Ok(()) => Ok(()),
        Err(error) => Err(Stopped::at_times(error)),
    }
}

/// A packet, with the time of its frame.
#[derive(Clone, Copy)]
struct Timed<'a> {
    octets: &'a [u8],
    time: Option<Time>,
}

impl Taking {
    /// Writes the lines of a packet for one session.
    fn put<W: Write + Drop, T: Write + Drop>(
        &mut self,
        alloc: Global,
        output: &mut Output<W, T>,
        number: usize,
        dir: Dir,
        packet: Timed<'_>,
    ) -> Result<(), Stopped> {
        let frame = self.counts.read.saturating_add(1);
        put_time(&mut output.times, packet.time, frame)?;
        let sessions = &mut self.sessions;
        match write_take(
            alloc,
            &mut output.lines,
            sessions,
            number,
            dir,
            packet.octets,
        ) {
            Ok(()) => Ok(()),
            Err(error) => Err(Stopped::at_write(error)),
        }
    }

    /// Writes the lines of a packet for its sessions: first that of the session it comes from.
    fn put_both<W: Write + Drop, T: Write + Drop>(
        &mut self,
        alloc: Global,
        output: &mut Output<W, T>,
        sides: Sides,
        packet: Timed<'_>,
    ) -> Result<Outcome, Stopped> {
        if let Some(number) = sides.from {
            self.put(alloc, output, number, Dir::Up, packet)?;
        }
        if let Some(number) = sides.to {
            self.put(alloc, output, number, Dir::Down, packet)?;
        }
        Ok(Outcome::Taken)
    }

    /// Writes the lines of a packet that was recorded in part, with zeros for the rest.
    fn put_padded<W: Write + Drop, T: Write + Drop>(
        &mut self,
        alloc: Global,
        output: &mut Output<W, T>,
        packet: Timed<'_>,
    ) -> Result<Outcome, Stopped> {
        let Ok(whole) = padded(alloc, packet.octets) else {
            return Err(Stopped::End(End::NoMemory));
        };
        match look_into(&self.sessions, self.packets, whole.as_slice()) {
            Look::Packet(sides, octets) => {
                let time = packet.time;
                self.put_both(alloc, output, sides, Timed { octets, time })
            }
            Look::NotWhole | Look::Nothing(Outcome::NotIp) => Ok(Outcome::Cut),
            Look::Nothing(outcome) => Ok(outcome),
        }
    }

    /// Writes the lines of a frame's packet, if it is of a session.
    fn put_frame<W: Write + Drop, T: Write + Drop>(
        &mut self,
        alloc: Global,
        output: &mut Output<W, T>,
        frame: &Packet<'_>,
    ) -> Result<Outcome, Stopped> {
        let Some(octets) = ip_of(frame) else {
            return Ok(Outcome::NotIp);
        };
        let time = frame.time;
        let is_cut = frame.octets.len() < frame.original as usize;
        match look_into(&self.sessions, self.packets, octets) {
            Look::Packet(sides, octets) => {
                self.put_both(alloc, output, sides, Timed { octets, time })
            }
            Look::NotWhole if !is_cut => Ok(Outcome::NotIp),
            Look::NotWhole if self.pads => self.put_padded(alloc, output, Timed { octets, time }),
            Look::NotWhole => Ok(Outcome::Cut),
            Look::Nothing(outcome) => Ok(outcome),
        }
    }

    /// Writes the lines of a frame's packet, if it is of a session, and counts the frame.
    pub(crate) fn take<W: Write + Drop, T: Write + Drop>(
        &mut self,
        alloc: Global,
        output: &mut Output<W, T>,
        frame: &Packet<'_>,
    ) -> Result<(), Stopped> {
        let outcome = self.put_frame(alloc, output, frame)?;
        self.counts.count(outcome);
        Ok(())
    }
}
