//! `pcef capture`, which writes the packets of a capture as lines of a script, while it reads it.
//!
//! `pcef capture --ue ADDRESS [--workers N] [--batch N] [--pad] [--gtp] [--teid N] [--times FILE] FILE` writes a `take`
//! line for each packet from or to the session of the address, and a `flush` line after each batch and at the end.
//! With `--sessions MAP` in the place of `--ue` it does so for each session of a map, with the session's name before
//! each line. FILE `-` is standard input. The counts of frames are printed on standard error.

mod counts;
mod following;
mod hint;
mod looking;
mod map;
mod report;
mod sessions;
mod stopped;
mod taking;

ghost use Rattle.std.specs.Prelude.{◌≡◌, ◌≤◌, [], IfErr};

use crate::asked::{CAPTURE, Call};
use crate::capture::counts::Counts;
use crate::capture::following::follow;
use crate::capture::map::{MapFault, read_map};
use crate::capture::report::{Asked, report_counts, report_end, report_map, report_read};
use crate::capture::sessions::Sessions;
use crate::capture::stopped::Stopped;
use crate::capture::taking::{Output, Taking};
use crate::command_line::{gather, refuse, refuse_usage, report_no_memory};
use pcef_base::{Fused, Progress, Watched};
use pcef_capture_file::CaptureFault;
use pcef_capture_script::{
    Counts as ScriptCounts, End, Options, Packets, Plan, Request, Turn, Users, parse_options,
    write_capture,
};
use pcef_packet::Addr;
use std::fs::{self, File};
use std::io::{self, BufWriter, Read, Write};

/// The end of the program up to the end of the capture, or its fault.
fn end_at(fault: Option<CaptureFault>) -> Stopped {
    match fault {
        Some(fault) => Stopped::End(End::Capture(fault)),
        None => Stopped::End(End::Done),
    }
}

/// The counts of frames without tunnels.
fn plain_counts(counts: &ScriptCounts) -> Counts {
    Counts {
        read: counts.read,
        taken: counts.taken,
        not_ip: counts.not_ip,
        cut: counts.cut,
        neither: counts.neither,
        ..Counts::default()
    }
}

/// Writes the lines for one session to the writer, and flushes it.
fn write_script<R: Read, W: Write>(
    rt: &HostRuntime,
    asked: &Asked<'_>,
    plan: &Plan,
    waiting: &mut Vec<u8>,
    reader: &mut R,
    writer: &mut W,
) -> Stopped
    requires { waiting.old.items ≡ [] }
{
    let ended = write_capture(rt.alloc(), plan, waiting, reader, writer);
    let flushed = writer.flush();
    let (counts, fault) = match ended {
        Ok(ended) => ended,
        Err(end) => return Stopped::End(end),
    };
    if let Err(error) = flushed {
        return Stopped::at_write(error);
    }
    report_counts(rt, asked, &plain_counts(&counts));
    end_at(fault)
}

/// Writes the lines for sessions, and the times that are wanted.
fn write_sessions<R: Read, W: Write + Drop, T: Write + Drop>(
    rt: &HostRuntime,
    asked: &Asked<'_>,
    taking: &mut Taking,
    waiting: &mut Vec<u8>,
    reader: &mut R,
    output: &mut Output<W, T>,
) -> Stopped
    requires { waiting.old.items ≡ [] }
{
    match follow(rt.alloc(), taking, waiting, reader, output) {
        Ok(fault) => {
            report_counts(rt, asked, &taking.counts);
            end_at(fault)
        }
        Err(stopped) => {
            let _ = output.flush();
            stopped
        }
    }
}

/// What is done with a capture.
#[derive(Drop)]
enum Work<'a> {
    /// A script for one session.
    Script(Plan),
    /// Lines for sessions, and their times in the file of this path.
    Sessions(Taking, Option<&'a str>),
}

/// The file for times, if they are wanted.
fn times_of(rt: &HostRuntime, path: Option<&str>) -> io::Result<Option<BufWriter<Fused<File>>>> {
    match path {
        Some(path) => {
            let file = File::create(rt, path)?;
            Ok(Some(BufWriter::new(rt.alloc(), Fused::new(file))?))
        }
        None => Ok(None),
    }
}

/// Does the work on what is read, and leaves in `waiting` the octets that have no lines.
fn write<R: Read>(
    rt: &HostRuntime,
    asked: &Asked<'_>,
    work: Work<'_>,
    waiting: &mut Vec<u8>,
    reader: &mut R,
) -> Stopped
    requires { waiting.old.items ≡ [] }
{
    let Ok(lines) = BufWriter::new(rt.alloc(), Fused::new(io::writer(rt))) else {
        return Stopped::End(End::NoMemory);
    };
    match work {
        Work::Script(plan) => {
            let mut lines = lines;
            write_script(rt, asked, &plan, waiting, reader, &mut lines)
        }
        Work::Sessions(taking, path) => {
            let times = match times_of(rt, path) {
                Ok(times) => times,
                Err(error) => return Stopped::at_times(error),
            };
            let mut taking = taking;
            let mut output = Output { lines, times };
            write_sessions(rt, asked, &mut taking, waiting, reader, &mut output)
        }
    }
}

/// Does the work on a file, or on standard input.
fn run(
    rt: &HostRuntime,
    asked: &Asked<'_>,
    work: Work<'_>,
    path: &str,
    waiting: &mut Vec<u8>,
) -> Stopped
    requires { waiting.old.items ≡ [] }
{
    if path == "-" {
        return write(rt, asked, work, waiting, &mut rt.stdin());
    }
    match File::open(rt, path) {
        Ok(file) => {
            let len = match file.metadata() {
                Ok(metadata) => metadata.len(),
                Err(_) => 0,
            };
            let mut file = Watched::new(file, Progress::new(rt, len));
            write(rt, asked, work, waiting, &mut file)
        }
        Err(error) => Stopped::at_read(error),
    }
}

/// What is said of the options.
fn asked_of<'a>(options: &Options<'a>) -> Asked<'a> {
    Asked {
        file: if options.file == "-" {
            "Standard input"
        } else {
            options.file
        },
        times: options.times.unwrap_or("-"),
        users: match options.users {
            Users::One(_) => "--ue",
            Users::Map(_) => "--sessions",
        },
        pads: options.pads,
        is_gtp: !matches!(options.packets, Packets::OfFrames),
    }
}

/// What is taken for sessions by the options.
fn taking_of(options: &Options<'_>, sessions: Sessions) -> Taking {
    Taking {
        sessions,
        packets: options.packets,
        pads: options.pads,
        counts: Counts::default(),
    }
}

/// The work for one session, or the exit status where there is no memory.
fn work_for_one<'a>(rt: &HostRuntime, options: &Options<'a>, ue: Addr) -> Result<Work<'a>, u8>
    ensures { IfErr result (λ status. status ≤ 4) }
{
    if options.times.is_none() && matches!(options.packets, Packets::OfFrames) {
        return Ok(Work::Script(Plan {
            ue,
            workers: options.workers,
            batch: options.batch,
            pads: options.pads,
        }));
    }
    let turn = Turn::first(options.workers, options.batch);
    match Sessions::one(rt.alloc(), ue, turn) {
        Ok(sessions) => Ok(Work::Sessions(taking_of(options, sessions), options.times)),
        Err(_) => Err(report_no_memory(rt)),
    }
}

/// The work for the sessions of a map, or the exit status where the map is at fault.
fn work_for_map<'a>(rt: &HostRuntime, options: &Options<'a>, path: &str) -> Result<Work<'a>, u8>
    ensures { IfErr result (λ status. status ≤ 4) }
{
    let octets = match fs::read(rt, path) {
        Ok(octets) => octets,
        Err(error) => return Err(report_read(rt, path, &error)),
    };
    let turn = Turn::first(options.workers, options.batch);
    match read_map(rt.alloc(), octets.as_slice(), turn) {
        Ok(sessions) => Ok(Work::Sessions(taking_of(options, sessions), options.times)),
        Err(faulty) if faulty.fault == MapFault::NoMemory => Err(report_no_memory(rt)),
        Err(faulty) => Err(report_map(rt, path, faulty)),
    }
}

/// Whether the times would be written over what is read.
fn overwrites(options: &Options<'_>) -> bool {
    let Some(times) = options.times else {
        return false;
    };
    times == options.file || matches!(options.users, Users::Map(path) if path == times)
}

/// Does what the options ask for, and returns the exit status.
fn work_on(rt: &HostRuntime, options: &Options<'_>) -> u8
    ensures { result ≤ 4 }
{
    if overwrites(options) {
        return refuse_usage(rt, "--times names a file that is read");
    }
    let work = match options.users {
        Users::One(ue) => work_for_one(rt, options, ue),
        Users::Map(path) => work_for_map(rt, options, path),
    };
    let work = match work {
        Ok(work) => work,
        Err(status) => return status,
    };
    let asked = asked_of(options);
    let mut waiting = Vec::new(rt.alloc());
    let stopped = run(rt, &asked, work, options.file, &mut waiting);
    report_end(rt, &asked, &stopped, waiting.as_slice())
}

/// Does what the words ask for, and returns the exit status.
fn work_for(rt: &HostRuntime, words: &[String]) -> u8
    ensures { result ≤ 4 }
{
    match parse_options(rt.alloc(), words) {
        Ok(Some(Request::Options(options))) => work_on(rt, &options),
        Ok(Some(Request::NoAddress(text))) => {
            let _ = eprintln!(rt;
                "usage: --ue {text:?}: an address is expected, as 10.0.0.2 or 2001:db8::2"
            );
            2
        }
        Ok(Some(Request::NoUsers)) => {
            refuse_usage(rt, "--ue ADDRESS or --sessions MAP is expected")
        }
        Ok(Some(Request::TwoUsers)) => refuse_usage(rt, "--ue and --sessions exclude each other"),
        Ok(None) => refuse_usage(rt, "an option has no value"),
        Err(error) => refuse(rt, CAPTURE, &error),
    }
}

/// Does what the words of a call ask for, and returns the exit status.
pub(crate) fn answer(rt: &HostRuntime, call: Call) -> u8
    ensures { result ≤ 4 }
{
    match gather(rt, call) {
        Ok(words) => work_for(rt, words.as_slice()),
        Err(status) => status,
    }
}
