//! What the files say.

use crate::fault::Fault;
use crate::session::{OneSession, one_session, own_text};
use crate::session_times::SessionTimes;
use crate::source::Collecting;
use crate::sources::Sources;
use crate::{CollectFault, Figures, Stamp, TimesFault, collect, read_times};
use std::alloc::{AllocError, Global};
use std::io::{self, Read};
use std::{fs, str};
use toml::Value;

/// What the files say.
#[derive(Drop)]
pub struct Input {
    /// The figures of the session.
    pub figures: Figures,
    /// The times of its packets, where they are given.
    pub stamps: Option<Vec<Stamp>>,
    /// Its address, where it is known.
    pub address: Option<String>,
}

/// The octets of a file, or of standard input.
fn octets_in(rt: &HostRuntime, file: &str) -> io::Result<Vec<u8>> {
    if file != "-" {
        return fs::read(rt, file);
    }
    let mut octets = Vec::new(rt.alloc());
    rt.stdin().read_to_end(&mut octets)?;
    Ok(octets)
}

/// The octets of a file, or of standard input.
fn octets_of<'a>(rt: &HostRuntime, file: &'a str) -> Result<Vec<u8>, Fault<'a>> {
    match octets_in(rt, file) {
        Ok(octets) => Ok(octets),
        Err(error) => Err(Fault::at_read(file, error)),
    }
}

/// Guesses why lines and answers don't belong together: a line of text behind a line feed, or nothing.
fn hint_of(lines: &[u8], answers: &[u8]) -> &'static str {
    for octets in &[lines, answers] {
        if octets.starts_with(b"\xff\xfe") || octets.starts_with(b"\xfe\xff") {
            return "\na file in UTF-16 has to be saved as UTF-8 before";
        }
    }
    if answers.starts_with(b"{\"do\":") {
        return "\nthe answers are lines of a script: are the files exchanged?";
    }
    ""
}

/// Collects the figures from lines and answers.
fn collect_figures<'a>(
    rt: &HostRuntime,
    sources: Sources<'a>,
    lines: &[u8],
    answers: &[u8],
) -> Result<Figures, Fault<'a>> {
    let mut watch = Collecting::new(rt, lines.len().saturating_add(answers.len()));
    let figures = collect(rt.alloc(), lines, answers, &mut watch);
    watch.end();
    match figures {
        Ok(figures) => Ok(figures),
        Err(CollectFault::NoMemory) => Err(Fault::NoMemory),
        Err(fault) => Err(Fault::Apart(sources, fault, hint_of(lines, answers))),
    }
}

/// The times of the packets of these lines.
fn stamps_of<'a>(
    alloc: Global,
    file: &'a str,
    lines: &[u8],
    times: &[u8],
) -> Result<Vec<Stamp>, Fault<'a>> {
    match read_times(alloc, lines, times) {
        Ok(stamps) => Ok(stamps),
        Err(TimesFault::NoMemory) => Err(Fault::NoMemory),
        Err(fault) => Err(Fault::Times(file, fault)),
    }
}

/// The lines of the session that is asked for, among those of many, with their answers.
fn session_in<'a>(
    rt: &HostRuntime,
    sources: Sources<'a>,
    name: &'a str,
    times: &mut SessionTimes<'a>,
) -> Result<OneSession, Fault<'a>> {
    let lines = own_text(rt, sources.lines, name, times)?;
    let mut no_times = SessionTimes::open(rt, None);
    let answers = own_text(rt, sources.answers, name, &mut no_times)?;
    match one_session(rt.alloc(), &lines, &answers)? {
        Some(session) => Ok(session),
        None => Err(Fault::NoSession(name, sources.lines)),
    }
}

/// The address that a profile gives.
fn address_in(alloc: Global, octets: &[u8]) -> Result<Option<String>, AllocError> {
    let Ok(text) = str::from_utf8(octets) else {
        return Ok(None);
    };
    let table = match toml::table_from_str(alloc, text) {
        Ok(table) => table,
        Err(error) if error.is_memory() => return Err(AllocError),
        Err(_) => return Ok(None),
    };
    match table.get("ue").and_then(Value::as_str) {
        Some(address) => Ok(Some(String::from_str(alloc, address)?)),
        None => Ok(None),
    }
}

/// The address of the profile, where one is given.
fn profile_address<'a>(
    rt: &HostRuntime,
    sources: Sources<'a>,
) -> Result<Option<String>, Fault<'a>> {
    let Some(file) = sources.profile else {
        return Ok(None);
    };
    let octets = octets_of(rt, file)?;
    match address_in(rt.alloc(), &octets)? {
        Some(address) => Ok(Some(address)),
        None => Err(Fault::Profile(file)),
    }
}

/// Collects what the lines and answers of one session say.
fn input_of<'a>(
    rt: &HostRuntime,
    sources: Sources<'a>,
    lines: &[u8],
    answers: &[u8],
) -> Result<Input, Fault<'a>> {
    let figures = collect_figures(rt, sources, lines, answers)?;
    let stamps = match sources.times {
        Some(file) => Some(stamps_of(rt.alloc(), file, lines, &octets_of(rt, file)?)?),
        None => None,
    };
    Ok(Input {
        figures,
        stamps,
        address: profile_address(rt, sources)?,
    })
}

/// Collects what the lines and answers of a session among many say.
fn input_of_session<'a>(
    rt: &HostRuntime,
    sources: Sources<'a>,
    name: &'a str,
) -> Result<Input, Fault<'a>> {
    let mut times = SessionTimes::open(rt, sources.times);
    let session = session_in(rt, sources, name, &mut times)?;
    let figures = collect_figures(rt, sources, &session.lines, &session.answers)?;
    let stamps = times.stamps_from(session.first)?;
    let profile = profile_address(rt, sources)?;
    Ok(Input {
        figures,
        stamps,
        address: session.address_or(profile),
    })
}

/// Whether more than one file is standard input.
fn has_two_inputs(sources: Sources<'_>) -> bool {
    let files = [
        Some(sources.lines),
        Some(sources.answers),
        sources.times,
        sources.profile,
    ];
    files.iter().filter(|file| **file == Some("-")).count() > 1
}

/// Reads the files, and collects what they say. Takes memory for it.
pub fn read<'a>(rt: &HostRuntime, sources: Sources<'a>) -> Result<Input, Fault<'a>> {
    if has_two_inputs(sources) {
        return Err(Fault::TwoInputs);
    }
    if let Some(name) = sources.session {
        return input_of_session(rt, sources, name);
    }
    let lines = octets_of(rt, sources.lines)?;
    let answers = octets_of(rt, sources.answers)?;
    input_of(rt, sources, &lines, &answers)
}
