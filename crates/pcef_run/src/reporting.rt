//! What is said of an end on the writer for faults.

ghost use Rattle.std.specs.Prelude.{◌≡◌};
ghost use Rattle.pcef_run.specs.EndWriting.{AppendsSome, WritesEnd, WritesMore, WritesReason};

use crate::end::End;
use crate::mistake::mistake_line;
use crate::words::paths_of;
use pcef_profile::{explain, read_profile};
use pcef_script::put_all;
use std::alloc::{AllocError, Global};
use std::io::{self, Write};

/// Whether a profile can't be read, or has a fault.
fn is_at_fault(alloc: Global, profile: &io::Result<String>) -> bool {
    match profile {
        Ok(text) => read_profile(alloc, text.as_str()).is_err(),
        Err(_) => true,
    }
}

/// What is said of a profile for which the program ends so: a line that names the program and the file, or nothing of
/// another end.
fn profile_line(
    alloc: Global,
    end: &End,
    path: &[u8],
    profile: &io::Result<String>,
) -> Result<String, AllocError> {
    match (end, profile) {
        (End::Profile(fault), Ok(text)) => {
            let path = String::from_utf8_lossy(alloc, path)?;
            let explanation = explain(alloc, text.as_str(), *fault)?;
            format!(in alloc; "pcef: {path}: {explanation}\n")
        }
        (End::NoProfile, Err(error)) => {
            let path = String::from_utf8_lossy(alloc, path)?;
            format!(in alloc; "pcef: {path}: {error}\n")
        }
        _ => Ok(String::new(alloc)),
    }
}

/// What is said of the first profile that has a fault or can't be read: a line, or nothing of another end.
fn profiles_line(
    alloc: Global,
    end: &End,
    words: &[Vec<u8>],
    profiles: &[io::Result<String>],
) -> Result<String, AllocError> {
    if !matches!(end, End::Profile(_) | End::NoProfile) {
        return Ok(String::new(alloc));
    }
    for (path, profile) in paths_of(words).iter().zip(profiles) {
        if is_at_fault(alloc, profile) {
            return profile_line(alloc, end, path.as_slice(), profile);
        }
    }
    Ok(String::new(alloc))
}

/// What is said of words that ask for nothing: a line, or nothing of another end.
fn words_line(alloc: Global, end: &End, words: &[Vec<u8>]) -> Result<String, AllocError> {
    match end {
        End::Usage => mistake_line(alloc, words),
        _ => Ok(String::new(alloc)),
    }
}

/// Writes a text, and returns whether the writer took all of it.
fn put_text<E: Write>(text: &str, faults: &mut E) -> bool
    ensures { AppendsSome (E.contents faults.old) (E.contents faults.new) }
{
    put_all(faults, text.as_bytes()).is_ok()
}

/// Writes a line, where there was memory for it, and returns whether the writer took all of it.
fn put_line<E: Write>(line: Result<String, AllocError>, faults: &mut E) -> bool
    ensures { AppendsSome (E.contents faults.old) (E.contents faults.new) }
{
    match line {
        Ok(line) => put_text(line.as_str(), faults),
        Err(_) => true,
    }
}

/// Writes what else a person needs to know of an end. What takes memory is left out where none is left.
fn put_details<E: Write>(
    alloc: Global,
    end: &End,
    words: &[Vec<u8>],
    profiles: &[io::Result<String>],
    faults: &mut E,
)
    ensures { AppendsSome (E.contents faults.old) (E.contents faults.new) }
{
    if !put_line(words_line(alloc, end, words), faults) {
        return;
    }
    if !put_text(end.note(), faults) {
        return;
    }
    put_line(profiles_line(alloc, end, words, profiles), faults);
}

/// Writes what is wrong with the line that doesn't fit, if one doesn't, and then what else a person needs to know.
fn put_explanation<E: Write>(
    alloc: Global,
    end: &End,
    words: &[Vec<u8>],
    profiles: &[io::Result<String>],
    faults: &mut E,
)
    ensures { WritesReason end.now (E.contents faults.old) (E.contents faults.new) }
{
    match put_all(faults, end.reason().as_bytes()) {
        Ok(()) => put_details(alloc, end, words, profiles, faults),
        Err(_) => {}
    }
}

/// Writes the same, with the program's name before what is wrong with a line.
fn put_reason<E: Write>(
    alloc: Global,
    end: &End,
    words: &[Vec<u8>],
    profiles: &[io::Result<String>],
    faults: &mut E,
)
    ensures { WritesMore end.now (E.contents faults.old) (E.contents faults.new) }
{
    match put_all(faults, end.reason_front().as_bytes()) {
        Ok(()) => put_explanation(alloc, end, words, profiles, faults),
        Err(_) => {}
    }
}

/// Writes why the program ends early: the end's own line, and below it what a person needs to know. Writes nothing for
/// an end without a line. Where it can't be written, nothing else changes.
pub(crate) fn report_end<E: Write>(
    alloc: Global,
    end: &End,
    words: &[Vec<u8>],
    profiles: &[io::Result<String>],
    faults: &mut E,
)
    ensures { WritesEnd end.now (E.contents faults.old) (E.contents faults.new) }
{
    let line = end.text();
    if line.is_empty() {
        return;
    }
    match put_all(faults, line.as_bytes()) {
        Ok(()) => put_reason(alloc, end, words, profiles, faults),
        Err(_) => {}
    }
}
