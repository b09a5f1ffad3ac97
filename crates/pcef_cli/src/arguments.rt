//! The arguments, and the files that they name.

use crate::asked::is_help;
use pcef_explain::read_text;
use pcef_run::words::paths_of;
use std::alloc::{AllocError, Global};
use std::env::{Env, FillError};
use std::io::{self, ErrorKind};
use std::str;

/// The argument of this number, if there is one, as octets: it need not be UTF-8. Takes memory for it.
pub(crate) fn word<E: Env>(
    alloc: Global,
    env: &E,
    number: usize,
) -> Result<Option<Vec<u8>>, AllocError> {
    let mut room = 256usize;
    for _ in 0..usize::BITS {
        let mut octets = Vec::new(alloc);
        octets.resize(room, 0u8)?;
        match env.arg(number, octets.as_mut_slice()) {
            Ok(len) => {
                octets.truncate(len);
                return Ok(Some(octets));
            }
            Err(FillError::TooLong) => room = room.saturating_add(room),
            Err(FillError::NotPresent) => return Ok(None),
        }
    }
    Err(AllocError)
}

/// What is asked for in the place of `help` and the word behind it, if there is one: that word's help.
fn help_on(alloc: Global, words: &[Vec<u8>]) -> Result<Vec<Vec<u8>>, AllocError> {
    let mut asked = Vec::new(alloc);
    match words.get(1) {
        Some(word) if !is_help(word.as_slice()) => asked.push(word.clone()?)?,
        _ => {}
    }
    asked.push(Vec::from_slice(alloc, b"--help")?)?;
    Ok(asked)
}

/// The arguments after the program's name, as octets: they need not be UTF-8. `help` and a word stand for that word and
/// `--help`. Takes memory for them.
pub(crate) fn words<E: Env>(alloc: Global, env: &E) -> Result<Vec<Vec<u8>>, AllocError> {
    let mut words = Vec::new(alloc);
    for number in 1..usize::MAX {
        match word(alloc, env, number)? {
            Some(word) => words.push(word)?,
            None => break,
        }
    }
    match words.first() {
        Some(first) if is_help(first.as_slice()) => help_on(alloc, words.as_slice()),
        _ => Ok(words),
    }
}

/// The text of a file, or why it can't be read as text. A file whose name isn't UTF-8 can't.
fn text_of(rt: &HostRuntime, path: &[u8]) -> io::Result<String> {
    match str::from_utf8(path) {
        Ok(path) => read_text(rt, path),
        Err(_) => Err(io::Error::new(ErrorKind::InvalidFilename, "the name isn't UTF-8")),
    }
}

/// Appends the text of a file, or why it can't be read as text.
fn push_text(
    rt: &HostRuntime,
    path: &[u8],
    texts: &mut Vec<io::Result<String>>,
) -> Result<(), AllocError> {
    texts.push(text_of(rt, path))?;
    Ok(())
}

/// The texts of the profiles that the arguments name. No file is read where they name none. Takes memory for them.
pub(crate) fn profiles_of(
    rt: &HostRuntime,
    words: &[Vec<u8>],
) -> Result<Vec<io::Result<String>>, AllocError> {
    let mut profiles = Vec::new(rt.alloc());
    for path in paths_of(words) {
        push_text(rt, path.as_slice(), &mut profiles)?;
    }
    Ok(profiles)
}
