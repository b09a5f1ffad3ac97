//! What the first word asks for.

use crate::arguments::word;
use std::alloc::{AllocError, Global};
use std::env::Env;
use std::str;

/// The program's name with each word, which stands before what it says.
pub(crate) const CHECK: &str = "pcef check";

pub(crate) const MANY: &str = "pcef many";

pub(crate) const CAPTURE: &str = "pcef capture";

pub(crate) const PAGE: &str = "pcef page";

pub(crate) const GX: &str = "pcef gx";

/// A word that asks for other work than a script, a run or a pool.
#[derive(Clone, Copy, Debug, PartialEq, Eq)]
pub(crate) enum Word {
    /// The lines of a script that are refused or at fault.
    Check,
    /// Lines of many sessions.
    Many,
    /// The packets of a capture as lines.
    Capture,
    /// A page of a session.
    Page,
    /// Sessions with their PCRF.
    Gx,
}

impl Word {
    /// The word that these octets are, if they are one.
    fn of(octets: &[u8]) -> Option<Word> {
        match str::from_utf8(octets) {
            Ok("check") => Some(Word::Check),
            Ok("many") => Some(Word::Many),
            Ok("capture") => Some(Word::Capture),
            Ok("page") => Some(Word::Page),
            Ok("gx") => Some(Word::Gx),
            _ => None,
        }
    }

    /// The program's name with the word.
    pub(crate) fn program(self) -> &'static str {
        match self {
            Word::Check => CHECK,
            Word::Many => MANY,
            Word::Capture => CAPTURE,
            Word::Page => PAGE,
            Word::Gx => GX,
        }
    }
}

/// A call of the program by one of these words.
#[derive(Clone, Copy)]
pub(crate) struct Call {
    pub word: Word,
    /// Whether `help` stands before the word: nothing behind it is looked at.
    pub is_help: bool,
}

/// Whether the first argument is `help`. Takes memory for it.
fn begins_with_help<E: Env>(alloc: Global, env: &E) -> Result<bool, AllocError> {
    match word(alloc, env, 1)? {
        Some(first) => Ok(is_help(first.as_slice())),
        None => Ok(false),
    }
}

/// The word that the argument of a number is, if it is one. Takes memory for it.
fn word_at<E: Env>(alloc: Global, env: &E, number: usize) -> Result<Option<Word>, AllocError> {
    match word(alloc, env, number)? {
        Some(octets) => Ok(Word::of(octets.as_slice())),
        None => Ok(None),
    }
}

/// The call by one of these words, if it is one. Takes memory for the first two arguments of the program, one by one.
pub(crate) fn call_of<E: Env>(alloc: Global, env: &E) -> Result<Option<Call>, AllocError> {
    let is_help = begins_with_help(alloc, env)?;
    let number = if is_help { 2 } else { 1 };
    match word_at(alloc, env, number)? {
        Some(word) => Ok(Some(Call { word, is_help })),
        None => Ok(None),
    }
}

/// Whether a word is `help`, behind which another one stands.
pub(crate) fn is_help(word: &[u8]) -> bool {
    word == b"help".as_slice()
}
