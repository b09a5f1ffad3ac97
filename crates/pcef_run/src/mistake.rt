//! What is wrong with words that ask for nothing.

use crate::words::rate_in;
use std::alloc::{AllocError, Global};

/// A word as it is shown: one of 80 bytes at most, all printable ASCII.
fn word_text(alloc: Global, word: &[u8]) -> Result<String, AllocError> {
    if word.len() > 80 || !word.iter().all(|byte| (b' '..=b'~').contains(byte)) {
        return format!(in alloc; "other text");
    }
    let text = String::from_utf8_lossy(alloc, word)?;
    format!(in alloc; "'{text}'")
}

/// A line that says what a number is to be, and what stands there.
fn number_line(alloc: Global, name: &str, range: &str, word: &[u8]) -> Result<String, AllocError> {
    let found = word_text(alloc, word)?;
    format!(in alloc; "{name} is {range}, found {found}.\n")
}

/// The line of words behind `run`: their number is wrong, or the number of workers.
fn run_line(alloc: Global, words: &[Vec<u8>]) -> Result<String, AllocError> {
    let count = words.len();
    match words {
        [_, workers] => number_line(alloc, "WORKERS", "1 to 16", workers.as_slice()),
        _ => format!(in alloc; "run takes PROFILE and WORKERS: 2 words, found {count}.\n"),
    }
}

/// The line of words behind `pool`: their number is wrong, or the first rate that is none.
fn pool_line(alloc: Global, words: &[Vec<u8>]) -> Result<String, AllocError> {
    let count = words.len();
    match words {
        [up, down, _, ..] if count <= 66 => {
            let range = "0 to 1099511627775 bit/s";
            if rate_in(up.as_slice()).is_none() {
                number_line(alloc, "UP", range, up.as_slice())
            } else {
                number_line(alloc, "DOWN", range, down.as_slice())
            }
        }
        _ => format!(in alloc;
            "pool takes UP, DOWN and 1 to 64 profiles: 3 to 66 words, found {count}.\n"
        ),
    }
}

/// The line of words that ask for nothing.
pub(crate) fn mistake_line(alloc: Global, words: &[Vec<u8>]) -> Result<String, AllocError> {
    let Some((first, rest)) = words.split_first() else {
        return format!(in alloc;
            "A command is missing: script, run, pool, check, many, capture, page or gx.\n"
        );
    };
    let count = rest.len();
    if first.as_slice() == b"script".as_slice() {
        return format!(in alloc; "script takes PROFILE: 1 word, found {count}.\n");
    }
    if first.as_slice() == b"run".as_slice() {
        return run_line(alloc, rest);
    }
    if first.as_slice() == b"pool".as_slice() {
        return pool_line(alloc, rest);
    }
    let found = word_text(alloc, first.as_slice())?;
    format!(in alloc;
        "There is no command {found}: there are script, run, pool, check, many, capture, page and gx.\n"
    )
}
