//! The words behind the program's name.

use std::{env, io};

/// The words behind the program's name.
pub fn words(rt: &HostRuntime) -> io::Result<Vec<String>> {
    let mut words = Vec::new(rt.alloc());
    for word in env::args(rt)?.skip(1) {
        words.push(word)?;
    }
    Ok(words)
}

/// The number in a word, or none.
pub fn number(word: &String) -> Option<u32> {
    word.as_str().parse::<u32>().ok()
}
