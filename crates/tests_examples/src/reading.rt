//! Reads lines alone and among many.

use crate::line_texts::{line_text, write_script_line};
use pcef_line::{LineReader, read_line};
use std::alloc::{AllocError, Global};
use std::fmt::Write;
use std::str;

/// The octets that stand in a line in the place of another.
static STRAYS: [u8; 14] = [
    b'"', b'\\', b'{', b'}', b',', b':', b' ', b'\n', b'0', b'1', b'f', b'g', 0, 127,
];

fn text_alone(alloc: Global, line: &str) -> Result<String, AllocError> {
    line_text(alloc, &read_line(alloc, line))
}

fn text_among_many(
    alloc: Global,
    lines: &mut LineReader,
    line: &str,
) -> Result<String, AllocError> {
    line_text(alloc, &lines.read(alloc, line))
}

/// Whether a line is read as the same alone and among many.
fn is_read_alike(alloc: Global, lines: &mut LineReader, line: &str) -> Result<bool, AllocError> {
    let alone = text_alone(alloc, line)?;
    let among_many = text_among_many(alloc, lines, line)?;
    Ok(alone.as_str() == among_many.as_str())
}

/// The first place in a line, and the octet there, with which it isn't read as the same.
fn first_stray(
    alloc: Global,
    lines: &mut LineReader,
    octets: &mut [u8],
) -> Result<Option<(usize, u8)>, AllocError> {
    for place in 0..octets.len() {
        let own = octets[place];
        for &stray in &STRAYS {
            octets[place] = stray;
            if let Ok(line) = str::from_utf8(octets) {
                if !is_read_alike(alloc, lines, line)? {
                    return Ok(Some((place, stray)));
                }
            }
        }
        octets[place] = own;
    }
    Ok(None)
}

/// Writes whether a line is read as the same with each stray octet at each place.
fn write_strays(
    alloc: Global,
    lines: &mut LineReader,
    line: &str,
    text: &mut String,
) -> Result<(), AllocError> {
    let mut octets = Vec::from_slice(alloc, line.as_bytes())?;
    match first_stray(alloc, lines, &mut octets)? {
        None => text.push_str("    alike with each stray octet\n"),
        Some((place, stray)) => writeln!(text, "    not alike with {stray} at {place}"),
    }
}

/// Writes what a line is read as alone, and among many where that is something else.
fn write_reading(
    alloc: Global,
    lines: &mut LineReader,
    line: &str,
    text: &mut String,
) -> Result<(), AllocError> {
    text.push_str("    ")?;
    write_script_line(text, &read_line(alloc, line))?;
    if !is_read_alike(alloc, lines, line)? {
        text.push_str(", but not among many")?;
    }
    text.push('\n')
}

/// Writes what a line is read as, or, where it stands behind `~ `, whether it is read as the same with stray octets.
pub fn write_line(
    alloc: Global,
    lines: &mut LineReader,
    line: &str,
    text: &mut String,
) -> Result<(), AllocError> {
    match line.strip_prefix("~ ") {
        Some(line) => write_strays(alloc, lines, line, text),
        None => write_reading(alloc, lines, line, text),
    }
}
