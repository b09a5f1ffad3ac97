//! Reads lines and profiles, and writes what each is read as.

use crate::line_texts::write_script_line;
use crate::profiles::{write_profile_fault, write_profiles};
use crate::reading::write_line;
use pcef_line::{LineFault, LineReader};
use pcef_profile::ReadProfileFault;
use std::alloc::{AllocError, Global};
use std::fmt::Write;
use std::{fs, io};

/// The character that one in a file stands for, if it stands for one.
fn meant(character: char) -> Option<char> {
    match character {
        '∅' => None,
        '␁' => Some('\u{1}'),
        '␉' => Some('\t'),
        '␊' => Some('\n'),
        '␍' => Some('\r'),
        other => Some(other),
    }
}

/// A line with the characters that those in the file stand for.
fn as_meant(alloc: Global, line: &str) -> Result<String, AllocError> {
    let mut text = String::new(alloc);
    for character in line.chars() {
        if let Some(meant) = meant(character) {
            text.push(meant)?;
        }
    }
    Ok(text)
}

/// A line of a file, and below it what it is read as, unless it is blank or begins with `#`.
fn write_file_line(
    alloc: Global,
    lines: &mut LineReader,
    line: &str,
    text: &mut String,
) -> Result<(), AllocError> {
    writeln!(text, "{line}")?;
    if line.is_empty() || line.starts_with('#') {
        return Ok(());
    }
    let line = as_meant(alloc, line)?;
    write_line(alloc, lines, line.as_str(), text)
}

/// The lines of a file, and below each what it is read as.
fn write_lines(
    alloc: Global,
    lines: &mut LineReader,
    file: &str,
    text: &mut String,
) -> Result<(), AllocError> {
    for line in file.split('\n') {
        write_file_line(alloc, lines, line, text)?;
    }
    Ok(())
}

/// Writes what the lines of a file are read as, by a reader of their own, or what its profiles are read as.
pub fn write_file(rt: &HostRuntime, path: &str) -> io::Result<()> {
    let alloc = rt.alloc();
    let file = fs::read_to_string(rt, path)?;
    let mut text = String::new(alloc);
    if path.ends_with(".profiles") {
        write_profiles(alloc, file.as_str(), &mut text)?;
    } else {
        write_lines(alloc, &mut LineReader::new(alloc), file.as_str(), &mut text)?;
    }
    print!(rt; "{text}")
}

/// The faults that no text has.
fn other_faults(text: &mut String) -> Result<(), AllocError> {
    text.push_str("\n# Faults that no text has.\n")?;
    for &fault in &[
        LineFault::LineTooLong,
        LineFault::NotUtf8,
        LineFault::NoMemory,
    ] {
        write_script_line(text, &Err(fault))?;
        text.push('\n')?;
    }
    write_profile_fault(text, ReadProfileFault::NoMemory)?;
    text.push('\n')
}

/// Writes the faults that no text has.
pub fn write_other_faults(rt: &HostRuntime) -> io::Result<()> {
    let mut text = String::new(rt.alloc());
    other_faults(&mut text)?;
    print!(rt; "{text}")
}
