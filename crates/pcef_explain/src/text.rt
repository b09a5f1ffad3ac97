//! The octets of files that must be text.

ghost use Rattle.std.specs.Prelude.{◌≡◌, ◌⊎◌, IfErr, IfOk, IsOk, string_bytes};
ghost use Rattle.std.specs.IoError.{error_kind};
ghost use Rattle.std.specs.Str.{IsUtf8};
ghost use Rattle.std.specs.declared.io.ErrorKind.TheVariants.{InvalidData, OutOfMemory};
ghost use Rattle.pcef_explain.specs.Places.{column_behind, line_behind};

use crate::wide::is_wide;
use std::alloc::{AllocError, Global};
use std::fs;
use std::io::{self, ErrorKind};

/// The line and the column of what stands behind these octets, both counted from 1; columns are in octets.
fn place_behind(octets: &[u8]) -> (usize, usize)
    ensures line { result.0 ≡ line_behind octets.now }
    ensures column { result.1 ≡ column_behind octets.now }
{
    let mut line = 1usize;
    let mut column = 1usize;
    for octet in octets {
        if *octet == b'\n' {
            line += 1;
            column = 1;
        } else {
            column += 1;
        }
    }
    (line, column)
}

/// Where the first octet stands that isn't UTF-8, and which it is. `place` is its place.
fn not_utf8(alloc: Global, octets: &[u8], place: usize) -> Result<String, AllocError> {
    let (front, rest) = octets.split_at(place.min(octets.len()));
    let (line, column) = place_behind(front);
    match rest.first() {
        Some(octet) => {
            let octet = *octet;
            if is_wide(octets) {
                return format!(in alloc;
                    "line {line}, column {column}: the octet {octet:#04x} isn't UTF-8: save the UTF-16 text as UTF-8"
                );
            }
            format!(in alloc; "line {line}, column {column}: the octet {octet:#04x} isn't UTF-8")
        }
        None => format!(in alloc; "line {line}, column {column}: the text ends too early"),
    }
}

/// The octets of a file as a text. Takes memory only to report why they are none.
///
/// An `Err` is of the kind InvalidData where they aren't UTF-8 (RFC 3629). Its message gives the first octet that
/// isn't, with its line and its column, both counted from 1, and columns in octets. The kind is OutOfMemory where there
/// is no memory for the message.
pub fn text_in(alloc: Global, octets: Vec<u8>) -> io::Result<String>
    ensures text { IfOk result (λ text. string_bytes text ≡ octets.items) }
    ensures whole { IsUtf8 octets.items → IsOk result }
    ensures kind { IfErr result (λ e. (error_kind e ≡ InvalidData) ⊎ (error_kind e ≡ OutOfMemory)) }
{
    match String::from_utf8(octets) {
        Ok(text) => Ok(text),
        Err(error) => {
            let place = error.utf8_error().valid_up_to();
            match not_utf8(alloc, error.as_bytes(), place) {
                Ok(message) => Err(io::Error::new(ErrorKind::InvalidData, message.as_str())),
                Err(_) => Err(io::Error::from(ErrorKind::OutOfMemory)),
            }
        }
    }
}

/// Reads the text of a file. Takes memory for it.
///
/// Answers the error of the file system, or that of [`text_in`] where the file isn't UTF-8.
pub fn read_text(rt: &HostRuntime, path: &str) -> io::Result<String> {
    text_in(rt.alloc(), fs::read(rt, path)?)
}
