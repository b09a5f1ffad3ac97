//! Why a session isn't read.

ghost use Rattle.std.specs.Prelude.{◌≡◌};

use crate::sources::Sources;
use crate::{CollectFault, TimesFault};
use std::alloc::{AllocError, AllocFailed};
use std::io::{self, ErrorKind};

/// Why a session isn't read.
#[derive(Clone, Copy)]
pub enum Fault<'a> {
    /// These lines and answers don't belong together, and what they seem to be: a line of text behind a line feed, or
    /// nothing.
    Apart(Sources<'a>, CollectFault, &'static str),
    /// The times of this file aren't those of the script's packets.
    Times(&'a str, TimesFault),
    /// The file of this name is no profile: it has no address.
    Profile(&'a str),
    /// No session of this name was opened in these lines.
    NoSession(&'a str, &'a str),
    /// Two files were to be standard input.
    TwoInputs,
    /// There is no memory left.
    NoMemory,
    /// The file of this name can't be read.
    Read(&'a str, io::Error),
}

impl<'a> Fault<'a> {
    /// Where a file can't be read.
    pub(crate) fn at_read(file: &'a str, error: io::Error) -> Fault<'a> {
        match error.kind() {
            ErrorKind::OutOfMemory => Fault::NoMemory,
            _ => Fault::Read(file, error),
        }
    }
}

impl From<AllocError> for Fault<'_> {
    ghost use Rattle.pcef_page.specs.declared.fault.Fault.TheVariants.{NoMemory};

    ghost from_gives = { λ _ fault. fault ≡ NoMemory };

    fn from(_refused: AllocError) -> Self {
        Fault::NoMemory
    }
}

impl<T: Drop> From<AllocFailed<T>> for Fault<'_> {
    ghost use Rattle.pcef_page.specs.declared.fault.Fault.TheVariants.{NoMemory};

    ghost from_gives = { λ _ fault. fault ≡ NoMemory };

    fn from(_refused: AllocFailed<T>) -> Self {
        Fault::NoMemory
    }
}
