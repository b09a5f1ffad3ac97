//! Why a script ends early.

use pcef_model::OpenFault;
use std::error::Error;
use std::fmt::{self, Display, Formatter, Write};

/// Why a script ends early.
#[derive(Clone, Copy, Debug, PartialEq, Eq)]
pub enum ScriptFault {
    /// The reader failed. The answers to the whole lines before are written.
    Read,
    /// The writer failed, or took no byte. A front of the answers is written.
    Write,
    /// More than 1,073,741,824 bytes were read. The answers to the whole lines before are written.
    TooMuch,
    /// The session can't be opened. Nothing was read.
    Profile(OpenFault),
    /// There is no memory left. The answers to the lines before are written.
    NoMemory,
}

impl ScriptFault {
    /// What the fault means, in a few words, up to the inner fault where there is one.
    fn message(self) -> &'static str {
        match self {
            ScriptFault::Read => "the script can't be read",
            ScriptFault::Write => "the answers can't be written",
            ScriptFault::TooMuch => "the script is too long",
            ScriptFault::Profile(_) => "the session can't be opened: ",
            ScriptFault::NoMemory => "there is no memory left",
        }
    }
}

impl Display for ScriptFault {
    fn fmt<W: Write>(&self, f: &mut Formatter<W>) -> fmt::Result {
        f.write_str(self.message())?;
        match self {
            ScriptFault::Profile(inner) => inner.fmt(f),
            _ => Ok(()),
        }
    }
}

impl Error for ScriptFault {}
