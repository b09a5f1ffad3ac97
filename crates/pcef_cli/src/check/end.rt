//! How the program ends.

ghost use Rattle.std.specs.Prelude.{◌≤◌};

use std::io;

/// How the program ends.
#[derive(Drop)]
pub(crate) enum End<'a> {
    /// Nothing was found.
    Clean,
    /// A fault or a refusal was found.
    Found,
    /// There is no memory left.
    NoMemory,
    /// The file of this name can't be read.
    Read(&'a str, io::Error),
    /// What was found can't be written.
    Write(io::Error),
}

impl End<'_> {
    /// The exit status. Wrong arguments, which clap finds, have 2.
    pub(crate) fn status(&self) -> u8
        ensures { result ≤ 4 }
    {
        match self {
            End::Clean => 0,
            End::Found => 1,
            End::NoMemory => 3,
            End::Read(..) | End::Write(_) => 4,
        }
    }
}
