//! Why the program stops.

ghost use Rattle.std.specs.Prelude.{◌≤◌};

use crate::command_line::or_no_memory;
use pcef_capture_script::End;
use std::io;

/// Why the program stops.
#[derive(Clone, Copy)]
pub(crate) enum Stopped {
    /// As the script for one session ends.
    End(End),
    /// The file for times can't be written.
    Times(io::Error),
    /// The frame of this number is taken, and the capture has no time for it.
    NoTime(u64),
}

impl Stopped {
    /// The exit status. Wrong arguments, which clap finds, have 2.
    pub(crate) fn status(&self) -> u8
        ensures { result ≤ 4 }
    {
        match self {
            Stopped::End(end) => end.status(),
            Stopped::Times(_) => 4,
            Stopped::NoTime(_) => 1,
        }
    }
}

impl Stopped {
    /// Why the program stops where the capture can't be read.
    pub(crate) fn at_read(error: io::Error) -> Stopped {
        Stopped::End(or_no_memory(error, End::NoMemory, End::Read(error)))
    }

    /// Why the program stops where the lines can't be written.
    pub(crate) fn at_write(error: io::Error) -> Stopped {
        Stopped::End(or_no_memory(error, End::NoMemory, End::Write(error)))
    }

    /// Why the program stops where the file for times can't be written.
    pub(crate) fn at_times(error: io::Error) -> Stopped {
        or_no_memory(error, Stopped::End(End::NoMemory), Stopped::Times(error))
    }
}

impl From<End> for Stopped {
    fn from(end: End) -> Stopped {
        Stopped::End(end)
    }
}
