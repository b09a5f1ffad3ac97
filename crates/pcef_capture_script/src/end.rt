//! How the program ends.

ghost use Rattle.std.specs.Prelude.{◌≡◌};
ghost use Rattle.pcef_capture_script.specs.Ends.{capture_status};

use pcef_capture_file::CaptureFault;
use std::io;

/// How the program ends.
#[derive(Clone, Copy)]
pub enum End {
    /// Well.
    Done,
    /// The capture file is at fault. The packets before the fault are written.
    Capture(CaptureFault),
    /// There is no memory left.
    NoMemory,
    /// The file can't be read.
    Read(io::Error),
    /// The lines can't be written.
    Write(io::Error),
}

impl End {
    /// The exit status. Wrong arguments, which clap finds, have 2.
    pub fn status(&self) -> u8
        ensures { result ≡ capture_status self.now }
    {
        match self {
            End::Done => 0,
            End::Capture(_) => 1,
            End::NoMemory => 3,
            End::Read(_) | End::Write(_) => 4,
        }
    }
}
