//! How the program ends.

ghost use Rattle.std.specs.Prelude.{◌≤◌};

use crate::asked::MANY;
use crate::command_line::{print_read_fault, report_no_memory};
use pcef_model::OpenFault;
use std::io;

/// How the program ends.
#[derive(Drop)]
pub(crate) enum End<'a> {
    /// All lines are answered, and none is at fault.
    Clean,
    /// All lines are answered, and some are at fault.
    Faults,
    /// The profile has a fault, which is printed already.
    Profile,
    /// No session of the profile can be opened.
    Session(OpenFault),
    /// There is no memory left.
    NoMemory,
    /// The file of this name can't be read.
    Read(&'a str, io::Error),
    /// Standard input failed.
    Lines,
    /// Standard output takes no more.
    Write,
    /// Nobody reads standard output any more.
    Left,
    /// The metrics can't be written to the file of this name.
    Metrics(&'a str, io::Error),
}

impl End<'_> {
    /// The exit status. Wrong arguments, which clap finds, have 2.
    fn status(&self) -> u8
        ensures { result ≤ 4 }
    {
        match self {
            End::Clean => 0,
            End::Faults | End::Profile | End::Session(_) => 1,
            End::NoMemory => 3,
            End::Read(..) | End::Lines | End::Write | End::Left | End::Metrics(..) => 4,
        }
    }

    /// Prints why the program ends early, and returns its exit status. A failing print changes nothing.
    pub(crate) fn report(&self, rt: &HostRuntime) -> u8
        ensures { result ≤ 4 }
    {
        match self {
            End::Clean | End::Faults | End::Profile | End::Left => {}
            End::Session(fault) => {
                let _ = eprintln!(rt; "profile fault\npcef many: {fault}");
            }
            End::NoMemory => {
                let _ = report_no_memory(rt);
            }
            End::Read(file, error) => print_read_fault(rt, MANY, file, error),
            End::Lines => {
                let _ = eprintln!(rt; "read fault\npcef many: standard input failed");
            }
            End::Metrics(file, error) => {
                let _ = eprintln!(rt; "write fault\npcef many: {file}: {error}");
            }
            End::Write => {
                let _ = eprintln!(rt; "write fault\npcef many: standard output takes no more");
            }
        }
        self.status()
    }
}
