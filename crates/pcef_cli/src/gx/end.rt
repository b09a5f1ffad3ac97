//! How the program ends.

ghost use Rattle.std.specs.Prelude.{◌≤◌};

use crate::asked::GX;
use crate::command_line::{print_read_fault, refuse_usage, report_no_memory};
use std::io;

/// Why a connection ends.
#[derive(Clone, Copy, Debug, PartialEq, Eq)]
pub(crate) enum Stop {
    /// The peer took leave, too.
    Left,
    /// There is no memory left.
    NoMemory,
    /// Standard input failed.
    Input,
    /// Standard input ended.
    Ended,
    /// What came is no message, so that the front of the next one is lost.
    Lost,
    /// The peer spoke before it had said what it can.
    Early,
    /// The peer refuses the connection, by this Result-Code where it says one.
    Refused(Option<u32>),
    /// The peer disconnects.
    Disconnected,
    /// The lines can't be read.
    Lines,
    /// Standard output takes no more.
    Write,
    /// A report that is to be told is forgotten.
    Forgotten,
    /// No request number is left.
    NoNumber,
}

/// How the program ends.
#[derive(Drop)]
pub(crate) enum End<'a> {
    /// Each session has ended.
    Clean,
    /// Each session has ended, and lines were at fault, which is printed already.
    Lines,
    /// A profile, or a line that names a session, has a fault, which is printed already.
    Profile,
    /// A file can't be read, which is printed already.
    Unread,
    /// The PCRF refused a session, which is printed already.
    Sessions,
    /// The words are wrong: why.
    Words(&'static str),
    /// The file of this name can't be read.
    Read(&'a str, io::Error),
    /// The connection ended early.
    Stopped(Stop),
}

impl Stop {
    /// What it means, in a few words.
    fn text(self) -> &'static str {
        match self {
            Stop::Left => "the PCRF took leave",
            Stop::NoMemory => "there is no memory left",
            Stop::Input => "standard input failed",
            Stop::Ended => "standard input ended before the session",
            Stop::Lost => "what came is no message, and where the next one begins can't be told",
            Stop::Early => "the PCRF sent another message than a CEA first",
            Stop::Refused(_) => "the PCRF refuses the connection",
            Stop::Disconnected => "the PCRF disconnected before the end of the session",
            Stop::Lines => "the lines of --packets can't be read",
            Stop::Write => "standard output takes no more",
            Stop::Forgotten => "a report that is to be told is forgotten",
            Stop::NoNumber => "no request number is left",
        }
    }

    /// The first line on standard error.
    fn head(self) -> &'static str {
        match self {
            Stop::Write => "write fault",
            Stop::Forgotten | Stop::NoNumber => "run fault",
            _ => "read fault",
        }
    }
}

impl End<'_> {
    /// The exit status. Wrong arguments, which clap finds, have 2.
    fn status(&self) -> u8
        ensures { result ≤ 4 }
    {
        match self {
            End::Clean | End::Stopped(Stop::Left) => 0,
            End::Lines | End::Profile => 1,
            End::Words(_) => 2,
            End::Stopped(Stop::NoMemory) => 3,
            End::Sessions | End::Unread | End::Read(..) | End::Stopped(_) => 4,
        }
    }

    /// Prints why the program ends early, and returns its exit status. A failing print changes nothing.
    pub(crate) fn report(&self, rt: &HostRuntime) -> u8
        ensures { result ≤ 4 }
    {
        match self {
            End::Clean
            | End::Lines
            | End::Profile
            | End::Unread
            | End::Sessions
            | End::Stopped(Stop::Left) => {}
            End::Words(text) => {
                let _ = refuse_usage(rt, text);
            }
            End::Stopped(Stop::NoMemory) => {
                let _ = report_no_memory(rt);
            }
            End::Read(file, error) => print_read_fault(rt, GX, file, error),
            End::Stopped(Stop::Refused(Some(code))) => {
                let _ = eprintln!(rt;
                    "read fault\npcef gx: the PCRF refuses the connection by Result-Code {code}"
                );
            }
            End::Stopped(stop) => {
                let head = stop.head();
                let text = stop.text();
                let _ = eprintln!(rt; "{head}\npcef gx: {text}");
            }
        }
        self.status()
    }
}
