//! How the program ends.

ghost use Rattle.std.specs.Prelude.{◌≤◌};

use crate::asked::{MANY, PAGE};
use crate::command_line::{print_read_fault, print_write_fault, refuse_usage, report_no_memory};
use pcef_page::{CollectFault, Fault, Sources};
use std::io;

/// How the program ends.
#[derive(Clone, Copy)]
pub(crate) enum End<'a> {
    /// Well.
    Done,
    /// The files don't say what is to be shown, or there is no memory for it.
    Unread(Fault<'a>),
    /// The report can't be written.
    Write(io::Error),
}

/// Prints that the files don't belong together.
fn report_apart(rt: &HostRuntime, sources: &Sources<'_>, fault: &CollectFault, seeming: &str) {
    let (lines, answers) = (sources.lines, sources.answers);
    let program = if sources.session.is_some() {
        MANY
    } else {
        "pcef script"
    };
    let _ = eprintln!(rt;
        "{fault}\npcef page: {lines} has to be the script, and {answers} what {program} wrote for it{seeming}"
    );
}

/// The exit status where the files don't say what is to be shown.
fn status_of(fault: &Fault<'_>) -> u8
    ensures { result ≤ 4 }
{
    match fault {
        Fault::Apart(..) | Fault::Times(..) | Fault::Profile(_) | Fault::NoSession(..) => 1,
        Fault::TwoInputs => 2,
        Fault::NoMemory => 3,
        Fault::Read(..) => 4,
    }
}

/// Prints why the files don't say what is to be shown.
fn print(rt: &HostRuntime, fault: &Fault<'_>) {
    match fault {
        Fault::Apart(sources, fault, seeming) => report_apart(rt, sources, fault, seeming),
        Fault::Times(file, fault) => {
            let _ = eprintln!(rt;
                "{fault}\npcef page: {file} has to be what pcef capture --times wrote"
            );
        }
        Fault::Profile(file) => {
            let _ = eprintln!(rt;
                "profile fault\npcef page: {file}: an address is expected, as ue = \"10.0.0.2\""
            );
        }
        Fault::NoSession(name, file) => {
            let _ = eprintln!(rt;
                "there is no session {name}\npcef page: no open of {name} in {file} was answered by ok"
            );
        }
        Fault::TwoInputs => {
            let _ = refuse_usage(rt, "only one of the files can be - for standard input");
        }
        Fault::NoMemory => {
            let _ = report_no_memory(rt);
        }
        Fault::Read("-", error) => print_read_fault(rt, PAGE, "standard input", error),
        Fault::Read(file, error) => print_read_fault(rt, PAGE, file, error),
    }
}

impl End<'_> {
    /// Prints why the program ends early, and returns its exit status: wrong words, which clap finds, have 2. A failing
    /// print changes nothing. Where nobody reads what is shown any more, nothing is printed.
    pub(crate) fn report(&self, rt: &HostRuntime) -> u8
        ensures { result ≤ 4 }
    {
        match self {
            End::Done => 0,
            End::Unread(fault) => {
                print(rt, fault);
                status_of(fault)
            }
            End::Write(error) => {
                print_write_fault(rt, PAGE, "standard output", error);
                4
            }
        }
    }
}
