//! Why no work is done.

ghost use Rattle.std.specs.Prelude.{◌≡◌, ◌≤◌};
ghost use Rattle.clap.specs.Words.{kind_of};
ghost use Rattle.pcef_cli.specs.Statuses.{IsStatusDue};

use crate::command_line::faults::print_write_fault;
use clap::Error;
use clap::error::ErrorKind;
use pcef_base::VERSION;
use std::io;

/// Reports `want of memory` on standard error, and returns its exit status. A failing write changes nothing.
pub(crate) fn report_no_memory(rt: &HostRuntime) -> u8
    ensures { result ≡ 3 }
{
    let _ = eprintln!(rt; "want of memory");
    3
}

/// Reports what is wrong with the words on standard error, and returns the exit status. A failing write changes nothing.
pub(crate) fn refuse_usage(rt: &HostRuntime, reason: &str) -> u8
    ensures { result ≡ 2 }
{
    let _ = eprintln!(rt; "usage: {reason}");
    2
}

/// Prints an error of clap. The version is that of the program, behind its name and the word.
fn print(rt: &HostRuntime, program: &str, error: &Error) -> io::Result<()> {
    match error.kind() {
        ErrorKind::DisplayVersion => println!(rt; "{program} {VERSION}"),
        _ => error.print(rt),
    }
}

/// Reports an error of clap, and returns the exit status: 3 when out of memory, 0 where help or the version was asked
/// for, else 2; or 4 where nothing can be written. Help and the version stand on standard output, and a failing write
/// of them is reported in the name of the program.
pub(crate) fn refuse(rt: &HostRuntime, program: &str, error: &Error) -> u8
    ensures due { IsStatusDue (kind_of error.now) result }
    ensures within { result ≤ 4 }
{
    if error.kind() == ErrorKind::OutOfMemory {
        return report_no_memory(rt);
    }
    match print(rt, program, error) {
        Ok(()) if error.use_stderr() => 2,
        Ok(()) => 0,
        Err(_) if error.use_stderr() => 4,
        Err(reason) => {
            print_write_fault(rt, program, "standard output", &reason);
            4
        }
    }
}
