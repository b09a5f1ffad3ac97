//! What is printed of a file at fault. A failing print changes nothing.

use pcef_profile::{ReadProfileFault, explain};
use std::io::{self, ErrorKind};

/// Where an error of the system ends the work: for want of memory, or in this other way.
pub(crate) fn or_no_memory<E: Drop>(error: io::Error, no_memory: E, other: E) -> E {
    match error.kind() {
        ErrorKind::OutOfMemory => no_memory,
        _ => other,
    }
}

/// Prints that a file can't be read.
pub(crate) fn print_read_fault(rt: &HostRuntime, program: &str, file: &str, error: &io::Error) {
    let _ = eprintln!(rt; "read fault\n{program}: {file}: {error}");
}

/// Prints that a file can't be written. A pipe that its reader closed is no fault.
pub(crate) fn print_write_fault(rt: &HostRuntime, program: &str, file: &str, error: &io::Error) {
    if error.kind() != ErrorKind::BrokenPipe {
        let _ = eprintln!(rt; "write fault\n{program}: {file}: {error}");
    }
}

/// Prints the fault of a profile, and what is expected there.
pub(crate) fn print_profile_fault(
    rt: &HostRuntime,
    program: &str,
    file: &str,
    text: &str,
    fault: ReadProfileFault,
) {
    let number = fault.number();
    let _ = eprintln!(rt; "profile fault {number}");
    if let Ok(explanation) = explain(rt.alloc(), text, fault) {
        let _ = eprintln!(rt; "{program}: {file}: {explanation}");
    }
}
