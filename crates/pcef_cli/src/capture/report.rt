//! What is said on standard error. A failing write changes nothing.

ghost use Rattle.std.specs.Prelude.{◌≤◌};

use crate::asked::CAPTURE;
use crate::capture::counts::{Counts, TunnelCounts};
use crate::capture::hint::hint_of;
use crate::capture::map::FaultyLine;
use crate::capture::stopped::Stopped;
use crate::command_line::{print_read_fault, print_write_fault, report_no_memory};
use pcef_capture_file::CaptureFault;
use pcef_capture_script::End;
use std::io::{self, ErrorKind};

/// What was asked for, as far as it is named in what is said.
#[derive(Clone, Copy)]
pub(crate) struct Asked<'a> {
    /// The name of the capture.
    pub file: &'a str,
    /// The path of the file for times.
    pub times: &'a str,
    /// The option that names the sessions.
    pub users: &'a str,
    /// Whether packets that were recorded in part are padded.
    pub pads: bool,
    /// Whether the packets are those of tunnels.
    pub is_gtp: bool,
}

/// Prints what became of the frames that have no packet of a tunnel.
fn print_tunnels(rt: &HostRuntime, counts: &TunnelCounts) {
    let _ = eprintln!(rt;
        "not GTP-U {}, fragments {}, other messages {}, other tunnels {}, short headers {}, other versions {}, wrong lengths {}, wrong extension headers {}",
        counts.not_gtp,
        counts.fragments,
        counts.not_gpdu,
        counts.other_tunnel,
        counts.short_header,
        counts.version,
        counts.length,
        counts.extension
    );
}

/// Warns that no packet has an address of a session.
fn warn_of_addresses(rt: &HostRuntime, asked: &Asked<'_>) {
    let whose = if asked.users == "--sessions" {
        "an address of the map"
    } else {
        "the session's address"
    };
    let tunnels = if asked.is_gtp {
        ""
    } else {
        " --gtp takes those in GTP-U tunnels"
    };
    let users = asked.users;
    let _ = eprintln!(rt; "pcef capture: no packet has {whose}: is {users} right?{tunnels}");
}

/// Warns where no packet has an address of a session, none is in a tunnel, or packets were cut.
fn warn(rt: &HostRuntime, asked: &Asked<'_>, counts: &Counts) {
    if counts.taken == 0 && counts.cut == 0 && counts.neither > 0 {
        warn_of_addresses(rt, asked);
    }
    if counts.read > 0 && counts.tunnels.not_gtp == counts.read {
        let _ = eprintln!(rt;
            "pcef capture: no frame has a packet of a tunnel: without --gtp the packets outside are taken"
        );
    }
    if counts.cut > 0 && !asked.pads {
        let _ = eprintln!(rt;
            "pcef capture: cut frames were recorded in part, as by a snap length: --pad fills their packets with zeros"
        );
    }
}

/// Prints the counts of frames.
pub(crate) fn report_counts(rt: &HostRuntime, asked: &Asked<'_>, counts: &Counts) {
    let _ = eprintln!(rt;
        "read {}, taken {}, not IP {}, cut {}, on neither side {}",
        counts.read, counts.taken, counts.not_ip, counts.cut, counts.neither
    );
    if asked.is_gtp {
        print_tunnels(rt, &counts.tunnels);
    }
    warn(rt, asked, counts);
}

/// Reports a line of a map that is at fault, and returns the exit status.
pub(crate) fn report_map(rt: &HostRuntime, path: &str, faulty: FaultyLine) -> u8
    ensures { result ≤ 4 }
{
    let FaultyLine { number, fault } = faulty;
    let name = fault.name();
    let message = fault.message();
    let _ = eprintln!(rt; "map fault {name}\npcef capture: {path}:{number}: {message}");
    1
}

/// Reports that a file can't be read, and returns the exit status.
pub(crate) fn report_read(rt: &HostRuntime, path: &str, error: &io::Error) -> u8
    ensures { result ≤ 4 }
{
    if error.kind() == ErrorKind::OutOfMemory {
        return report_no_memory(rt);
    }
    print_read_fault(rt, CAPTURE, path, error);
    4
}

/// Reports the fault of a capture, and what its octets are.
fn report_capture(rt: &HostRuntime, file: &str, fault: CaptureFault, octets: &[u8]) {
    let number = fault.number();
    let _ = eprintln!(rt; "capture fault {number}\npcef capture: {file}: {fault}");
    if let Ok(hint) = hint_of(rt.alloc(), fault, octets) {
        let _ = eprintln!(rt; "pcef capture: {hint}");
    }
}

/// Reports why the program ends early, and what the octets at a fault are, and returns the exit status.
pub(crate) fn report_end(
    rt: &HostRuntime,
    asked: &Asked<'_>,
    stopped: &Stopped,
    octets: &[u8],
) -> u8
    ensures { result ≤ 4 }
{
    match stopped {
        Stopped::End(End::Done) => {}
        Stopped::End(End::Capture(fault)) => report_capture(rt, asked.file, *fault, octets),
        Stopped::End(End::NoMemory) => {
            let _ = report_no_memory(rt);
        }
        Stopped::End(End::Read(error)) => {
            let _ = report_read(rt, asked.file, error);
        }
        Stopped::End(End::Write(error)) => print_write_fault(rt, CAPTURE, "Standard output", error),
        Stopped::Times(error) => print_write_fault(rt, CAPTURE, asked.times, error),
        Stopped::NoTime(frame) => {
            let _ = eprintln!(rt;
                "time fault\npcef capture: {}: frame {frame} has no time: leave --times out",
                asked.file
            );
        }
    }
    stopped.status()
}
