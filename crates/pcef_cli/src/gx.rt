//! `pcef gx`, which speaks of sessions with their PCRF.
//!
//! `pcef gx --session-id TEXT --origin-host HOST --origin-realm REALM --destination-realm REALM PROFILE` reads
//! Diameter messages from standard input, and writes its own on standard output: those of a node that opens a connection
//! (RFC 6733), and those of a PCEF (TS 29.212). A session has a profile, and opens when the PCRF has granted it.

mod end;
mod lines;
mod link;
mod member;
mod members;
mod naming;
mod opening;
mod options;
mod reading;
mod serving;

ghost use Rattle.std.specs.Prelude.{◌≤◌};

use crate::asked::{Call, GX};
use crate::command_line::{gather, or_no_memory, refuse, refuse_usage};
use crate::gx::end::{End, Stop};
use crate::gx::link::Link;
use crate::gx::members::Members;
use crate::gx::opening::members_of;
use crate::gx::options::{Options, Sessions, parse_options};
use crate::gx::serving::{Feed, numbering_of, serve};
use pcef_base::Fused;
use pcef_gx_peer::Node;
use pcef_packet::Addr;
use std::fs;
use std::io::BufWriter;
use std::sync::Wait;
use std::thread::Threads;

/// Whether a text is an IMSI: 1 to 15 digits (TS 23.003, clause 2.2).
fn is_imsi(text: &str) -> bool {
    let len = text.len();
    0 < len && len <= 15 && text.bytes().all(|octet| octet.is_ascii_digit())
}

/// Speaks of sessions.
fn speak<'a, T: Threads + Wait + Drop + Send + Sync + Copy + 'static>(
    starting: T,
    rt: HostRuntime,
    options: Options<'a>,
    members: Members,
    address: Addr,
) -> End<'a> {
    let host = options.origin_host.as_bytes();
    let Some(node) = Node::new(host, options.origin_realm.as_bytes()) else {
        return End::Words("a name has more than 1024 octets");
    };
    let Ok(writer) = BufWriter::new(rt.alloc(), Fused::new(rt.stdout())) else {
        return End::Stopped(Stop::NoMemory);
    };
    let numbering = numbering_of(&rt, options.first_number);
    let link = Link::new(rt.alloc(), node, numbering, members, writer);
    let names = matches!(options.sessions, Sessions::Listed(_));
    serve(
        starting,
        rt,
        link,
        address,
        Feed {
            names,
            path: options.packets,
        },
    )
}

/// Does what the options ask for.
fn run<'a, T: Threads + Wait + Drop + Send + Sync + Copy + 'static>(
    starting: T,
    rt: HostRuntime,
    options: Options<'a>,
) -> End<'a> {
    let Some(address) = Addr::from_text(options.address.as_bytes()) else {
        return End::Words("--address is no address");
    };
    if !options.subscriber.map_or(true, is_imsi) {
        return End::Words("--subscriber has 1 to 15 digits");
    }
    if let Some(path) = options.packets {
        match fs::metadata(&rt, path) {
            Ok(_) => {}
            Err(error) => {
                return or_no_memory(error, End::Stopped(Stop::NoMemory), End::Read(path, error));
            }
        }
    }
    match members_of(&rt, options) {
        Ok(members) => speak(starting, rt, options, members, address),
        Err(end) => end,
    }
}

/// Does what the words of a call ask for, and returns the exit status.
pub(crate) fn answer<T: Threads + Wait + Drop + Send + Sync + Copy + 'static>(
    starting: T,
    rt: HostRuntime,
    call: Call,
) -> u8
    ensures { result ≤ 4 }
{
    let words = match gather(&rt, call) {
        Ok(words) => words,
        Err(status) => return status,
    };
    match parse_options(rt.alloc(), words.as_slice()) {
        Ok(Some(options)) => run(starting, rt, options).report(&rt),
        Ok(None) => refuse_usage(&rt, "an option has no value"),
        Err(error) => refuse(&rt, GX, &error),
    }
}
