//! The numbers that C gets.

ghost use Rattle.std.specs.Prelude.{◌≡◌};
ghost use Rattle.pcef_c.specs.Numbers.{flag_number, length_number, open_number, packet_number, session_number};

use pcef_handle::{CallRefusal, OpenRefusal};
use pcef_model::OpenFault;
use pcef_packet::PacketFault;

/// In place of a length or a count: the handle has no session.
const NO_SESSION: usize = 18_446_744_073_709_551_615;

/// In place of a length: there is no memory left.
const NO_MEMORY: usize = 18_446_744_073_709_551_614;

/// In place of a length: a report that is asked for is forgotten.
const FORGOTTEN: usize = 18_446_744_073_709_551_613;

/// The number of the reason why no session can have the profile: that of the same fault in a profile's text.
fn session_number(fault: OpenFault) -> u8
    ensures { result ≡ session_number fault }
{
    match fault {
        OpenFault::UnknownQci => 5,
        OpenFault::DefaultIsGbr => 6,
        OpenFault::NoMemory => 7,
    }
}

/// 0, or why no session is open.
pub(crate) fn open_number(opened: Result<(), OpenRefusal>) -> u8
    ensures { result ≡ open_number opened }
{
    match opened {
        Ok(()) => 0,
        Err(OpenRefusal::Profile(fault)) => fault.number(),
        Err(OpenRefusal::Session(fault)) => session_number(fault),
        Err(OpenRefusal::NoMemory) => 7,
        Err(OpenRefusal::NotUtf8) => 8,
        Err(OpenRefusal::AlreadyOpen) => 9,
    }
}

/// The length of a text, or why there is none.
pub(crate) fn length_number(outcome: Result<usize, CallRefusal>) -> usize
    ensures { result ≡ length_number outcome }
{
    match outcome {
        Ok(length) => length,
        Err(CallRefusal::NoSession) => NO_SESSION,
        Err(CallRefusal::NoMemory) => NO_MEMORY,
        Err(CallRefusal::Forgotten) => FORGOTTEN,
    }
}

/// A count, or why there is none.
pub(crate) fn count_number(outcome: Result<u64, CallRefusal>) -> usize
    ensures { result ≡ length_number outcome }
{
    match outcome {
        Ok(count) => count as usize,
        Err(refusal) => length_number(Err(refusal)),
    }
}

/// The number of the reason why octets are no packet, among the numbers of verdicts.
pub(crate) fn packet_number(fault: PacketFault) -> u8
    ensures { result ≡ packet_number fault }
{
    match fault {
        PacketFault::Empty => 5,
        PacketFault::Version => 6,
        PacketFault::ShortHeader => 7,
        PacketFault::BadHeaderLength => 8,
        PacketFault::BadTotalLength => 9,
    }
}

/// 1 where it is so, else 0.
pub(crate) fn flag_number(flag: bool) -> u8
    ensures { result ≡ flag_number flag }
{
    if flag { 1 } else { 0 }
}
