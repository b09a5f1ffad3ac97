//! Why a line doesn't fit a run, or sessions on a pool.

ghost use Rattle.std.specs.Prelude.{◌≡◌, string_bytes};
ghost use Rattle.pcef_run.specs.Reasons.{SaysReason, unfit_name, untaken_by};

use crate::explaining::explain_unfit;
use pcef_line::LineFault;
use std::alloc::Global;

/// Why a line doesn't fit a run, or sessions on a pool.
#[derive(Clone, Copy, Debug, PartialEq, Eq)]
pub enum Unfit {
    /// It can't be read; on a pool, what stands behind the number of its session.
    AtFault(LineFault),
    /// It is neither a command nor a packet, and a run takes no other line.
    NotOfRun,
    /// It is a packet for a worker that there isn't. The value is how many there are.
    NoWorker(u8),
    /// The number of a session and a space don't stand at its front, as a pool wants them.
    NoNumber,
    /// It is for a session that there isn't. The value is how many there are.
    NoSession(usize),
    /// It is no command, and a pool takes no other line.
    NotOfPool,
}

impl Unfit {
    /// The name of the reason; of a line that can't be read that of its fault.
    pub fn name(self) -> &'static str
        ensures { result.now ≡ unfit_name self }
    {
        match self {
            Unfit::AtFault(fault) => fault.name(),
            Unfit::NotOfRun => "NotOfRun",
            Unfit::NoWorker(_) => "NoWorker",
            Unfit::NoNumber => "NoNumber",
            Unfit::NoSession(_) => "NoSession",
            Unfit::NotOfPool => "NotOfPool",
        }
    }
}

/// Why a line isn't taken.
#[derive(Clone, Copy, Debug, PartialEq, Eq)]
pub enum Untaken {
    /// It doesn't fit.
    Unfit(Unfit),
    /// There is no memory left.
    NoMemory,
}

/// Why a line that wasn't read isn't taken.
pub(crate) fn untaken_for(fault: LineFault) -> Untaken
    ensures { result ≡ untaken_by fault }
{
    match fault {
        LineFault::NoMemory => Untaken::NoMemory,
        _ => Untaken::Unfit(Unfit::AtFault(fault)),
    }
}

/// The first line of an input that doesn't fit.
#[derive(Debug, PartialEq, Eq, Drop)]
pub struct FirstUnfit {
    /// Its number, from 1. Blank lines count too.
    pub number: u64,
    /// Why it doesn't fit.
    pub why: Unfit,
    /// The same in words, for people: a line of printable ASCII, which begins with the name of the reason and ends with
    /// a line feed. Empty where there was no memory for it.
    pub explanation: String,
}

impl FirstUnfit {
    /// The line `number`, which doesn't fit. Its line of a script stands behind `front` octets. Takes memory for the
    /// words, and does without them where there is none.
    pub fn new(alloc: Global, number: u64, line: &[u8], front: usize, why: Unfit) -> FirstUnfit
        ensures number { result.number ≡ number }
        ensures why { result.why ≡ why }
        ensures explanation { SaysReason why (string_bytes result.explanation) }
    {
        let explanation = match explain_unfit(alloc, line, front, why) {
            Ok(explanation) => explanation,
            Err(_) => String::new(alloc),
        };
        FirstUnfit {
            number,
            why,
            explanation,
        }
    }
}
