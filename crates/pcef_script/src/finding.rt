//! The findings on lines.

ghost use Rattle.std.specs.Prelude.{◌≡◌};
ghost use Rattle.pcef_world.specs.Steps.{reply_of};
ghost use Rattle.pcef_script.specs.Findings.{finding_in};

use pcef_line::LineFault;
use pcef_model::{AttachFault, FlushRefusal, Refusal};
use pcef_session::BatchFull;
use pcef_world::StepAnswer;
use std::fmt::{self, Display, Formatter, Write};

/// Why a line isn't done.
#[derive(Clone, Copy, Debug, PartialEq, Eq)]
pub enum Found {
    /// The line is at fault.
    Fault(LineFault),
    /// A command is refused.
    Command(Refusal),
    /// A worker can't attach.
    Attach(AttachFault),
    /// A worker can't take a packet.
    Take(BatchFull),
    /// A worker can't hand its rows over; it stays attached where it was to finish.
    Flush(FlushRefusal),
    /// The worker isn't attached.
    NoWorker,
}

impl Display for Found {
    fn fmt<W: Write>(&self, f: &mut Formatter<W>) -> fmt::Result {
        match self {
            Found::Fault(fault) => fault.fmt(f),
            Found::Command(refusal) => refusal.fmt(f),
            Found::Attach(fault) => fault.fmt(f),
            Found::Take(BatchFull) => f.write_str("32 rows wait: flush first"),
            Found::Flush(refusal) => refusal.fmt(f),
            Found::NoWorker => f.write_str("no worker of this number is attached"),
        }
    }
}

/// A line that a script answers by a fault or a refusal.
#[derive(Debug, Drop)]
pub struct Finding {
    /// The number of the line, from 1, blank lines counted.
    pub line: u64,
    /// Why it isn't done.
    pub found: Found,
    /// The script's answer, without the line feed.
    pub answer: String,
}

/// Why a step isn't made, if it is refused.
pub(crate) fn found_in(answer: &StepAnswer) -> Option<Found>
    ensures { result ≡ finding_in (reply_of answer.now) }
{
    match answer {
        StepAnswer::Command(Err(refusal)) => Some(Found::Command(*refusal)),
        StepAnswer::Attach(Err(fault)) => Some(Found::Attach(*fault)),
        StepAnswer::Take(Err(full)) => Some(Found::Take(*full)),
        StepAnswer::Flush(Err(refusal)) | StepAnswer::Finish(Err(refusal)) => {
            Some(Found::Flush(*refusal))
        }
        StepAnswer::NoWorker => Some(Found::NoWorker),
        _ => None,
    }
}
