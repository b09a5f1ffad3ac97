//! Why a request isn't done.

ghost use Rattle.std.specs.Prelude.{◌≡◌};
ghost use Rattle.pcef_gx_dialogue.specs.Requests.{TellsStop};
ghost use Rattle.pcef_gx_dialogue.specs.declared.halt.Halt.TheVariants.{NoMemory};

use pcef_gx::Stop;
use pcef_gx_messages::Outcome;
use std::alloc::AllocError;

/// Why a request isn't done.
#[derive(Clone, Copy, Debug)]
pub enum Halt<'m> {
    /// It is refused as a whole: the answer tells so.
    Refused(Outcome<'m>),
    /// There is no memory left.
    NoMemory,
}

impl From<AllocError> for Halt<'_> {
    ghost from_gives = { λ _ e. e ≡ NoMemory };

    fn from(_e: AllocError) -> Self {
        Halt::NoMemory
    }
}

/// What a fault of an AVP is for an answer.
pub(crate) fn halted_by(stop: Stop<'_>) -> Halt<'_>
    ensures { TellsStop stop.entry result }
{
    match stop {
        Stop::Fault(fault) => Halt::Refused(Outcome::Fault(fault)),
        Stop::NoMemory => Halt::NoMemory,
    }
}
