//! Why a message is refused as a whole.

ghost use Rattle.std.specs.Prelude.{◌≡◌, Err};
ghost use Rattle.pcef_diameter.specs.Avps.{shown};
ghost use Rattle.pcef_gx.specs.Failures.{result_code};
ghost use Rattle.pcef_gx.specs.Readings.{blank_of, has_word, least_data};
ghost use Rattle.pcef_gx.specs.declared.fault.Stop.TheVariants.{Fault, NoMemory};

use crate::code::{CC_TOTAL_OCTETS, Code, THREE_GPP};
use pcef_diameter::Avp;
use std::alloc::{AllocError, AllocFailed};

/// What is wrong (RFC 6733, clause 7.1).
#[derive(Clone, Copy, Debug, PartialEq, Eq)]
pub enum Problem {
    /// A reserved bit is set in the header of an AVP.
    InvalidAvpBits,
    /// An AVP that isn't known is mandatory.
    AvpUnsupported,
    /// An AVP has a value that it can't have.
    InvalidAvpValue,
    /// An AVP is missing.
    MissingAvp,
    /// An AVP stands there too often.
    AvpOccursTooManyTimes,
    /// What is asked for can't be done here.
    UnableToComply,
    /// An AVP has a length that it can't have.
    InvalidAvpLength,
}

impl Problem {
    /// The Result-Code. Takes no memory.
    pub fn result_code(self) -> u32
        ensures { result ≡ result_code self }
    {
        match self {
            Problem::InvalidAvpBits => 3009,
            Problem::AvpUnsupported => 5001,
            Problem::InvalidAvpValue => 5004,
            Problem::MissingAvp => 5005,
            Problem::AvpOccursTooManyTimes => 5009,
            Problem::UnableToComply => 5012,
            Problem::InvalidAvpLength => 5014,
        }
    }
}

/// Why a message is refused: the Result-Code, and what stands in the Failed-AVP.
#[derive(Clone, Copy, Debug, PartialEq, Eq)]
pub struct GxFault<'a> {
    /// What is wrong.
    pub problem: Problem,
    /// The AVP that is at fault, or an example of the one that is missing.
    pub failed: Avp<'a>,
}

/// Why a message isn't read.
#[derive(Clone, Copy, Debug, PartialEq, Eq)]
pub enum Stop<'a> {
    /// It is at fault.
    Fault(GxFault<'a>),
    /// There is no memory left.
    NoMemory,
}

impl From<AllocError> for Stop<'_> {
    ghost from_gives = { λ _ e. e ≡ NoMemory };

    fn from(_e: AllocError) -> Self {
        Stop::NoMemory
    }
}

impl<T: Drop> From<AllocFailed<T>> for Stop<'_> {
    ghost from_gives = { λ _ e. e ≡ NoMemory };

    fn from(_e: AllocFailed<T>) -> Self {
        Stop::NoMemory
    }
}

/// The data of zeros that an AVP of this code has at least.
fn least_data(code: Code) -> &'static [u8]
    ensures { result.now ≡ least_data code }
{
    if code == CC_TOTAL_OCTETS {
        &[0, 0, 0, 0, 0, 0, 0, 0]
    } else if has_word(code) {
        &[0, 0, 0, 0]
    } else {
        &[]
    }
}

/// Whether an AVP of this code is read as a number of four octets.
fn has_word(code: Code) -> bool
    ensures { result ≡ has_word code }
{
    match code.vendor {
        0 => matches!(code.number, 258 | 266 | 268 | 278 | 285 | 298 | 415 | 416),
        THREE_GPP => matches!(
            code.number,
            511 | 1006 | 1009 | 1010 | 1025 | 1026 | 1028 | 1045..=1048 | 1068..=1070 | 1080
        ),
        _ => false,
    }
}

/// An AVP of this code, with data of zeros: what a Failed-AVP shows of one that is missing (RFC 6733, clause 7.5). Takes
/// no memory.
pub fn example<'a>(code: Code) -> Avp<'a>
    ensures { shown result ≡ blank_of code }
{
    Avp {
        code: code.number,
        vendor: if code.vendor == 0 {
            None
        } else {
            Some(code.vendor)
        },
        mandatory: true,
        protected: false,
        octets: least_data(code),
    }
}

/// The fault at an AVP.
pub(crate) fn fault<T>(problem: Problem, avp: Avp<'_>) -> Result<T, Stop<'_>>
    ensures { result ≡ Err (Fault (record { problem = problem; failed = avp.entry })) }
{
    Err(Stop::Fault(GxFault {
        problem,
        failed: avp,
    }))
}
