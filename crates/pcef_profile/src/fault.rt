//! Why a profile can't be read.

ghost use Rattle.std.specs.Prelude.{◌≡◌};
ghost use Rattle.pcef_profile.specs.Explanations.{profile_fault_name};
ghost use Rattle.pcef_profile.specs.ProfileOf.{profile_fault_number};
ghost use Rattle.pcef_profile.specs.declared.fault.ReadProfileFault.TheVariants.{NoMemory};

use std::alloc::AllocFailed;
use std::error::Error;
use std::fmt::{self, Display, Formatter, Write};

/// Why a profile can't be read. Of several faults the first in this order is answered, wherever in the
/// text it is.
#[derive(Clone, Copy, Debug, PartialEq, Eq)]
pub enum ReadProfileFault {
    /// The text isn't TOML.
    NotToml,
    /// A table has a key that it may not have.
    UnknownKey,
    /// A table lacks a key.
    Missing,
    /// A value has the wrong kind or is out of range.
    BadValue,
    /// The QCI of the default bearer is neither standard nor declared.
    UnknownQci,
    /// The QCI of the default bearer has a guaranteed bit rate.
    DefaultIsGbr,
    /// There is no memory left.
    NoMemory,
}

impl ReadProfileFault {
    /// What the fault means, in a few words.
    fn message(self) -> &'static str {
        match self {
            ReadProfileFault::NotToml => "the profile isn't TOML",
            ReadProfileFault::UnknownKey => "a key of the profile is unknown",
            ReadProfileFault::Missing => "a key of the profile is missing",
            ReadProfileFault::BadValue => "a value of the profile is wrong",
            ReadProfileFault::UnknownQci => "the default QCI is unknown",
            ReadProfileFault::DefaultIsGbr => "the default QCI has a guaranteed bit rate",
            ReadProfileFault::NoMemory => "there is no memory left",
        }
    }
}

impl Display for ReadProfileFault {
    fn fmt<W: Write>(&self, f: &mut Formatter<W>) -> fmt::Result {
        f.write_str(self.message())
    }
}

impl Error for ReadProfileFault {}

impl<T: Drop> From<AllocFailed<T>> for ReadProfileFault {
    ghost from_gives = { λ _ fault. fault ≡ NoMemory };

    fn from(_refused: AllocFailed<T>) -> ReadProfileFault {
        ReadProfileFault::NoMemory
    }
}

impl ReadProfileFault {
    /// The name of the fault.
    pub fn name(self) -> &'static str
        ensures { result.now ≡ profile_fault_name self }
    {
        match self {
            ReadProfileFault::NotToml => "NotToml",
            ReadProfileFault::UnknownKey => "UnknownKey",
            ReadProfileFault::Missing => "Missing",
            ReadProfileFault::BadValue => "BadValue",
            ReadProfileFault::UnknownQci => "UnknownQci",
            ReadProfileFault::DefaultIsGbr => "DefaultIsGbr",
            ReadProfileFault::NoMemory => "NoMemory",
        }
    }

    /// The number of the fault, 1 to 7.
    pub fn number(self) -> u8
        ensures { result ≡ profile_fault_number self }
    {
        match self {
            ReadProfileFault::NotToml => 1,
            ReadProfileFault::UnknownKey => 2,
            ReadProfileFault::Missing => 3,
            ReadProfileFault::BadValue => 4,
            ReadProfileFault::UnknownQci => 5,
            ReadProfileFault::DefaultIsGbr => 6,
            ReadProfileFault::NoMemory => 7,
        }
    }
}
