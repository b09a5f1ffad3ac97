//! Why a line can't be read.

ghost use Rattle.std.specs.Prelude.{◌≡◌};
ghost use Rattle.pcef_line.specs.LineFaults.{fault_number, fault_name, fault_field, fault_code, packet_code, filter_code, rule_code};
ghost use Rattle.pcef_line.specs.declared.fault.LineFault.TheVariants.{NoMemory};

use crate::field::Field;
use pcef_filter::FilterFault;
use pcef_packet::PacketFault;
use pcef_rule::RuleFault;
use std::alloc::AllocFailed;
use std::error::Error;
use std::fmt::{self, Display, Formatter, Write};

/// Why a line can't be read. Of several faults up to [`LineFault::UnknownField`] the one of the lowest number is
/// answered; of the others, the one whose field is checked first.
#[derive(Clone, Copy, Debug, PartialEq, Eq)]
pub enum LineFault {
    /// The line has more than 262,144 bytes.
    LineTooLong,
    /// The line isn't UTF-8.
    NotUtf8,
    /// The line isn't a JSON text.
    NotJson,
    /// The JSON text is no object.
    NotObject,
    /// `do` is missing or none of the known words.
    UnknownDo,
    /// The line, or an object in it, has a field that it may not have.
    UnknownField,
    /// A field is missing.
    MissingField(Field),
    /// A field's value has the wrong kind, is no known word, or is out of range.
    BadField(Field),
    /// A field's text is no name.
    BadName(Field),
    /// A field's text isn't hexadecimal.
    BadHex(Field),
    /// A field's octets are no packet.
    BadPacket(Field, PacketFault),
    /// A field's text is no filter.
    BadFilter(Field, FilterFault),
    /// A field's object is no rule.
    BadRule(Field, RuleFault),
    /// There is no memory left.
    NoMemory,
}

impl LineFault {
    /// What the fault means, in a few words, up to the inner fault where there is one.
    fn message(self) -> &'static str {
        match self {
            LineFault::LineTooLong => "the line is too long",
            LineFault::NotUtf8 => "the line isn't UTF-8",
            LineFault::NotJson => "the line isn't JSON",
            LineFault::NotObject => "the line is no object",
            LineFault::UnknownDo => "`do` is no known word",
            LineFault::UnknownField => "a field is unknown",
            LineFault::MissingField(_) => "a field is missing",
            LineFault::BadField(_) => "a field has a wrong value",
            LineFault::BadName(_) => "a field is no name",
            LineFault::BadHex(_) => "a field isn't hexadecimal",
            LineFault::BadPacket(_, _) => "a field is no packet: ",
            LineFault::BadFilter(_, _) => "a field is no filter: ",
            LineFault::BadRule(_, _) => "a field is no rule: ",
            LineFault::NoMemory => "there is no memory left",
        }
    }
}

impl Display for LineFault {
    fn fmt<W: Write>(&self, f: &mut Formatter<W>) -> fmt::Result {
        f.write_str(self.message())?;
        match self {
            LineFault::BadPacket(_, inner) => inner.fmt(f),
            LineFault::BadFilter(_, inner) => inner.fmt(f),
            LineFault::BadRule(_, inner) => inner.fmt(f),
            _ => Ok(()),
        }
    }
}

impl Error for LineFault {}

impl<T: Drop> From<AllocFailed<T>> for LineFault {
    ghost from_gives = { λ _ fault. fault ≡ NoMemory };

    fn from(_refused: AllocFailed<T>) -> LineFault {
        LineFault::NoMemory
    }
}

fn packet_code(fault: PacketFault) -> u8
    ensures { result ≡ packet_code fault }
{
    match fault {
        PacketFault::Empty => 1,
        PacketFault::Version => 2,
        PacketFault::ShortHeader => 3,
        PacketFault::BadHeaderLength => 4,
        PacketFault::BadTotalLength => 5,
    }
}

fn filter_code(fault: FilterFault) -> u8
    ensures { result ≡ filter_code fault }
{
    match fault {
        FilterFault::Action => 1,
        FilterFault::Direction => 2,
        FilterFault::Proto => 3,
        FilterFault::From => 4,
        FilterFault::Source => 5,
        FilterFault::SourcePorts => 6,
        FilterFault::To => 7,
        FilterFault::Target => 8,
        FilterFault::TargetPorts => 9,
        FilterFault::Rest => 10,
        FilterFault::Flow => 11,
    }
}

fn rule_code(fault: RuleFault) -> u8
    ensures { result ≡ rule_code fault }
{
    match fault {
        RuleFault::NoFilter => 1,
        RuleFault::TooManyFilters => 2,
        RuleFault::NoMemory => 3,
    }
}

impl LineFault {
    /// The number of the fault, 1 to 14.
    pub fn number(self) -> u8
        ensures { result ≡ fault_number self }
    {
        match self {
            LineFault::LineTooLong => 1,
            LineFault::NotUtf8 => 2,
            LineFault::NotJson => 3,
            LineFault::NotObject => 4,
            LineFault::UnknownDo => 5,
            LineFault::UnknownField => 6,
            LineFault::MissingField(_) => 7,
            LineFault::BadField(_) => 8,
            LineFault::BadName(_) => 9,
            LineFault::BadHex(_) => 10,
            LineFault::BadPacket(_, _) => 11,
            LineFault::BadFilter(_, _) => 12,
            LineFault::BadRule(_, _) => 13,
            LineFault::NoMemory => 14,
        }
    }

    /// The name of the fault.
    pub fn name(self) -> &'static str
        ensures { result.now ≡ fault_name self }
    {
        match self {
            LineFault::LineTooLong => "LineTooLong",
            LineFault::NotUtf8 => "NotUtf8",
            LineFault::NotJson => "NotJson",
            LineFault::NotObject => "NotObject",
            LineFault::UnknownDo => "UnknownDo",
            LineFault::UnknownField => "UnknownField",
            LineFault::MissingField(_) => "MissingField",
            LineFault::BadField(_) => "BadField",
            LineFault::BadName(_) => "BadName",
            LineFault::BadHex(_) => "BadHex",
            LineFault::BadPacket(_, _) => "BadPacket",
            LineFault::BadFilter(_, _) => "BadFilter",
            LineFault::BadRule(_, _) => "BadRule",
            LineFault::NoMemory => "NoMemory",
        }
    }

    /// The field at fault, where the fault is one of a field.
    pub fn field(self) -> Option<Field>
        ensures { result ≡ fault_field self }
    {
        match self {
            LineFault::MissingField(field)
            | LineFault::BadField(field)
            | LineFault::BadName(field)
            | LineFault::BadHex(field)
            | LineFault::BadPacket(field, _)
            | LineFault::BadFilter(field, _)
            | LineFault::BadRule(field, _) => Some(field),
            _ => None,
        }
    }

    /// The number of the inner fault, where the field's packet, filter or rule has one.
    pub fn code(self) -> Option<u8>
        ensures { result ≡ fault_code self }
    {
        match self {
            LineFault::BadPacket(_, fault) => Some(packet_code(fault)),
            LineFault::BadFilter(_, fault) => Some(filter_code(fault)),
            LineFault::BadRule(_, fault) => Some(rule_code(fault)),
            _ => None,
        }
    }
}
