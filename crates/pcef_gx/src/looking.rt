//! The AVPs of a message or of a grouped AVP, and looking one up.

ghost use Rattle.std.specs.Prelude.{◌≡◌, ◌≤◌, IfOk, length, map, option_map};
ghost use Rattle.std.specs.List.{find};
ghost use Rattle.pcef_diameter.specs.Avps.{shown};
ghost use Rattle.pcef_gx.specs.Readings.{Gives, avps_within, code_in, group_of, is_unknown_avp, long_number_of, number_from_to, number_of, only_number_of, only_of, only_word_of, problem_of, required_of, stands};

use crate::code::{Code, code_of, is};
use crate::fault::{Problem, Stop, example, fault};
use crate::known::is_known;
use pcef_diameter::{Avp, AvpFault, read_avps, read_unsigned32, read_unsigned64, word_at};
use std::alloc::Global;

/// The code at the front of octets that are no AVP, as far as they go.
fn code_in(octets: &[u8]) -> Code
    ensures { result ≡ code_in octets.now }
{
    if octets.len() < 4 {
        return Code {
            vendor: 0,
            number: 0,
        };
    }
    let number = word_at(octets, 0);
    if octets.len() < 12 || word_at(octets, 4) >> 24 < 128 {
        return Code { vendor: 0, number };
    }
    Code {
        vendor: word_at(octets, 8),
        number,
    }
}

/// What is wrong with octets that are no AVP.
fn problem_of(fault: AvpFault) -> Problem
    ensures { result ≡ problem_of fault }
{
    match fault {
        AvpFault::Bits => Problem::InvalidAvpBits,
        AvpFault::Cut | AvpFault::Length => Problem::InvalidAvpLength,
    }
}

/// The first mandatory AVP that isn't known.
fn unknown<'a>(avps: &[Avp<'a>]) -> Option<Avp<'a>>
    ensures { option_map shown result ≡ find is_unknown_avp (map shown avps.now) }
{
    for avp in avps {
        if avp.mandatory && !is_known(code_of(avp)) {
            return Some(*avp);
        }
    }
    None
}

/// The AVPs that octets are, or the fault of the first that is none.
fn avps(alloc: Global, octets: &[u8]) -> Result<Vec<Avp>, Stop>
    ensures { Gives (λ avps. map shown avps.items) result (avps_within (length octets.now) octets.now) }
{
    let read = read_avps(alloc, octets)?;
    match read.fault {
        Some(at_fault) => fault(problem_of(at_fault), example(code_in(read.rest))),
        None => Ok(read.avps),
    }
}

/// The AVPs that the octets behind a header, or the data of a grouped AVP, are. They are at fault at the first that is
/// none, else at the first that is mandatory and isn't known. The list takes memory.
#[tactic(auto, unfolding(crate::specs::Readings::group_of))]
pub fn group(alloc: Global, octets: &[u8]) -> Result<Vec<Avp>, Stop>
    ensures { Gives (λ avps. map shown avps.items) result (group_of octets.now) }
{
    let avps = avps(alloc, octets)?;
    match unknown(&avps) {
        Some(avp) => fault(Problem::AvpUnsupported, avp),
        None => Ok(avps),
    }
}

/// Whether an AVP of this code stands there. Takes no memory.
pub(crate) fn stands(avps: &[Avp], code: Code) -> bool
    ensures { result ≡ stands code (map shown avps.now) }
{
    for avp in avps {
        if is(avp, code) {
            return true;
        }
    }
    false
}

/// The AVP of this code, where there is one. It is at fault where there are two.
#[tactic(auto, unfolding(crate::specs::Readings::only_of))]
pub fn only<'a>(avps: &[Avp<'a>], code: Code) -> Result<Option<Avp<'a>>, Stop<'a>>
    ensures { Gives (λ a. option_map shown a) result (only_of code (map shown avps.now)) }
{
    let mut found = None;
    for avp in avps {
        if is(avp, code) {
            if found.is_some() {
                return fault(Problem::AvpOccursTooManyTimes, *avp);
            }
            found = Some(*avp);
        }
    }
    Ok(found)
}

/// The AVP of this code. It is at fault where there is none, or where there are two.
#[tactic(auto, unfolding(crate::specs::Readings::required_of))]
pub fn required<'a>(avps: &[Avp<'a>], code: Code) -> Result<Avp<'a>, Stop<'a>>
    ensures { Gives (λ a. shown a) result (required_of code (map shown avps.now)) }
{
    match only(avps, code)? {
        Some(avp) => Ok(avp),
        None => fault(Problem::MissingAvp, example(code)),
    }
}

/// The number that an AVP has.
#[tactic(auto, unfolding(crate::specs::Readings::number_of))]
pub(crate) fn number(avp: Avp<'_>) -> Result<u32, Stop<'_>>
    ensures { Gives (λ n. n) result (number_of (shown avp.entry)) }
{
    match read_unsigned32(avp.octets) {
        Some(number) => Ok(number),
        None => fault(Problem::InvalidAvpLength, example(code_of(&avp))),
    }
}

/// The number of eight octets that an AVP has.
#[tactic(auto, unfolding(crate::specs::Readings::long_number_of))]
pub(crate) fn long_number(avp: Avp<'_>) -> Result<u64, Stop<'_>>
    ensures { Gives (λ n. n) result (long_number_of (shown avp.entry)) }
{
    match read_unsigned64(avp.octets) {
        Some(number) => Ok(number),
        None => fault(Problem::InvalidAvpLength, example(code_of(&avp))),
    }
}

/// The number of the AVP of this code, where there is one.
#[tactic(auto, unfolding(crate::specs::Readings::only_number_of))]
pub(crate) fn only_number<'a>(avps: &[Avp<'a>], code: Code) -> Result<Option<u32>, Stop<'a>>
    ensures { Gives (λ n. n) result (only_number_of code (map shown avps.now)) }
{
    match only(avps, code)? {
        Some(avp) => Ok(Some(number(avp)?)),
        None => Ok(None),
    }
}

/// The number that an AVP has, in a range.
#[tactic(auto, unfolding(crate::specs::Readings::number_from_to))]
pub(crate) fn number_from_to(avp: Avp<'_>, least: u32, most: u32) -> Result<u32, Stop<'_>>
    ensures number { Gives (λ n. n) result (number_from_to least most (shown avp.entry)) }
    ensures range { IfOk result (λ n. (least ≤ n) × (n ≤ most)) }
{
    let number = number(avp)?;
    if number < least || most < number {
        return fault(Problem::InvalidAvpValue, avp);
    }
    Ok(number)
}

/// The word of the Enumerated AVP of this code, where there is one, from 0 to `most`.
#[tactic(auto, unfolding(crate::specs::Readings::only_word_of))]
pub(crate) fn only_word<'a>(
    avps: &[Avp<'a>],
    code: Code,
    most: u32,
) -> Result<Option<u32>, Stop<'a>>
    ensures { Gives (λ n. n) result (only_word_of code most (map shown avps.now)) }
{
    match only(avps, code)? {
        Some(avp) => Ok(Some(number_from_to(avp, 0, most)?)),
        None => Ok(None),
    }
}
