//! Options of blocks.

ghost use Rattle.std.specs.Prelude.{◌≡◌, ◌<◌, IfSome, MatchOption, None as DueNone, Some as DueSome, length, option_map};
ghost use Rattle.pcef_capture_file.specs.Options.{option_at, value_of};
ghost use Rattle.pcef_capture_file.specs.Times.{clock_of, offset_of, unit_of};

use crate::endianness::Endianness;
use crate::time::{Clock, TimeOffset, TimeUnit};

/// The code of the option with the unit of times.
const IF_TSRESOL: u16 = 9;

/// The code of the option with the seconds that are added to times.
const IF_TSOFFSET: u16 = 14;

/// The length of an option's code and length, in octets.
const OPTION_HEADER_LEN: usize = 4;

/// The option at the front: its code, its value, and the octets behind it. None where the options end, or it isn't
/// whole.
#[tactic(auto, unfolding(crate::specs::Options::option_at))]
fn option_at(endianness: Endianness, octets: &[u8]) -> Option<(u16, &[u8], &[u8])>
    ensures option { MatchOption result (option_at endianness octets.now ≡ DueNone)
        (λ o. option_at endianness octets.now ≡ DueSome (o.0, o.1.now, o.2.now)) }
    ensures shorter { IfSome result (λ o. length o.2.now < length octets.now) }
{
    if octets.len() < OPTION_HEADER_LEN {
        return None;
    }
    let code = endianness.number_in_2(octets, 0);
    if code == 0 {
        return None;
    }
    let len = usize::from(endianness.number_in_2(octets, 2));
    let whole = OPTION_HEADER_LEN + (len + 3) / 4 * 4;
    if octets.len() < whole {
        return None;
    }
    let value = octets.split_at(OPTION_HEADER_LEN).1.split_at(len).0;
    Some((code, value, octets.split_at(whole).1))
}

/// The value of the first option of a code.
fn value_of(endianness: Endianness, code: u16, octets: &[u8]) -> Option<&[u8]>
    ensures { option_map (λ o. o.now) result ≡ value_of endianness code octets.now }
{
    let mut rest = octets;
    loop {
        let Some((found, value, behind)) = option_at(endianness, rest) else {
            return None;
        };
        if found == code {
            return Some(value);
        }
        rest = behind;
    }
}

/// The unit that an option states; without one, a microsecond.
fn unit_of(value: Option<&[u8]>) -> TimeUnit
    ensures { result ≡ unit_of (option_map (λ o. o.now) value.entry) }
{
    match value {
        Some(&[octet]) => TimeUnit::of_octet(octet),
        _ => TimeUnit::Decimal(6),
    }
}

/// The seconds that an option states; without one, none.
fn offset_of(endianness: Endianness, value: Option<&[u8]>) -> TimeOffset
    ensures { result ≡ offset_of endianness (option_map (λ o. o.now) value.entry) }
{
    match value {
        Some(octets) if octets.len() == 8 => TimeOffset::of_bits(endianness.number_in_8(octets, 0)),
        _ => TimeOffset::Later(0),
    }
}

/// The clock of an interface with these options.
pub(crate) fn clock_of(endianness: Endianness, options: &[u8]) -> Clock
    ensures { result ≡ clock_of endianness options.now }
{
    Clock {
        unit: unit_of(value_of(endianness, IF_TSRESOL, options)),
        offset: offset_of(endianness, value_of(endianness, IF_TSOFFSET, options)),
    }
}
