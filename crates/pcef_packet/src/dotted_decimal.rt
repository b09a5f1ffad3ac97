//! IPv4 addresses in dotted decimal form.

ghost use Rattle.std.specs.Prelude.{◌≡◌};
ghost use Rattle.pcef_packet.specs.AddressTexts.{dotted_of};
ghost use Rattle.pcef_packet.specs.DottedDecimal.{octet_of};

use crate::cutting::cut_at;

/// The number from 0 to 255 that one to three decimal digits write.
#[tactic(auto, unfolding(crate::specs::DottedDecimal::octet_of))]
fn octet(digits: &[u8]) -> Option<u8>
    ensures { result ≡ octet_of digits.now }
{
    if digits.is_empty() || digits.len() > 3 {
        return None;
    }
    let mut number = 0;
    for digit in digits {
        if !digit.is_ascii_digit() {
            return None;
        }
        number = number * 10 + u32::from(*digit - b'0');
    }
    if number > 255 {
        return None;
    }
    Some(number as u8)
}

/// The number that four numbers from 0 to 255 joined by dots write.
#[tactic(auto, unfolding(crate::specs::AddressTexts::dotted_of))]
pub(crate) fn dotted_number(text: &[u8]) -> Option<u32>
    ensures { result ≡ dotted_of text.now }
{
    let (first, rest) = cut_at(text, b'.')?;
    let (second, rest) = cut_at(rest, b'.')?;
    let (third, fourth) = cut_at(rest, b'.')?;
    let first = u32::from(octet(first)?);
    let second = u32::from(octet(second)?);
    let third = u32::from(octet(third)?);
    let fourth = u32::from(octet(fourth)?);
    Some(((first * 256 + second) * 256 + third) * 256 + fourth)
}
