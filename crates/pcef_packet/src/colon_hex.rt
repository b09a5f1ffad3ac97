//! IPv6 addresses in text (RFC 4291, clause 2.2).

ghost use Rattle.std.specs.Prelude.{◌≡◌, ◌+◌, ◌-◌, ◌*◌, ◌<◌, ◌≤◌, ◌^◌, IfSome, length};
ghost use Rattle.pcef_packet.specs.ColonHex.{digit_of, group_of};
ghost use Rattle.pcef_packet.specs.AddressTexts.{colon_hex_in, gap_place, groups_in, shortened_in, side_in, whole_in};

use crate::cutting::cut_at;

/// The value of a hexadecimal digit.
#[tactic(auto, unfolding(crate::specs::ColonHex::digit_of))]
fn digit(octet: u8) -> Option<u8>
    ensures value { result ≡ digit_of octet }
    ensures small { IfSome result (λ d. d < 16) }
{
    match octet {
        b'0'..=b'9' => Some(octet - b'0'),
        b'A'..=b'F' => Some(octet - 55),
        b'a'..=b'f' => Some(octet - 87),
        _ => None,
    }
}

/// The number of one to four hexadecimal digits.
#[tactic(auto, unfolding(crate::specs::ColonHex::group_of))]
fn group(digits: &[u8]) -> Option<u16>
    ensures { result ≡ group_of digits.now }
{
    if digits.is_empty() || digits.len() > 4 {
        return None;
    }
    let mut number = 0u32;
    for octet in digits {
        let Some(digit) = digit(*octet) else {
            return None;
        };
        number = number * 16 + u32::from(digit);
    }
    Some(number as u16)
}

/// The number of some groups and their count.
#[tactic(auto, unfolding(crate::specs::AddressTexts::groups_within))]
fn groups(text: &[u8]) -> Option<(u128, u8)>
    ensures value { result ≡ groups_in text.now }
    ensures bound { IfSome result (λ g. (g.0 < 65536 ^ g.1) × (g.1 ≤ 8)) }
{
    let mut number = 0u128;
    let mut left = text;
    for count in 0..8u8 {
        let Some((front, rest)) = cut_at(left, b':') else {
            let Some(last) = group(left) else {
                return None;
            };
            return Some((number * 65536 + u128::from(last), count + 1));
        };
        let Some(next) = group(front) else {
            return None;
        };
        number = number * 65536 + u128::from(next);
        left = rest;
    }
    None
}

/// The number and the count of the groups on one side of two colons.
#[tactic(auto, unfolding(crate::specs::AddressTexts::side_in))]
fn side(text: &[u8]) -> Option<(u128, u8)>
    ensures value { result ≡ side_in text.now }
    ensures bound { IfSome result (λ g. (g.0 < 65536 ^ g.1) × (g.1 ≤ 8)) }
{
    if text.is_empty() {
        Some((0, 0))
    } else {
        groups(text)
    }
}

/// How many octets stand before the first two colons.
fn place_of_gap(text: &[u8]) -> usize
    ensures place { result ≡ gap_place text.now }
    ensures within { result ≤ length text.now }
{
    for i in 0..text.len() {
        if text[i] == b':' && i + 1 < text.len() && text[i + 1] == b':' {
            return i;
        }
    }
    text.len()
}

/// The number with the groups behind it that are missing from eight, all of them zero.
fn in_front(number: u128, count: u8) -> u128
    requires few { count ≤ 8 }
    requires bound { number < 65536 ^ count }
    ensures { result ≡ number * 65536 ^ (8 - count) }
{
    let mut high = number;
    for i in count..8 {
        high = high * 65536;
    }
    high
}

/// The number of eight groups.
#[tactic(auto, unfolding(crate::specs::AddressTexts::whole_in))]
fn whole(text: &[u8]) -> Option<u128>
    ensures { result ≡ whole_in text.now }
{
    let (number, count) = groups(text)?;
    if count == 8 { Some(number) } else { None }
}

/// The number of the groups before two colons and of those behind them.
#[tactic(auto, unfolding(crate::specs::AddressTexts::shortened_in))]
fn expand(before: &[u8], behind: &[u8]) -> Option<u128>
    ensures { result ≡ shortened_in before.now behind.now }
{
    let Some((high, highs)) = side(before) else {
        return None;
    };
    let Some((low, lows)) = side(behind) else {
        return None;
    };
    if highs + lows <= 7 {
        Some(in_front(high, highs) + low)
    } else {
        None
    }
}

/// The number of eight groups, or of fewer around two colons.
#[tactic(auto, unfolding(crate::specs::AddressTexts::colon_hex_in))]
pub(crate) fn colon_hex_number(text: &[u8]) -> Option<u128>
    ensures { result ≡ colon_hex_in text.now }
{
    let place = place_of_gap(text);
    if place < text.len() {
        expand(&text[..place], &text[place + 2..])
    } else {
        whole(text)
    }
}
