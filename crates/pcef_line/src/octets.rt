//! The octets that a text spells in hexadecimal.

ghost use Rattle.std.specs.Prelude.{◌≡◌, ◌*◌, ◌<◌, ◌≤◌, Err, MatchOption, Ok, length, ℕ};
ghost use Rattle.std.specs.Bool.{MatchBool};
ghost use Rattle.hex.specs.Hex.{decode_of, hex_digit_value, pair_value};
ghost use Rattle.hex.specs.declared.error.FromHexError.{FromHexError};

/// The value of each code as a digit of either case, and 256 of one that is none: no octet has it. The digits of a packet
/// are in no order that a branch predictor learns, so a table is faster than tests.
const DIGITS: [u16; 256] = [
    256, 256, 256, 256, 256, 256, 256, 256, 256, 256, 256, 256, 256, 256, 256, 256, 256, 256, 256,
    256, 256, 256, 256, 256, 256, 256, 256, 256, 256, 256, 256, 256, 256, 256, 256, 256, 256, 256,
    256, 256, 256, 256, 256, 256, 256, 256, 256, 256, 0, 1, 2, 3, 4, 5, 6, 7, 8, 9, 256, 256, 256,
    256, 256, 256, 256, 10, 11, 12, 13, 14, 15, 256, 256, 256, 256, 256, 256, 256, 256, 256, 256,
    256, 256, 256, 256, 256, 256, 256, 256, 256, 256, 256, 256, 256, 256, 256, 256, 10, 11, 12, 13,
    14, 15, 256, 256, 256, 256, 256, 256, 256, 256, 256, 256, 256, 256, 256, 256, 256, 256, 256,
    256, 256, 256, 256, 256, 256, 256, 256, 256, 256, 256, 256, 256, 256, 256, 256, 256, 256, 256,
    256, 256, 256, 256, 256, 256, 256, 256, 256, 256, 256, 256, 256, 256, 256, 256, 256, 256, 256,
    256, 256, 256, 256, 256, 256, 256, 256, 256, 256, 256, 256, 256, 256, 256, 256, 256, 256, 256,
    256, 256, 256, 256, 256, 256, 256, 256, 256, 256, 256, 256, 256, 256, 256, 256, 256, 256, 256,
    256, 256, 256, 256, 256, 256, 256, 256, 256, 256, 256, 256, 256, 256, 256, 256, 256, 256, 256,
    256, 256, 256, 256, 256, 256, 256, 256, 256, 256, 256, 256, 256, 256, 256, 256, 256, 256, 256,
    256, 256, 256, 256, 256, 256, 256, 256, 256, 256, 256, 256, 256, 256, 256, 256, 256, 256, 256,
    256, 256, 256,
];

/// The value of a code as a digit, or 256.
fn digit(code: u8) -> u16
    ensures value { MatchOption (hex_digit_value code) (result ≡ 256) (λ d. (result ≡ d) × (d < 16)) }
    ensures most { result ≤ 256 }
{
    DIGITS[code as usize]
}

/// The octet that two digits stand for.
fn pair(high: u8, low: u8) -> Option<u8>
    ensures { (i : ℕ) → MatchOption result ((e : FromHexError) × (pair_value high low i ≡ Err e))
        (λ v. pair_value high low i ≡ Ok v) }
{
    let octet = digit(high) * 16 + digit(low);
    if octet < 256 { Some(octet as u8) } else { None }
}

/// Whether a text is in hexadecimal, of which two digits stand for each of these octets: these are what it spells.
pub(crate) fn decode(text: &[u8], octets: &mut [u8]) -> bool
    requires { length text.now ≡ 2 * length octets.old }
    ensures { MatchBool result (decode_of text.now ≡ Ok octets.new)
        ((e : FromHexError) × (decode_of text.now ≡ Err e)) }
{
    for i in 0..octets.len() {
        match pair(text[2 * i], text[2 * i + 1]) {
            Some(octet) => octets[i] = octet,
            None => return false,
        }
    }
    true
}
