//! Names of rules and keys: any octets in a message, and visible ASCII in a session.

ghost use Rattle.std.specs.Prelude.{◌≡◌, ◌<◌, ◌+◌, ◌++◌, ◌∷◌, [], IfOk, IsTrue, length, nat_le, nat_lt, true};
ghost use Rattle.pcef_gx.specs.Names.{digit, escaped, is_digit, is_escape, is_plain, name_of, octets_of, value_of};

use arrayvec::ArrayString;
use pcef_rule::Name;
use std::alloc::{AllocError, Global};

/// Whether an octet stands for itself in a name.
fn is_plain(octet: u8) -> bool
    ensures { result ≡ is_plain octet }
{
    0x21 <= octet && octet <= 0x7E && octet != b'%'
}

/// The character of a hexadecimal digit.
fn digit(value: u8) -> u8
    requires { value < 16 }
    ensures exact { result ≡ digit value }
    ensures ascii { result < 128 }
{
    if value < 10 {
        b'0' + value
    } else {
        b'A' - 10 + value
    }
}

/// Writes an ASCII character behind others, where there is room.
fn push(text: &mut ArrayString<64>, octet: u8) -> bool
    requires { octet < 128 }
    ensures room { result ≡ nat_lt (length text.old.bytes) 64 }
    ensures new { IsTrue result → text.new.bytes ≡ text.old.bytes ++ octet ∷ [] }
{
    text.try_push(char::from(octet)).is_ok()
}

/// Writes an octet of a name behind others: itself, or `%` and two digits. Whether there was room.
fn push_octet(text: &mut ArrayString<64>, octet: u8) -> bool
    ensures room { result ≡ nat_le (length text.old.bytes + length (escaped octet)) 64 }
    ensures new { IsTrue result → text.new.bytes ≡ text.old.bytes ++ escaped octet }
{
    if is_plain(octet) {
        return push(text, octet);
    }
    push(text, b'%') && push(text, digit(octet / 16 % 16)) && push(text, digit(octet % 16))
}

/// The name that stands for some octets: each octet from 0x21 to 0x7E but `%` stands for itself, and any other is `%`
/// and two hexadecimal digits. None where there are no octets, or where the name would have more than 64 characters.
/// Takes no memory.
pub fn name_of<K>(octets: &[u8]) -> Option<Name<K>>
    ensures { result ≡ name_of octets.now }
{
    let mut text = ArrayString::<64>::new();
    for octet in octets {
        if !push_octet(&mut text, *octet) {
            return None;
        }
    }
    if text.is_empty() {
        return None;
    }
    Some(Name::known(text.as_str()))
}

/// Whether a character is a hexadecimal digit.
fn is_digit(character: u8) -> bool
    ensures { result ≡ is_digit character }
{
    matches!(character, b'0'..=b'9' | b'A'..=b'F')
}

/// The value of a hexadecimal digit.
fn value_of(character: u8) -> u8
    requires { is_digit character ≡ true }
    ensures exact { result ≡ value_of character }
    ensures most { result < 16 }
{
    if character < 58 {
        character - b'0'
    } else {
        character - b'A' + 10
    }
}

/// The octets that a name stands for. A name that no octets have keeps what is no escape. The list takes memory.
pub fn octets_of(alloc: Global, name: &[u8]) -> Result<Vec<u8>, AllocError>
    ensures { IfOk result (λ octets. octets.items ≡ octets_of name.now) }
{
    let mut octets = Vec::new(alloc);
    let mut rest = name;
    loop {
        match rest {
            [b'%', high, low, others @ ..] if is_digit(*high) && is_digit(*low) => {
                octets.push(value_of(*high) * 16 + value_of(*low))?;
                rest = others;
            }
            [octet, others @ ..] => {
                octets.push(*octet)?;
                rest = others;
            }
            [] => return Ok(octets),
        }
    }
}
