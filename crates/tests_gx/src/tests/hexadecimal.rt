//! Octets in hexadecimal, and words.

use std::alloc::Global;
use std::fmt::Write;

/// Octets from hexadecimal; none where it is none, or for want of memory.
pub(super) fn octets(alloc: Global, text: &str) -> Vec<u8> {
    match hex::decode(alloc, text) {
        Ok(octets) => octets,
        Err(_) => Vec::new(alloc),
    }
}

/// A digit as hexadecimal has it.
fn digit(value: u8) -> Option<&'static u8> {
    b"0123456789abcdef".get(usize::from(value))
}

/// Whether a text is some octets in hexadecimal. Takes no memory.
pub(super) fn is_hexadecimal_of(octets: &[u8], text: &str) -> bool {
    let mut digits = text.as_bytes().iter();
    for octet in octets {
        if digits.next() != digit(octet >> 4) || digits.next() != digit(octet & 15) {
            return false;
        }
    }
    digits.next().is_none()
}

/// Puts a word behind others. Where there is no memory for it, it is left out: then the text isn't what is due.
pub(super) fn put(text: &mut String, word: &str) {
    let _is_put = text.push_str(word);
}

/// Puts a word and a number behind others, as [`put`].
pub(super) fn put_number(text: &mut String, word: &str, number: u64) {
    let _is_put = write!(text, "{word}{number}");
}

/// The same where there is a number.
pub(super) fn put_option(text: &mut String, word: &str, number: Option<u32>) {
    if let Some(number) = number {
        put_number(text, word, u64::from(number));
    }
}

/// The octets of two texts in hexadecimal, one behind the other, as [`octets`].
pub(super) fn octets_of_both(alloc: Global, first: &str, second: &str) -> Vec<u8> {
    let mut text = String::new(alloc);
    put(&mut text, first);
    put(&mut text, second);
    octets(alloc, &text)
}

/// Sets an octet, where there is one.
pub(super) fn set(message: &mut Vec<u8>, at: usize, value: u8) {
    if let Some(octet) = message.get_mut(at) {
        *octet = value;
    }
}
