//! What is wrong with a list of ports, or with an address, in the text of a filter.

use crate::message::Message;
use pcef_packet::Addr;

/// The most items of a list.
const MOST_ITEMS: usize = 8;

/// The number that one to five digits write.
fn number_of(text: &str) -> Option<u32> {
    if text.is_empty() || text.len() > 5 {
        return None;
    }
    let mut number = 0u32;
    for octet in text.as_bytes() {
        if !octet.is_ascii_digit() {
            return None;
        }
        let digit = u32::from(octet.saturating_sub(b'0'));
        number = number.saturating_mul(10).saturating_add(digit);
    }
    Some(number)
}

/// Writes what is wrong with a text that should be a port. Returns whether anything is.
fn write_port(message: &mut Message, text: &str) -> bool {
    if text.is_empty() {
        message.text(
            "a port is missing: a list without blanks, as 53 or 80,8000-8080, is expected",
        );
        return true;
    }
    if number_of(text).is_some_and(|number| number <= 65_535) {
        return false;
    }
    message.text("in the place of ");
    message.quote(text);
    message.text(" a port from 0 to 65535 is expected");
    true
}

/// Writes that a range is reversed.
fn write_reversed(message: &mut Message, first: &str, last: &str) {
    message.text("the range ");
    message.text(first);
    message.text("-");
    message.text(last);
    message.text(" is reversed: ");
    message.text(last);
    message.text("-");
    message.text(first);
    message.text(", with the lower port first, is expected");
}

/// Writes what is wrong with a range of ports. Returns whether anything is.
fn write_range(message: &mut Message, first: &str, last: &str) -> bool {
    if write_port(message, first) || write_port(message, last) {
        return true;
    }
    if number_of(first) > number_of(last) {
        write_reversed(message, first, last);
        return true;
    }
    false
}

/// Writes what is wrong with a list of ports: the first item that is no port and no range, or their number. Returns
/// whether anything is.
pub(crate) fn write_ports(message: &mut Message, token: &str) -> bool {
    let mut count = 0usize;
    for item in token.split(',') {
        let is_told = match item.split_once('-') {
            Some((first, last)) => write_range(message, first, last),
            None => write_port(message, item),
        };
        if is_told {
            return true;
        }
        count = count.saturating_add(1);
    }
    if count > MOST_ITEMS {
        message.number(MOST_ITEMS);
        message.text(" ports and ranges at most are expected, and these are ");
        message.number(count);
        return true;
    }
    false
}

/// Whether a text is an address, or a word for addresses.
fn is_address(text: &str) -> bool {
    text == "any" || text == "assigned" || Addr::from_text(text.as_bytes()).is_some()
}

/// Writes which number of bits is expected behind a slash, where an address stands before it. Returns whether one does.
fn write_bits(message: &mut Message, token: &str) -> bool {
    let Some((address, bits)) = token.split_once('/') else {
        return false;
    };
    let Some(address) = Addr::from_text(address.as_bytes()) else {
        return false;
    };
    message.text("a number of bits from 0 to ");
    message.number(usize::from(address.width()));
    message.text(" is expected in the place of ");
    message.quote(bits);
    true
}

/// Writes what is wrong with a text that should be an address, where more is known than that it is none: the bits of a
/// network, or ports that follow without a blank. Returns whether it is.
pub(crate) fn write_address(message: &mut Message, token: &str) -> bool {
    if write_bits(message, token) {
        return true;
    }
    match token.split_once(':') {
        Some((address, _)) if is_address(address) => {
            message.text("a blank is expected between an address and its ports, as in \"any 80\"");
            true
        }
        _ => false,
    }
}
