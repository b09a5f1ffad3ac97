//! The wrong filter of a rule, and its wrong token.

ghost use Rattle.std.specs.Prelude.{◌≤◌};

use crate::message::{MOST_SHOWN, Message};
use crate::place::Place;
use crate::ports::{write_address, write_ports};
use pcef_filter::{FilterFault, Flow, read_filter};
use serde_json::Value;

/// The flow word of a filter.
fn flow_of(filter: &Value) -> Option<Flow> {
    match filter.get("flow").and_then(Value::as_str)? {
        "downlink" => Some(Flow::Downlink),
        "uplink" => Some(Flow::Uplink),
        "bidirectional" => Some(Flow::Bidirectional),
        _ => None,
    }
}

/// The text of a filter.
fn text_of(filter: &Value) -> Option<&str> {
    filter.get("text").and_then(Value::as_str)
}

/// The number of the first filter whose text is wrong, from 0, and its text.
fn first_wrong(filters: &[Value]) -> Option<(usize, &str)> {
    for (number, filter) in filters.iter().enumerate() {
        if let Some(text) = text_of(filter) {
            if read_filter(text, flow_of(filter)).is_err() {
                return Some((number, text));
            }
        }
    }
    None
}

/// The token of this number, from 0, of a filter text.
fn token_of(text: &str, number: usize) -> Option<&str> {
    let mut count = 0usize;
    for part in text.split(' ') {
        for token in part.split('\t') {
            if !token.is_empty() {
                if count == number {
                    return Some(token);
                }
                count = count.saturating_add(1);
            }
        }
    }
    None
}

/// 1 where the token of this number begins with a digit, as ports do, and else 0.
fn ports_at(text: &str, number: usize) -> usize
    ensures { result ≤ 1 }
{
    match token_of(text, number) {
        Some(token) if token.as_bytes().first().is_some_and(u8::is_ascii_digit) => 1,
        _ => 0,
    }
}

/// The number of the token at which a filter text is wrong, from 0.
fn token_at(text: &str, fault: FilterFault) -> usize {
    let word = ports_at(text, 5) + 5;
    match fault {
        FilterFault::Action | FilterFault::Flow => 0,
        FilterFault::Direction => 1,
        FilterFault::Proto => 2,
        FilterFault::From => 3,
        FilterFault::Source => 4,
        FilterFault::SourcePorts => 5,
        FilterFault::To => word,
        FilterFault::Target => word + 1,
        FilterFault::TargetPorts => word + 2,
        FilterFault::Rest => word + 2 + ports_at(text, word + 2),
    }
}

/// What is expected at the token.
fn expected_text(fault: FilterFault) -> &'static str {
    match fault {
        FilterFault::Action => "\"permit\"",
        FilterFault::Direction => "\"in\" or \"out\"",
        FilterFault::Proto => "\"ip\", or a number from 0 to 255 as 6 for TCP and 17 for UDP,",
        FilterFault::From => "\"from\"",
        FilterFault::To => "\"to\"",
        FilterFault::Source | FilterFault::Target => {
            "\"any\", \"assigned\", or an address as 10.0.0.0/8 or 2001:db8::/32,"
        }
        FilterFault::SourcePorts | FilterFault::TargetPorts => {
            "one to eight ports without blanks, as 53 or 80,8000-8080,"
        }
        FilterFault::Rest => "nothing more",
        FilterFault::Flow => "no flow word",
    }
}

/// Writes what is wrong within a token, if it is a list of ports or an address and that is known. Returns whether it
/// is.
fn write_within(message: &mut Message, token: &str, fault: FilterFault) -> bool {
    match fault {
        _ if token.len() > MOST_SHOWN => false,
        FilterFault::SourcePorts | FilterFault::TargetPorts => write_ports(message, token),
        FilterFault::Source | FilterFault::Target => write_address(message, token),
        _ => false,
    }
}

/// Writes which token is missing or wrong, and what is expected.
fn write_token(message: &mut Message, text: &str, fault: FilterFault) {
    let number = token_at(text, fault);
    message.text(": token ");
    message.number(number.saturating_add(1));
    match token_of(text, number) {
        None => message.text(" is missing: "),
        Some(token) => {
            message.text(" is ");
            message.short(token);
            message.text(": ");
            if write_within(message, token, fault) {
                return;
            }
        }
    }
    message.text(expected_text(fault));
    message.text(" is expected");
}

/// The first filter of a rule whose text is wrong, by its number from 0, and that text.
fn wrong_filter(filters: Option<&Value>) -> Option<(usize, &str)> {
    first_wrong(filters?.as_array()?.as_slice())
}

/// Writes what is wrong with the first filter of a rule whose text is wrong. Returns the place of the fault.
pub(crate) fn write_filter(
    message: &mut Message,
    filters: Option<&Value>,
    fault: FilterFault,
) -> Option<Place<'static>> {
    let Some((number, text)) = wrong_filter(filters) else {
        message.value(&fault);
        return None;
    };
    let place = Place {
        item: Some(number),
        ..Place::new(true, "filters")
    };
    Some(if fault == FilterFault::Flow {
        let place = place.member("flow");
        message.place(place);
        message.text(
            " stands beside \"permit in\": leave it out, or begin the text with \"permit out\"",
        );
        place
    } else {
        let place = place.member("text");
        message.place(place);
        write_token(message, text, fault);
        place
    })
}
