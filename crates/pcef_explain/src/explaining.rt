//! Explains why a line can't be read.

ghost use Rattle.std.specs.Prelude.{◌≡◌, ◌+◌, IfOk, Some, length, string_bytes};
ghost use Rattle.pcef_explain.specs.Plain.{IsPlain};
ghost use Rattle.pcef_line.specs.declared.fault.LineFault.TheVariants.{LineTooLong};

use crate::column::column_of;
use crate::filters::write_filter;
use crate::message::Message;
use crate::nearest::nearest;
use crate::packets::write_packet;
use crate::parts::{field_in, word_of, write_field, write_unknown};
use crate::place::Place;
use crate::plain::plain_text;
use crate::syntax::{first_fault, write_misplaced};
use crate::wide::is_wide;
use crate::wrong_value::write_meant;
use hex::FromHexError;
use pcef_line::{Field, LineFault};
use pcef_packet::PacketFault;
use serde_json::{Error, Value};
use std::alloc::{AllocError, Global};
use std::str;

/// The most bytes of a line.
const MAX_LINE: usize = 262_144;

/// The explanation of a line at fault, for a person.
#[derive(Drop)]
pub struct Explanation {
    /// The column of the line in which the fault is, from 1 and counted in octets, where it is known.
    pub column: Option<usize>,
    /// The place, what was found there and what is expected: printable ASCII, on one line.
    pub text: String,
}

/// What the reader of JSON reports, without the place.
fn without_place(message: &str) -> &str {
    match message.split_once(" at line ") {
        Some((front, _)) => front,
        None => message,
    }
}

/// The text about a line in UTF-16.
const WIDE: &str =
    "the line is UTF-16, by its byte order mark or its octets 0: UTF-8 is expected, as iconv -f UTF-16 -t UTF-8 writes it";

/// Writes why a text isn't JSON, and returns the column.
fn write_not_json(
    alloc: Global,
    message: &mut Message,
    text: &str,
    error: &Error,
) -> Result<usize, AllocError> {
    if let Some(misplaced) = first_fault(alloc, text)? {
        if is_wide(text.as_bytes()) {
            message.text(WIDE);
        } else {
            write_misplaced(message, text, misplaced);
        }
        return Ok(misplaced.0.saturating_add(1));
    }
    let said = format!(in alloc; "{error}")?;
    message.text(without_place(said.as_str()));
    message.text(": a JSON object is expected");
    Ok(error.column())
}

/// Writes why octets are no packet.
fn write_octets(alloc: Global, message: &mut Message, found: Option<&Value>, fault: PacketFault) {
    let text = found.and_then(Value::as_str).unwrap_or("");
    message.text(" ");
    match hex::decode(alloc, text) {
        Ok(octets) => write_packet(message, octets.as_slice(), fault),
        Err(FromHexError::OutOfMemory) => message.refuse(),
        Err(_) => {
            message.text("is no packet: ");
            message.value(&fault);
        }
    }
}

/// Writes why a text isn't hexadecimal.
fn write_digits(message: &mut Message, text: &str) {
    let other = text
        .chars()
        .enumerate()
        .find(|(_, character)| !character.is_ascii_hexdigit());
    match other {
        Some((number, character)) => {
            message.text(": character ");
            message.number(number.saturating_add(1));
            message.text(" is '");
            message.character(character);
            message.text("': pairs of hexadecimal digits alone, as 4500, are expected");
        }
        None => {
            message.text(": an even number of digits is expected, and there are ");
            message.number(text.len());
        }
    }
}

/// Writes that a rule has no filters or too many, and returns their place.
fn write_rule(message: &mut Message, line: &Value) -> Place<'static> {
    let (place, found) = field_in(line, Field::Filters);
    let count = match found.and_then(Value::as_array) {
        Some(filters) => filters.len(),
        None => 0,
    };
    message.place(place);
    message.text(" has ");
    message.number(count);
    message.text(" filters: 1 to 16 are expected");
    place
}

/// Writes that a text is no name.
fn write_name(message: &mut Message, found: &Value) {
    message.text(" is ");
    message.value_found(found);
    message.text(": 1 to 64 characters of ASCII without blanks are expected");
}

/// Writes why a field's value is wrong, though it may be of its kind, and returns the place of the fault.
fn write_value(
    alloc: Global,
    message: &mut Message,
    line: &Value,
    field: Field,
    fault: LineFault,
) -> Option<Place<'static>> {
    let (place, found) = field_in(line, field);
    match (fault, found) {
        (LineFault::BadName(_), Some(found)) => {
            message.place(place);
            write_name(message, found);
        }
        (LineFault::BadHex(_), Some(Value::String(text))) => {
            message.place(place);
            write_digits(message, text.as_str());
        }
        (LineFault::BadPacket(_, inner), _) => {
            message.place(place);
            write_octets(alloc, message, found, inner);
        }
        (LineFault::BadFilter(_, inner), _) => return write_filter(message, found, inner),
        (LineFault::BadRule(_, _), _) => return Some(write_rule(message, line)),
        _ => return write_field(alloc, message, line, field),
    }
    Some(place)
}

/// Writes why a line in JSON has a fault, and returns the place of the fault.
fn write_line<'a>(
    alloc: Global,
    message: &mut Message,
    line: &'a Value,
    fault: LineFault,
) -> Option<Place<'a>> {
    match (fault.field(), fault) {
        (Some(field), _) => write_value(alloc, message, line, field, fault),
        (None, LineFault::UnknownDo) => write_field(alloc, message, line, Field::Do),
        (None, LineFault::UnknownField) => write_unknown(alloc, message, line),
        _ => {
            message.text("the line is ");
            message.value_found(line);
            message.text(": an object is expected");
            None
        }
    }
}

/// The column in which the value at a place begins, if there is one.
fn column_at(
    alloc: Global,
    text: &str,
    place: Option<Place<'_>>,
) -> Result<Option<usize>, AllocError> {
    match place {
        Some(place) => column_of(alloc, text, place),
        None => Ok(None),
    }
}

/// Writes why a text has a fault, and returns the column.
fn write_text(
    alloc: Global,
    message: &mut Message,
    text: &str,
    fault: LineFault,
) -> Result<Option<usize>, AllocError> {
    match Value::from_str(alloc, text) {
        Ok(line) => column_at(alloc, text, write_line(alloc, message, &line, fault)),
        Err(error) if error.is_memory() => Err(AllocError),
        Err(error) => Ok(Some(write_not_json(alloc, message, text, &error)?)),
    }
}

/// Writes which octet isn't UTF-8, at this place, and returns the column.
fn write_not_utf8(message: &mut Message, line: &[u8], place: usize) -> Option<usize> {
    if is_wide(line) {
        message.text(WIDE);
        return Some(place.saturating_add(1));
    }
    let octet = match line.get(place) {
        Some(octet) => *octet,
        None => 0,
    };
    message.text("the octet ");
    message.octet(octet);
    message.text(" stands where UTF-8 is expected");
    Some(place.saturating_add(1))
}

/// Writes why a line within the limit has a fault, and returns the column.
fn write_why(
    alloc: Global,
    message: &mut Message,
    line: &[u8],
    fault: LineFault,
) -> Result<Option<usize>, AllocError> {
    match str::from_utf8(line) {
        Ok(text) => write_text(alloc, message, text, fault),
        Err(error) => Ok(write_not_utf8(message, line, error.valid_up_to())),
    }
}

/// The explanation with the text of a message, and `?` in the place of each octet that is no printable ASCII.
fn in_plain(
    alloc: Global,
    column: Option<usize>,
    message: Message,
) -> Result<Explanation, AllocError>
    ensures plain { IfOk result (λ e. IsPlain (string_bytes e.text)) }
    ensures column { IfOk result (λ e. e.column ≡ column) }
{
    let text = message.whole()?;
    Ok(Explanation {
        column,
        text: plain_text(alloc, text.as_str())?,
    })
}

/// Writes that a line of `count` octets is too long.
fn write_too_long(message: &mut Message, count: usize) {
    message.text("the line has ");
    message.number(count);
    message.text(" octets: ");
    message.number(MAX_LINE);
    message.text(" at most are expected");
}

/// Explains why a line has a fault: the column, the place as in `rule.filters[0].text`, what was found there and what
/// is expected, and of an unknown word the nearest one. The text is for people: it may change. Takes memory for it, and
/// for the line as JSON.
pub fn explain(alloc: Global, line: &[u8], fault: LineFault) -> Result<Explanation, AllocError>
    ensures plain { IfOk result (λ e. IsPlain (string_bytes e.text)) }
    ensures long { fault ≡ LineTooLong → IfOk result (λ e. e.column ≡ Some 262145) }
{
    let mut message = Message::new(alloc);
    let column = match fault {
        LineFault::LineTooLong => {
            write_too_long(&mut message, line.len());
            Some(MAX_LINE + 1)
        }
        _ => write_why(alloc, &mut message, line, fault)?,
    };
    in_plain(alloc, column, message)
}

/// What is expected at a field.
#[derive(Clone, Copy)]
enum Expected<'a> {
    /// What this text says.
    Text(&'a str),
    /// The name of a rule: in an `activate` one of these, which are predefined; in other lines that of an active rule.
    Rule(&'a [&'a str]),
}

/// Writes which name of a predefined rule is expected: the nearest one, or all of them where none is near.
fn write_predefined(alloc: Global, message: &mut Message, found: &Value, names: &[&str]) {
    let near = match found.as_str() {
        Some(text) => nearest(alloc, text, names),
        None => Ok(None),
    };
    match near {
        Ok(Some(name)) => write_meant(message, name),
        Ok(None) => {
            message.text("one of ");
            message.words(names);
            message.text(" is expected");
        }
        Err(_) => message.refuse(),
    }
}

/// Writes what is expected in the place of what was found in a line.
fn write_expected(
    alloc: Global,
    message: &mut Message,
    line: &Value,
    found: &Value,
    expected: Expected<'_>,
) {
    match expected {
        Expected::Text(text) => message.text(text),
        Expected::Rule(names) if word_of(line) == "activate" => {
            write_predefined(alloc, message, found, names);
        }
        Expected::Rule(_) => {
            message.text("an active rule is expected, and show lists these");
        }
    }
}

/// Writes what stands at a field of a line that is JSON, and what is expected there. Returns the place of the field, if
/// it is there.
fn write_at_field(
    alloc: Global,
    message: &mut Message,
    line: &Value,
    field: Field,
    expected: Expected<'_>,
) -> Option<Place<'static>> {
    let (place, found) = field_in(line, field);
    message.place(place);
    match found {
        Some(found) => {
            message.text(" is ");
            message.value_found(found);
            message.text(": ");
            write_expected(alloc, message, line, found, expected);
            Some(place)
        }
        None => {
            message.text(" is missing: ");
            write_expected(alloc, message, line, &Value::Null, expected);
            None
        }
    }
}

/// As [`write_at_field`] where the line is JSON; else writes what is expected. Returns the column.
fn write_field_of(
    alloc: Global,
    message: &mut Message,
    line: &[u8],
    field: Field,
    expected: Expected<'_>,
) -> Result<Option<usize>, AllocError> {
    if let Ok(text) = str::from_utf8(line) {
        match Value::from_str(alloc, text) {
            Ok(line) => {
                let place = write_at_field(alloc, message, &line, field, expected);
                return column_at(alloc, text, place);
            }
            Err(error) if error.is_memory() => return Err(AllocError),
            Err(_) => {}
        }
    }
    write_expected(alloc, message, &Value::Null, &Value::Null, expected);
    Ok(None)
}

/// Explains what stands at a field of a line that has no fault and still isn't taken: the column, the field, what was
/// found there, and `expected`, the text of what is expected. The text is for people, as that of [`explain`]. Takes
/// memory for it, and for the line as JSON.
pub fn explain_field(
    alloc: Global,
    line: &[u8],
    field: Field,
    expected: &str,
) -> Result<Explanation, AllocError>
    ensures { IfOk result (λ e. IsPlain (string_bytes e.text)) }
{
    let mut message = Message::new(alloc);
    let column = write_field_of(alloc, &mut message, line, field, Expected::Text(expected))?;
    in_plain(alloc, column, message)
}

/// Explains the `name` of a line that has no fault and still isn't taken, since no rule has that name: the column, what
/// was found there, and what is expected. In an `activate` this is the nearest of the names in `predefined`, or all of
/// them where none is near. The text is for people, as that of [`explain`]. Takes memory for it, and for the line as
/// JSON.
pub fn explain_rule_name(
    alloc: Global,
    line: &[u8],
    predefined: &[&str],
) -> Result<Explanation, AllocError>
    ensures { IfOk result (λ e. IsPlain (string_bytes e.text)) }
{
    let mut message = Message::new(alloc);
    let expected = Expected::Rule(predefined);
    let column = write_field_of(alloc, &mut message, line, Field::Name, expected)?;
    in_plain(alloc, column, message)
}
