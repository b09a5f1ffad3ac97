//! The parts of a line, and the first of them that has a fault.

use crate::message::Message;
use crate::nearest::nearest;
use crate::place::Place;
use crate::wanted::{ARP_LEVEL, TRIGGER, Wanted, wanted_at};
use crate::wrong_value::{write_meant, write_missing, write_wrong};
use pcef_line::Field;
use serde_json::Value;
use std::alloc::{AllocError, Global};

const OF_ARP: &[Field] = &[Field::Level, Field::Capability, Field::Vulnerability];

const OF_GBR: &[Field] = &[Field::Up, Field::Down];

const OF_FILTER: &[Field] = &[Field::Text, Field::Flow];

const OF_RULE: &[Field] = &[
    Field::Name,
    Field::Precedence,
    Field::Filters,
    Field::Qci,
    Field::Arp,
    Field::Gbr,
    Field::Gate,
    Field::Key,
];

/// The word of a line.
pub(crate) fn word_of(line: &Value) -> &str {
    match line.get("do").and_then(Value::as_str) {
        Some(word) => word,
        None => "",
    }
}

/// The fields that a line with this word may have.
fn fields_of(word: &str) -> &'static [Field] {
    match word {
        "install" => &[Field::Do, Field::Rule],
        "activate" | "remove" => &[Field::Do, Field::Name],
        "monitor" => &[Field::Do, Field::Key, Field::Grant, Field::Level],
        "stop" | "report" => &[Field::Do, Field::Key],
        "triggers" => &[Field::Do, Field::Events],
        "notice" => &[Field::Do, Field::Event, Field::Value],
        "lose" => &[Field::Do, Field::Bearer],
        "take" => &[Field::Do, Field::Worker, Field::Dir, Field::Packet],
        "refresh" | "flush" | "finish" | "abandon" => &[Field::Do, Field::Worker],
        _ => &[Field::Do],
    }
}

/// What may stand at a field of an object in a line or its rule.
fn expectation_within(field: Field) -> Wanted {
    match field {
        Field::Level => ARP_LEVEL,
        other => wanted_at(other),
    }
}

/// Writes which of the fields of an object is the first that is missing or wrong, if one is. Returns the place of the
/// fault.
fn write_object<'a>(
    alloc: Global,
    message: &mut Message,
    place: Place<'a>,
    object: &Value,
    fields: &[Field],
) -> Option<Place<'a>> {
    for field in fields {
        let key = field.text();
        let member = place.member(key);
        let wanted = expectation_within(*field);
        match object.get(key) {
            None if matches!(*field, Field::Flow) => {}
            None => {
                write_missing(message, member, wanted);
                return Some(place);
            }
            Some(found) if !wanted.is(found) => {
                write_wrong(alloc, message, member, found, wanted);
                return Some(member);
            }
            Some(_) => {}
        }
    }
    None
}

/// Writes which item of `events` is the first that is no trigger, if one is. Returns its place.
fn write_events<'a>(
    alloc: Global,
    message: &mut Message,
    place: Place<'a>,
    events: &[Value],
) -> Option<Place<'a>> {
    for (number, event) in events.iter().enumerate() {
        if !TRIGGER.is(event) {
            let item = Place {
                item: Some(number),
                ..place
            };
            write_wrong(alloc, message, item, event, TRIGGER);
            return Some(item);
        }
    }
    None
}

/// Writes why a filter is no object, lacks its text, or has a wrong text or flow word, if so. Returns the place of the
/// fault.
fn write_filter<'a>(
    alloc: Global,
    message: &mut Message,
    item: Place<'a>,
    filter: &Value,
) -> Option<Place<'a>> {
    if !filter.is_object() {
        write_wrong(alloc, message, item, filter, Wanted::Object);
        return Some(item);
    }
    write_object(alloc, message, item, filter, OF_FILTER)
}

/// As [`write_filter`], of the first filter of a list that is wrong.
fn write_filters<'a>(
    alloc: Global,
    message: &mut Message,
    place: Place<'a>,
    filters: &[Value],
) -> Option<Place<'a>> {
    for (number, filter) in filters.iter().enumerate() {
        let item = Place {
            item: Some(number),
            ..place
        };
        let fault = write_filter(alloc, message, item, filter);
        if fault.is_some() {
            return fault;
        }
    }
    None
}

/// Writes what is wrong in the value of a field, if anything. Returns the place of the fault.
fn write_inside<'a>(
    alloc: Global,
    message: &mut Message,
    place: Place<'a>,
    found: &Value,
    field: Field,
) -> Option<Place<'a>> {
    match (field, found) {
        (Field::Arp, Value::Object(_)) => write_object(alloc, message, place, found, OF_ARP),
        (Field::Gbr, Value::Object(_)) => write_object(alloc, message, place, found, OF_GBR),
        (Field::Filters, Value::Array(filters)) => {
            write_filters(alloc, message, place, filters.as_slice())
        }
        (Field::Events, Value::Array(events)) => {
            write_events(alloc, message, place, events.as_slice())
        }
        _ => None,
    }
}

/// The place of a line's field, or of its rule's, and its value.
pub(crate) fn field_in<'a>(line: &'a Value, field: Field) -> (Place<'static>, Option<&'a Value>) {
    let key = field.text();
    if !matches!(field, Field::Do | Field::Rule) && word_of(line) == "install" {
        let rule = line.get("rule");
        return (Place::new(true, key), rule.and_then(|rule| rule.get(key)));
    }
    (Place::new(false, key), line.get(key))
}

/// Writes that a field is missing, of a wrong kind or out of its range. Returns the place whose column is that of the
/// fault, if there is one.
pub(crate) fn write_field(
    alloc: Global,
    message: &mut Message,
    line: &Value,
    field: Field,
) -> Option<Place<'static>> {
    let wanted = wanted_at(field);
    let (place, found) = field_in(line, field);
    let Some(found) = found else {
        write_missing(message, place, wanted);
        return if place.is_in_rule {
            Some(Place::new(false, "rule"))
        } else {
            None
        };
    };
    let inside = write_inside(alloc, message, place, found, field);
    if inside.is_some() {
        return inside;
    }
    write_wrong(alloc, message, place, found, wanted);
    Some(place)
}

/// The first member of an object that is none of the fields.
fn unknown_in<'a>(value: &'a Value, fields: &[Field]) -> Option<&'a str> {
    for key in value.as_object()?.keys() {
        let key = key.as_str();
        if !fields.iter().any(|field| field.text() == key) {
            return Some(key);
        }
    }
    None
}

/// The place of the first member of a filter that filters don't have.
fn unknown_in_filters<'a>(place: Place<'a>, filters: &'a Value) -> Option<Place<'a>> {
    for (number, filter) in filters.as_array()?.iter().enumerate() {
        if let Some(key) = unknown_in(filter, OF_FILTER) {
            return Some(Place {
                item: Some(number),
                inner: Some(key),
                ..place
            });
        }
    }
    None
}

/// The place of the first member of an object in a rule that such objects don't have.
fn unknown_below<'a>(rule: &'a Value, field: Field) -> Option<Place<'a>> {
    let place = Place::new(true, field.text());
    let value = rule.get(field.text())?;
    let fields = match field {
        Field::Filters => return unknown_in_filters(place, value),
        Field::Arp => OF_ARP,
        _ => OF_GBR,
    };
    let key = unknown_in(value, fields)?;
    Some(Place {
        inner: Some(key),
        ..place
    })
}

/// The place of the first member that a rule, or an object in it, doesn't have.
fn unknown_in_rule<'a>(rule: &'a Value) -> Option<Place<'a>> {
    if let Some(key) = unknown_in(rule, OF_RULE) {
        return Some(Place::new(true, key));
    }
    for field in &[Field::Filters, Field::Arp, Field::Gbr] {
        if let Some(place) = unknown_below(rule, *field) {
            return Some(place);
        }
    }
    None
}

/// The place of the first member that a line, or an object in it, doesn't have.
fn unknown_field<'a>(line: &'a Value) -> Option<Place<'a>> {
    if let Some(key) = unknown_in(line, fields_of(word_of(line))) {
        return Some(Place::new(false, key));
    }
    unknown_in_rule(line.get("rule")?)
}

/// The fields that the object around an unknown member may have.
fn fields_at(line: &Value, place: Place<'_>) -> &'static [Field] {
    if !place.is_in_rule {
        return fields_of(word_of(line));
    }
    match (place.key, place.inner) {
        ("filters", Some(_)) => OF_FILTER,
        ("arp", Some(_)) => OF_ARP,
        ("gbr", Some(_)) => OF_GBR,
        _ => OF_RULE,
    }
}

/// Writes the names of fields.
fn write_fields(message: &mut Message, fields: &[Field]) {
    let mut is_first = true;
    for field in fields {
        if !is_first {
            message.text(", ");
        }
        message.text(field.text());
        is_first = false;
    }
}

/// The field that was meant by the name of a member, if one is near.
fn field_meant(
    alloc: Global,
    key: &str,
    fields: &[Field],
) -> Result<Option<&'static str>, AllocError> {
    let mut texts = Vec::new(alloc);
    for field in fields {
        texts.push(field.text())?;
    }
    nearest(alloc, key, texts.as_slice())
}

/// Writes which member is the first that a line, or an object in it, doesn't have. Returns its place.
pub(crate) fn write_unknown<'a>(
    alloc: Global,
    message: &mut Message,
    line: &'a Value,
) -> Option<Place<'a>> {
    let Some(place) = unknown_field(line) else {
        message.text("a field is unknown");
        return None;
    };
    let fields = fields_at(line, place);
    message.place(place);
    message.text(" is unknown: ");
    match field_meant(alloc, place.inner.unwrap_or(place.key), fields) {
        Ok(Some(name)) => write_meant(message, name),
        Ok(None) => {
            message.text("leave it out; the fields are ");
            write_fields(message, fields);
        }
        Err(_) => message.refuse(),
    }
    Some(place)
}
