//! Says why a text is no profile.

ghost use Rattle.std.specs.Prelude.{◌≡◌, IfOk, string_bytes};
ghost use Rattle.pcef_profile.specs.Explanations.{Explains};

use crate::fault::ReadProfileFault;
use crate::key::Key;
use crate::shape::{Level, entries, entry, inner, places_in, table_at};
use crate::wanted::{Shown, is_plain, wanted_at};
use std::alloc::{AllocError, Global};
use toml::de::Error;
use toml::{Table, Value};

/// The line of a place in a text, counted from 1, and what stands there.
fn line_at(text: &str, place: usize) -> (usize, &str) {
    let mut number = 1usize;
    for octet in text.as_bytes().iter().take(place) {
        if *octet == b'\n' {
            number = number.saturating_add(1);
        }
    }
    match text.lines().nth(number.saturating_sub(1)) {
        Some(line) => (number, line),
        None => (number, ""),
    }
}

/// Whether a text seems to be one in UTF-16 that was read as UTF-8: one of its first two octets is NUL, and the other
/// not.
fn is_wide(text: &str) -> bool {
    let octets = text.as_bytes();
    (octets.first() == Some(&0)) != (octets.get(1) == Some(&0))
}

/// The message for a text that isn't TOML: the line, and what the reader of TOML says.
fn not_toml(alloc: Global, text: &str, error: &Error) -> Result<String, AllocError> {
    if is_wide(text) {
        return format!(in alloc; "line 1: the text is UTF-16: save it as UTF-8");
    }
    let place = match error.span() {
        Some(span) => span.start,
        None => 0,
    };
    let (number, line) = line_at(text, place);
    let message = error.message();
    if line.is_empty() || !is_plain(line) {
        return format!(in alloc; "line {number}: {message}");
    }
    format!(in alloc; "line {number}: {line}: {message}")
}

/// The first key that a table may not have.
fn unknown_in(level: Level, table: &Table) -> Option<&str> {
    for text in table.keys() {
        if !level.keys().iter().any(|key| key.text() == text.as_str()) {
            return Some(text.as_str());
        }
    }
    None
}

/// The message for a key that a table may not have.
fn unknown_key_text(alloc: Global, level: Level, text: &str) -> Result<String, AllocError> {
    let text = if is_plain(text) { text } else { ".." };
    let keys = level.expected_keys();
    format!(in alloc; "{level}{text}: {keys} is expected")
}

/// The first key that a profile or a table in it may not have, and in which it stands.
fn first_unknown(table: &Table) -> Option<(Level, &str)> {
    for place in 0..places_in(table) {
        if let Some((level, table)) = table_at(table, place) {
            if let Some(text) = unknown_in(level, table) {
                return Some((level, text));
            }
        }
    }
    None
}

fn unknown_key(alloc: Global, table: &Table) -> Result<Option<String>, AllocError> {
    match first_unknown(table) {
        Some((level, text)) => Ok(Some(unknown_key_text(alloc, level, text)?)),
        None => Ok(None),
    }
}

/// The first key that a table must have and lacks.
fn missing_in(level: Level, table: &Table) -> Option<Key> {
    for key in level.required_keys() {
        if entry(table, *key).is_none() {
            return Some(*key);
        }
    }
    None
}

/// The first key that a profile or a table in it lacks, and in which.
fn first_missing(table: &Table) -> Option<(Level, Key)> {
    for place in 0..places_in(table) {
        if let Some((level, table)) = table_at(table, place) {
            if let Some(key) = missing_in(level, table) {
                return Some((level, key));
            }
        }
    }
    None
}

fn missing_key_text(alloc: Global, level: Level, key: Key) -> Result<String, AllocError> {
    let text = key.text();
    let wanted = wanted_at(level, key);
    format!(in alloc; "{level}{text}: {wanted} is expected")
}

fn missing_key(alloc: Global, table: &Table) -> Result<Option<String>, AllocError> {
    match first_missing(table) {
        Some((level, key)) => Ok(Some(missing_key_text(alloc, level, key)?)),
        None => Ok(None),
    }
}

/// The first value in a table of a wrong kind or out of its range, and its key.
fn wrong_in(level: Level, table: &Table) -> Option<(Key, &Value)> {
    for key in level.keys() {
        if let Some(value) = entry(table, *key) {
            if !wanted_at(level, *key).is(value) {
                return Some((*key, value));
            }
        }
    }
    None
}

/// The first value in a profile or a table in it of a wrong kind or out of its range, and where it stands.
fn first_wrong(table: &Table) -> Option<(Level, Key, &Value)> {
    for place in 0..places_in(table) {
        if let Some((level, table)) = table_at(table, place) {
            if let Some((key, value)) = wrong_in(level, table) {
                return Some((level, key, value));
            }
        }
    }
    None
}

fn value_text(alloc: Global, level: Level, key: Key, value: &Value) -> Result<String, AllocError> {
    let text = key.text();
    let found = Shown(value);
    let wanted = wanted_at(level, key);
    format!(in alloc; "{level}{text} = {found}: {wanted} is expected")
}

/// The QCI of a declaration, if it is a table that has one.
fn qci_of(declared: &Value) -> Option<i64> {
    entry(declared.as_table()?, Key::Qci)?.as_integer()
}

/// Whether one of the first declarations has this QCI.
fn is_among_first(values: &[Value], count: usize, qci: i64) -> bool {
    values
        .iter()
        .take(count)
        .any(|value| qci_of(value) == Some(qci))
}

/// Why an entry of the array of declared QCIs is at fault.
#[derive(Clone, Copy)]
enum Misfit<'a> {
    /// It is no table.
    NoTable(&'a Value),
    /// An earlier one has its QCI.
    Again(i64),
}

fn misfit_of<'a>(values: &[Value], place: usize, value: &'a Value) -> Option<Misfit<'a>> {
    if !value.is_table() {
        return Some(Misfit::NoTable(value));
    }
    match qci_of(value) {
        Some(qci) if is_among_first(values, place, qci) => Some(Misfit::Again(qci)),
        _ => None,
    }
}

/// The first entry of an array that is no table, or has the QCI of an earlier one: its number, from 1 on, and why.
fn first_misfit(values: &[Value]) -> Option<(usize, Misfit<'_>)> {
    for (place, value) in values.iter().enumerate() {
        if let Some(misfit) = misfit_of(values, place, value) {
            return Some((place.saturating_add(1), misfit));
        }
    }
    None
}

fn misfit_text(alloc: Global, number: usize, misfit: Misfit<'_>) -> Result<String, AllocError> {
    match misfit {
        Misfit::NoTable(value) => {
            let found = Shown(value);
            format!(in alloc; "declared[{number}] = {found}: a table is expected")
        }
        Misfit::Again(qci) => {
            format!(in alloc; "declared[{number}].qci = {qci}: each QCI once is expected")
        }
    }
}

fn entry_at_fault(alloc: Global, table: &Table) -> Result<Option<String>, AllocError> {
    match entries(table, Key::Declared).and_then(|values| first_misfit(values)) {
        Some((number, misfit)) => Ok(Some(misfit_text(alloc, number, misfit)?)),
        None => Ok(None),
    }
}

fn bad_value(alloc: Global, table: &Table) -> Result<Option<String>, AllocError> {
    match first_wrong(table) {
        Some((level, key, value)) => Ok(Some(value_text(alloc, level, key, value)?)),
        None => entry_at_fault(alloc, table),
    }
}

/// The message for the default QCI, if there is one.
fn default_qci(alloc: Global, table: &Table, expected: &str) -> Result<Option<String>, AllocError> {
    match inner(table, Key::Default).and_then(|table| entry(table, Key::Qci)) {
        Some(value) => {
            let found = Shown(value);
            Ok(Some(format!(in alloc; "default.qci = {found}: {expected} is expected")?))
        }
        None => Ok(None),
    }
}

fn of_table(
    alloc: Global,
    table: &Table,
    fault: ReadProfileFault,
) -> Result<Option<String>, AllocError> {
    match fault {
        ReadProfileFault::UnknownKey => unknown_key(alloc, table),
        ReadProfileFault::Missing => missing_key(alloc, table),
        ReadProfileFault::BadValue => bad_value(alloc, table),
        ReadProfileFault::UnknownQci => {
            default_qci(alloc, table, "a QCI that is standard or declared")
        }
        ReadProfileFault::DefaultIsGbr => {
            default_qci(alloc, table, "a QCI without guaranteed bit rate")
        }
        ReadProfileFault::NotToml | ReadProfileFault::NoMemory => Ok(None),
    }
}

/// The message, or what the fault means where there is none.
fn message_or_meaning(
    alloc: Global,
    message: Option<String>,
    fault: ReadProfileFault,
) -> Result<String, AllocError> {
    match message {
        Some(message) => Ok(message),
        None => format!(in alloc; "{fault}"),
    }
}

/// What is found and expected at the place of a fault.
fn details(alloc: Global, text: &str, fault: ReadProfileFault) -> Result<String, AllocError> {
    match toml::table_from_str(alloc, text) {
        Ok(table) => message_or_meaning(alloc, of_table(alloc, &table, fault)?, fault),
        Err(error) if error.is_memory() => Err(AllocError),
        Err(error) => not_toml(alloc, text, &error),
    }
}

/// A line for people that says why [`crate::read_profile`] answers a fault to a text: the fault's name, the key or the
/// line, what was found there, and what is expected. It has no line feed at its end.
///
/// Takes memory for the line, and for the text as TOML.
pub fn explain(alloc: Global, text: &str, fault: ReadProfileFault) -> Result<String, AllocError>
    ensures { IfOk result (λ line. Explains fault (string_bytes line)) }
{
    let mut line = String::from_str(alloc, fault.name())?;
    line.push_str(": ")?;
    line.push_str(details(alloc, text, fault)?.as_str())?;
    Ok(line)
}
