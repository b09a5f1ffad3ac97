//! The texts about a value that is missing or wrong.

use crate::message::Message;
use crate::nearest::nearest;
use crate::place::Place;
use crate::wanted::Wanted;
use serde_json::Value;
use std::alloc::Global;

/// Writes that a value is missing.
pub(crate) fn write_missing(message: &mut Message, place: Place<'_>, wanted: Wanted) {
    message.place(place);
    message.text(" is missing: ");
    message.expectation(wanted);
    message.text(" is expected");
}

/// Writes which word was meant.
pub(crate) fn write_meant(message: &mut Message, word: &str) {
    message.text("did you mean ");
    message.word(word);
    message.text("?");
}

/// Writes which value is expected: the word that was meant, if one is near.
fn write_wanted(alloc: Global, message: &mut Message, found: &Value, wanted: Wanted) {
    let near = match (wanted, found.as_str()) {
        (Wanted::Word(words), Some(text)) => nearest(alloc, text, words),
        _ => Ok(None),
    };
    match near {
        Ok(Some(word)) => write_meant(message, word),
        Ok(None) => {
            message.expectation(wanted);
            message.text(" is expected");
        }
        Err(_) => message.refuse(),
    }
}

/// Writes that a value is wrong, and which is expected.
pub(crate) fn write_wrong(
    alloc: Global,
    message: &mut Message,
    place: Place<'_>,
    found: &Value,
    wanted: Wanted,
) {
    message.place(place);
    message.text(" is ");
    message.value_found(found);
    message.text(": ");
    write_wanted(alloc, message, found, wanted);
}
