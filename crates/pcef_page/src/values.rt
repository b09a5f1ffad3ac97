//! Members of JSON objects.

ghost use Rattle.std.specs.Prelude.{◌≡◌, IfOk, option_map, string_bytes};
ghost use Rattle.serde_json.specs.View.{items_view, view};
ghost use Rattle.pcef_page.specs.Grants.{asks, flag_in, or_zero};
ghost use Rattle.pcef_page.specs.Usages.{items_in, member_number, or_empty, text_in};

use serde_json::Value;
use std::alloc::{AllocError, Global};

/// A member's text.
pub(crate) fn text_at<'a>(object: &'a Value, key: &str) -> Option<&'a str>
    ensures { option_map (λ t. t.now) result ≡ text_in key.now (view object.now) }
{
    object.get(key).and_then(Value::as_str)
}

/// A member's whole number.
pub(crate) fn number_at(object: &Value, key: &str) -> Option<u64>
    ensures { result ≡ member_number key.now (view object.now) }
{
    object.get(key).and_then(Value::as_u64)
}

/// A member's whole number, or 0 where it has none.
pub(crate) fn count_at(object: &Value, key: &str) -> u64
    ensures { result ≡ or_zero (member_number key.now (view object.now)) }
{
    match number_at(object, key) {
        Some(number) => number,
        None => 0,
    }
}

/// Whether a member is true.
pub(crate) fn flag_at(object: &Value, key: &str) -> bool
    ensures { result ≡ flag_in key.now (view object.now) }
{
    match object.get(key).and_then(Value::as_bool) {
        Some(flag) => flag,
        None => false,
    }
}

/// Whether a line's `do` is this word.
pub(crate) fn asks(line: &Value, word: &str) -> bool
    ensures { result ≡ asks word.now (view line.now) }
{
    match text_at(line, "do") {
        Some(text) => text == word,
        None => false,
    }
}

/// A member's list.
pub(crate) fn list_at<'a>(object: &'a Value, key: &str) -> &'a [Value]
    ensures { items_view result.now ≡ items_in key.now (view object.now) }
{
    match object.get(key).and_then(Value::as_array) {
        Some(list) => list.as_slice(),
        None => &[],
    }
}

/// A text of its own, empty where there is none.
pub(crate) fn copy_of(alloc: Global, text: Option<&str>) -> Result<String, AllocError>
    ensures { IfOk result (λ t. string_bytes t ≡ or_empty (option_map (λ t. t.now) text.entry)) }
{
    match text {
        Some(text) => String::from_str(alloc, text),
        None => Ok(String::new(alloc)),
    }
}
