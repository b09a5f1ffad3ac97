//! Whether a line has only fields that it may have.

ghost use Rattle.std.specs.Prelude.{◌≡◌};
ghost use Rattle.serde_json.specs.View.{view, items_view, members_view};
ghost use Rattle.pcef_base.specs.Readings.{names_one_of};
ghost use Rattle.pcef_line.specs.LineWords.{field_text};
ghost use Rattle.pcef_line.specs.LineShape.{members_known, has_only, items_have_only, each_has_only, rule_is_known, inner_is_known, is_known};

use crate::field::Field;
use crate::word::Word;
use serde_json::{Map, Value};

const OF_RULE: &[Field] = &[
    Field::Name,
    Field::Precedence,
    Field::Filters,
    Field::Qci,
    Field::Arp,
    Field::Gbr,
    Field::Gate,
    Field::Key,
];

const OF_FILTER: &[Field] = &[Field::Text, Field::Flow];

const OF_ARP: &[Field] = &[Field::Level, Field::Capability, Field::Vulnerability];

const OF_GBR: &[Field] = &[Field::Up, Field::Down];

fn names_one_of(fields: &[Field], key: &str) -> bool
    ensures { result ≡ names_one_of field_text fields.now key.now }
{
    fields.iter().any(|field| field.text() == key)
}

fn members_are_known(fields: &[Field], members: &Map<String, Value>) -> bool
    ensures { result ≡ members_known fields.now (members_view members.now.entries) }
{
    members.keys().all(|key| names_one_of(fields, key.as_str()))
}

/// Whether a value, if it is an object, has only these fields. A value of another kind is judged later.
fn has_only(fields: &[Field], value: &Value) -> bool
    ensures { result ≡ has_only fields.now (view value.now) }
{
    match value.as_object() {
        Some(members) => members_are_known(fields, members),
        None => true,
    }
}

fn items_have_only(fields: &[Field], items: &[Value]) -> bool
    ensures { result ≡ items_have_only fields.now (items_view items.now) }
{
    items.iter().all(|item| has_only(fields, item))
}

/// The same of each item of a value, if it is a list.
fn each_has_only(fields: &[Field], value: &Value) -> bool
    ensures { result ≡ each_has_only fields.now (view value.now) }
{
    match value.as_array() {
        Some(items) => items_have_only(fields, items),
        None => true,
    }
}

fn rule_is_known(rule: &Value) -> bool
    ensures { result ≡ rule_is_known (view rule.now) }
{
    has_only(OF_RULE, rule)
        && rule
            .get(Field::Filters.text())
            .is_none_or(|filters| each_has_only(OF_FILTER, filters))
        && rule
            .get(Field::Arp.text())
            .is_none_or(|arp| has_only(OF_ARP, arp))
        && rule
            .get(Field::Gbr.text())
            .is_none_or(|gbr| has_only(OF_GBR, gbr))
}

/// Whether each object in a line with this word has only fields that it may have. An object that stands where none
/// belongs isn't checked.
fn inner_is_known(word: Word, line: &Value) -> bool
    ensures { result ≡ inner_is_known word (view line.now) }
{
    match word {
        Word::Install => line.get(Field::Rule.text()).is_none_or(rule_is_known),
        _ => true,
    }
}

/// Whether a line with this word, and each object in it, has only fields that it may have. An object that stands where
/// none belongs isn't checked.
pub(crate) fn is_known(word: Word, line: &Value) -> bool
    ensures { result ≡ is_known word (view line.now) }
{
    has_only(word.fields(), line) && inner_is_known(word, line)
}
