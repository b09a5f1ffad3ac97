//! Whether the tables of a profile have the keys that they must have, and no others.

ghost use Rattle.std.specs.Prelude.{◌≡◌, option_map};
ghost use Rattle.toml.specs.Data.{get_member, as_table};
ghost use Rattle.toml.specs.View.{view, table_view, items_view};
ghost use Rattle.pcef_base.specs.Readings.{if_there, names_one_of};
ghost use Rattle.pcef_profile.specs.ProfileKeys.{key_text, keys_of_declared, inner_of, entries_of, each_table, keys_known, keys_there, has_known_keys, is_whole};

use crate::key::Key;
use std::fmt::{self, Display, Formatter, Write};
use toml::{Table, Value};

const OF_PROFILE: &[Key] = &[
    Key::Declared,
    Key::Ue,
    Key::Rows,
    Key::Commands,
    Key::Default,
    Key::Capacity,
];

const NEEDED_OF_PROFILE: &[Key] = &[
    Key::Ue,
    Key::Rows,
    Key::Commands,
    Key::Default,
    Key::Capacity,
];

const OF_DEFAULT: &[Key] = &[Key::Qci, Key::Level, Key::Capability, Key::Vulnerability];

const OF_CAPACITY: &[Key] = &[Key::Up, Key::Down];

const OF_DECLARED: &[Key] = &[Key::Qci, Key::Kind];

/// The value of a key.
pub(crate) fn entry(table: &Table, key: Key) -> Option<&Value>
    ensures { option_map (λ v. view v.now) result
        ≡ get_member (key_text key) (table_view table.now) }
{
    table.get(key.text())
}

/// The table at a key. A value of another kind is judged later.
pub(crate) fn inner(table: &Table, key: Key) -> Option<&Table>
    ensures { option_map (λ t. table_view t.now) result ≡ inner_of key (table_view table.now) }
{
    entry(table, key)?.as_table()
}

/// The array at a key, likewise.
pub(crate) fn entries(table: &Table, key: Key) -> Option<&[Value]>
    ensures { option_map (λ vs. items_view vs.now) result ≡ entries_of key (table_view table.now) }
{
    match entry(table, key)?.as_array() {
        Some(values) => Some(values.as_slice()),
        None => None,
    }
}

fn names_one_of(keys: &[Key], text: &str) -> bool
    ensures { result ≡ names_one_of key_text keys.now text.now }
{
    keys.iter().any(|key| key.text() == text)
}

fn keys_are_known(keys: &[Key], table: &Table) -> bool
    ensures { result ≡ keys_known keys.now (table_view table.now) }
{
    table.keys().all(|text| names_one_of(keys, text.as_str()))
}

fn keys_are_there(keys: &[Key], table: &Table) -> bool
    ensures { result ≡ keys_there keys.now (table_view table.now) }
{
    keys.iter().all(|key| entry(table, *key).is_some())
}

fn is_known_entry(value: &Value) -> bool
    ensures { result ≡ if_there (keys_known keys_of_declared) (as_table (view value.now)) }
{
    match value.as_table() {
        Some(table) => keys_are_known(OF_DECLARED, table),
        None => true,
    }
}

fn is_whole_entry(value: &Value) -> bool
    ensures { result ≡ if_there (keys_there keys_of_declared) (as_table (view value.now)) }
{
    match value.as_table() {
        Some(table) => keys_are_there(OF_DECLARED, table),
        None => true,
    }
}

fn entries_are_known(values: &[Value]) -> bool
    ensures { result ≡ each_table (keys_known keys_of_declared) (items_view values.now) }
{
    values.iter().all(|value| is_known_entry(value))
}

fn entries_are_whole(values: &[Value]) -> bool
    ensures { result ≡ each_table (keys_there keys_of_declared) (items_view values.now) }
{
    values.iter().all(|value| is_whole_entry(value))
}

/// Whether the profile and the tables in it have only keys that they may have.
pub(crate) fn is_known(table: &Table) -> bool
    ensures { result ≡ has_known_keys (table_view table.now) }
{
    keys_are_known(OF_PROFILE, table)
        && inner(table, Key::Default).is_none_or(|table| keys_are_known(OF_DEFAULT, table))
        && inner(table, Key::Capacity).is_none_or(|table| keys_are_known(OF_CAPACITY, table))
        && entries(table, Key::Declared).is_none_or(|values| entries_are_known(values))
}

/// Whether the profile and the tables in it have all keys that they must have.
pub(crate) fn is_whole(table: &Table) -> bool
    ensures { result ≡ is_whole (table_view table.now) }
{
    keys_are_there(NEEDED_OF_PROFILE, table)
        && inner(table, Key::Default).is_none_or(|table| keys_are_there(OF_DEFAULT, table))
        && inner(table, Key::Capacity).is_none_or(|table| keys_are_there(OF_CAPACITY, table))
        && entries(table, Key::Declared).is_none_or(|values| entries_are_whole(values))
}

/// Which table of a profile.
#[derive(Clone, Copy)]
pub(crate) enum Level {
    Profile,
    Default,
    Capacity,
    /// An entry of the array of declared QCIs, counted from 1.
    Declared(usize),
}

impl Level {
    /// The keys that the table may have.
    pub(crate) fn keys(self) -> &'static [Key] {
        match self {
            Level::Profile => OF_PROFILE,
            Level::Default => OF_DEFAULT,
            Level::Capacity => OF_CAPACITY,
            Level::Declared(_) => OF_DECLARED,
        }
    }

    /// The keys that it must have.
    pub(crate) fn required_keys(self) -> &'static [Key] {
        match self {
            Level::Profile => NEEDED_OF_PROFILE,
            _ => self.keys(),
        }
    }

    /// The same in words.
    pub(crate) fn expected_keys(self) -> &'static str {
        match self {
            Level::Profile => "ue, rows, commands, default, capacity or declared",
            Level::Default => "qci, level, capability or vulnerability",
            Level::Capacity => "up or down",
            Level::Declared(_) => "qci or kind",
        }
    }
}

impl Display for Level {
    fn fmt<W: Write>(&self, f: &mut Formatter<W>) -> fmt::Result {
        match self {
            Level::Profile => Ok(()),
            Level::Default => f.write_str("default."),
            Level::Capacity => f.write_str("capacity."),
            Level::Declared(number) => write!(f, "declared[{number}]."),
        }
    }
}

/// How many places tables may have in a profile: its own, two for those in it, and one for each declaration.
pub(crate) fn places_in(table: &Table) -> usize {
    match entries(table, Key::Declared) {
        Some(values) => values.len().saturating_add(3),
        None => 3,
    }
}

/// The declaration at a place, counted from 0, if it is a table.
fn declared_at(table: &Table, place: usize) -> Option<&Table> {
    entries(table, Key::Declared)?.get(place)?.as_table()
}

/// The table at a place of a profile, if it is there: the profile, what its keys `default` and `capacity` have, and
/// then its declarations.
pub(crate) fn table_at(table: &Table, place: usize) -> Option<(Level, &Table)> {
    match place {
        0 => Some((Level::Profile, table)),
        1 => Some((Level::Default, inner(table, Key::Default)?)),
        2 => Some((Level::Capacity, inner(table, Key::Capacity)?)),
        place => {
            let declared = declared_at(table, place.saturating_sub(3))?;
            Some((Level::Declared(place.saturating_sub(2)), declared))
        }
    }
}
