//! The values of a profile.

ghost use Rattle.std.specs.Prelude.{◌≡◌, ◌≤◌, IfOk};
ghost use Rattle.toml.specs.View.{view, table_view, items_view};
ghost use Rattle.pcef_profile.specs.ProfileValues.{Gives, value_at, number_for, flag_for, table_at, text_for, address_at, qos_at, capacity_at, qci_kind, kind_at, declaration_of, declarations_of, declarations_at};

use crate::fault::ReadProfileFault;
use crate::key::Key;
use crate::shape::entry;
use pcef_packet::Addr;
use pcef_rule::{Arp, Kind, Qci, Qos, Sums};
use std::alloc::Global;
use toml::{Table, Value};

/// The value of a key.
#[tactic(auto, unfolding(crate::specs::ProfileValues::value_at))]
fn value_at(table: &Table, key: Key) -> Result<&Value, ReadProfileFault>
    ensures { Gives (λ v. view v.now) result (value_at key (table_view table.now)) }
{
    match entry(table, key) {
        Some(value) => Ok(value),
        None => Err(ReadProfileFault::BadValue),
    }
}

/// A key's integer, from `least` to `most`.
#[tactic(auto, unfolding(crate::specs::ProfileValues::number_for))]
pub(crate) fn number_at(
    table: &Table,
    key: Key,
    least: u64,
    most: u64,
) -> Result<u64, ReadProfileFault>
    ensures exact { Gives (λ n. n) result (number_for key least most (table_view table.now)) }
    ensures least { IfOk result (λ n. least ≤ n) }
    ensures most { IfOk result (λ n. n ≤ most) }
{
    match value_at(table, key)?.as_integer() {
        Some(number) if number >= 0 => {
            let number = number as u64;
            if least <= number && number <= most {
                Ok(number)
            } else {
                Err(ReadProfileFault::BadValue)
            }
        }
        _ => Err(ReadProfileFault::BadValue),
    }
}

#[tactic(auto, unfolding(crate::specs::ProfileValues::flag_for))]
fn flag_at(table: &Table, key: Key) -> Result<bool, ReadProfileFault>
    ensures { Gives (λ b. b) result (flag_for key (table_view table.now)) }
{
    match value_at(table, key)?.as_bool() {
        Some(flag) => Ok(flag),
        None => Err(ReadProfileFault::BadValue),
    }
}

#[tactic(auto, unfolding(crate::specs::ProfileValues::table_at))]
fn table_at(table: &Table, key: Key) -> Result<&Table, ReadProfileFault>
    ensures { Gives (λ t. table_view t.now) result (table_at key (table_view table.now)) }
{
    match value_at(table, key)?.as_table() {
        Some(inner) => Ok(inner),
        None => Err(ReadProfileFault::BadValue),
    }
}

#[tactic(auto, unfolding(crate::specs::ProfileValues::text_for))]
fn text_at(table: &Table, key: Key) -> Result<&str, ReadProfileFault>
    ensures { Gives (λ t. t.now) result (text_for key (table_view table.now)) }
{
    match value_at(table, key)?.as_str() {
        Some(text) => Ok(text),
        None => Err(ReadProfileFault::BadValue),
    }
}

/// A key's address.
#[tactic(auto, unfolding(crate::specs::ProfileValues::address_at))]
pub(crate) fn address_at(table: &Table, key: Key) -> Result<Addr, ReadProfileFault>
    ensures { Gives (λ a. a) result (address_at key (table_view table.now)) }
{
    match Addr::from_text(text_at(table, key)?.as_bytes()) {
        Some(addr) => Ok(addr),
        None => Err(ReadProfileFault::BadValue),
    }
}

/// QCI and ARP of the default bearer.
#[tactic(auto, unfolding(crate::specs::ProfileValues::qos_at))]
pub(crate) fn qos_at(table: &Table, key: Key) -> Result<Qos, ReadProfileFault>
    ensures { Gives (λ q. q) result (qos_at key (table_view table.now)) }
{
    let inner = table_at(table, key)?;
    let qci = number_at(inner, Key::Qci, 0, 255)? as u8;
    let level = number_at(inner, Key::Level, 1, 15)? as u8;
    let capability = flag_at(inner, Key::Capability)?;
    let vulnerability = flag_at(inner, Key::Vulnerability)?;
    match Arp::new(level, capability, vulnerability) {
        Ok(arp) => Ok(Qos { qci: Qci(qci), arp }),
        Err(_) => Err(ReadProfileFault::BadValue),
    }
}

/// A capacity in both directions, each at most `most`.
#[tactic(auto, unfolding(crate::specs::ProfileValues::capacity_at))]
pub(crate) fn capacity_at(table: &Table, key: Key, most: u64) -> Result<Sums, ReadProfileFault>
    ensures exact { Gives (λ c. c) result (capacity_at key most (table_view table.now)) }
    ensures up { IfOk result (λ c. c.up ≤ most) }
    ensures down { IfOk result (λ c. c.down ≤ most) }
{
    let inner = table_at(table, key)?;
    let up = number_at(inner, Key::Up, 0, most)?;
    let down = number_at(inner, Key::Down, 0, most)?;
    Ok(Sums { up, down })
}

fn kind_of(text: &str) -> Option<Kind>
    ensures { result ≡ qci_kind text.now }
{
    match text {
        "GBR" => Some(Kind::Gbr),
        "NON-GBR" => Some(Kind::NonGbr),
        _ => None,
    }
}

#[tactic(auto, unfolding(crate::specs::ProfileValues::kind_at))]
fn kind_at(table: &Table, key: Key) -> Result<Kind, ReadProfileFault>
    ensures { Gives (λ k. k) result (kind_at key (table_view table.now)) }
{
    match kind_of(text_at(table, key)?) {
        Some(kind) => Ok(kind),
        None => Err(ReadProfileFault::BadValue),
    }
}

#[tactic(auto, unfolding(crate::specs::ProfileValues::declaration_of))]
fn declaration(value: &Value) -> Result<(u8, Kind), ReadProfileFault>
    ensures { Gives (λ d. d) result (declaration_of (view value.now)) }
{
    let Some(inner) = value.as_table() else {
        return Err(ReadProfileFault::BadValue);
    };
    let qci = number_at(inner, Key::Qci, 0, 255)? as u8;
    let kind = kind_at(inner, Key::Kind)?;
    Ok((qci, kind))
}

fn declarations(alloc: Global, values: &[Value]) -> Result<Vec<(u8, Kind)>, ReadProfileFault>
    ensures { Gives (λ ds. ds.items) result (declarations_of (items_view values.now)) }
{
    let mut declared = Vec::new(alloc);
    for value in values {
        declared.push(declaration(value)?)?;
    }
    Ok(declared)
}

/// The QCIs that the array at a key declares, each with its kind. Without that array there are none.
#[tactic(auto, unfolding(crate::specs::ProfileValues::declarations_at))]
pub(crate) fn declarations_at(
    alloc: Global,
    table: &Table,
    key: Key,
) -> Result<Vec<(u8, Kind)>, ReadProfileFault>
    ensures { Gives (λ ds. ds.items) result (declarations_at key (table_view table.now)) }
{
    let Some(value) = entry(table, key) else {
        return Ok(Vec::new(alloc));
    };
    match value.as_array() {
        Some(values) => declarations(alloc, values.as_slice()),
        None => Err(ReadProfileFault::BadValue),
    }
}
