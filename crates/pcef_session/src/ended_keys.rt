//! The keys that a command ends.

ghost use Rattle.std.specs.Prelude.{◌≡◌, ◌&&◌, ◌++◌, All, OnOk, not};
ghost use Rattle.std.specs.List.{list_any};
ghost use Rattle.std.specs.Option.{option_copied};
ghost use Rattle.pcef_model.specs.ActiveRules.{is_key};
ghost use Rattle.pcef_table.specs.Sources.{IsKnown};
ghost use Rattle.pcef_session.specs.private.Keys.{comes_named, comes_with, end_cause, ended_usage, usage_if, entry_stays, has_key, is_ended, is_lost, some_entry, stays_with};

use crate::prepared::Activation;
use pcef_catalog::Listing;
use pcef_model::{Cause, Command, PendingReport};
use pcef_rule::{KeyName, RuleName};
use pcef_table::TableEntry;
use pcef_usage::KeyState;
use std::alloc::AllocError;

/// Whether a rule has this key.
fn is_key(key: &KeyName, of: Option<&KeyName>) -> bool
    ensures { result ≡ is_key key.now (option_copied of.entry) }
{
    match of {
        None => false,
        Some(other) => *key == *other,
    }
}

/// Whether the rule that becomes active has this name.
fn comes_named(rule: Option<&Activation>, name: &RuleName) -> bool
    ensures { result ≡ comes_named (option_copied rule.entry) name.now }
{
    match rule {
        None => false,
        Some(rule) => *name == rule.properties.name,
    }
}

/// Whether the rule that becomes active has this key.
fn comes_with(rule: Option<&Activation>, key: &KeyName) -> bool
    ensures { result ≡ comes_with (option_copied rule.entry) key.now }
{
    match rule {
        None => false,
        Some(rule) => is_key(key, rule.properties.key.as_ref()),
    }
}

/// Whether the rule of some entry has this key.
fn has_key(entries: &[TableEntry], listing: &Listing, key: &KeyName) -> bool
    requires { All (λ e. IsKnown listing.now e.source) entries.now }
    ensures { result ≡ some_entry listing.now (has_key key.now) entries.now }
{
    for entry in entries {
        if is_key(key, entry.source.properties(listing).key.as_ref()) {
            return true;
        }
    }
    false
}

/// Whether the rule of an entry is neither replaced by the one that becomes active nor taken away.
fn stays(
    entry: &TableEntry,
    listing: &Listing,
    command: &Command,
    rule: Option<&Activation>,
) -> bool
    requires { IsKnown listing.now entry.now.source }
    ensures { result ≡ entry_stays listing.now command.now (option_copied rule.entry) entry.now }
{
    let name = &entry.source.properties(listing).name;
    !(comes_named(rule, name) || command.takes_away(name, entry.bearer))
}

/// Whether the rule of an entry stays, and has this key.
fn stays_with(
    entry: &TableEntry,
    listing: &Listing,
    command: &Command,
    rule: Option<&Activation>,
    key: &KeyName,
) -> bool
    requires { IsKnown listing.now entry.now.source }
    ensures { result
        ≡ stays_with listing.now command.now (option_copied rule.entry) key.now entry.now }
{
    stays(entry, listing, command, rule)
        && is_key(key, entry.source.properties(listing).key.as_ref())
}

/// Whether a rule that has this key stays.
fn keeps_one(
    entries: &[TableEntry],
    listing: &Listing,
    command: &Command,
    rule: Option<&Activation>,
    key: &KeyName,
) -> bool
    requires { All (λ e. IsKnown listing.now e.source) entries.now }
    ensures { result ≡ list_any
        (stays_with listing.now command.now (option_copied rule.entry) key.now) entries.now }
{
    for entry in entries {
        if stays_with(entry, listing, command, rule, key) {
            return true;
        }
    }
    false
}

/// Whether a key is on and loses its last rule.
fn is_lost(
    state: &KeyState,
    entries: &[TableEntry],
    listing: &Listing,
    command: &Command,
    rule: Option<&Activation>,
) -> bool
    requires { All (λ e. IsKnown listing.now e.source) entries.now }
    ensures { result
        ≡ is_lost listing.now entries.now command.now (option_copied rule.entry) state.now }
{
    state.on
        && has_key(entries, listing, &state.key)
        && !(comes_with(rule, &state.key) || keeps_one(entries, listing, command, rule, &state.key))
}

/// Whether a command ends a key: Terminate all that are on or have unreported octets, another command those that lose
/// their last rule.
fn is_ended(
    state: &KeyState,
    entries: &[TableEntry],
    listing: &Listing,
    command: &Command,
    rule: Option<&Activation>,
) -> bool
    requires { All (λ e. IsKnown listing.now e.source) entries.now }
    ensures { result
        ≡ is_ended listing.now entries.now command.now (option_copied rule.entry) state.now }
{
    match command {
        Command::Terminate => state.on || state.unreported > 0,
        _ => is_lost(state, entries, listing, command, rule),
    }
}

/// What a command reports of a key that it ends.
fn end_cause(command: &Command) -> Cause
    ensures { result ≡ end_cause command.now }
{
    match command {
        Command::Terminate => Cause::Terminated,
        _ => Cause::RulesGone,
    }
}

/// Adds the report of a key that is ended.
fn note(
    reports: &mut Vec<PendingReport>,
    state: &KeyState,
    cause: Cause,
    is_ended: bool,
) -> Result<(), AllocError>
    ensures { OnOk result (reports.new.items
        ≡ reports.old.items ++ usage_if is_ended state.now cause) }
{
    if is_ended {
        reports.push(PendingReport::Usage(state.key.copy(), cause))?;
    }
    Ok(())
}

/// Adds the reports of the keys that a command ends, in slot order.
pub(crate) fn add_ended_keys(
    reports: &mut Vec<PendingReport>,
    states: &[KeyState],
    entries: &[TableEntry],
    listing: &Listing,
    command: &Command,
    rule: Option<&Activation>,
) -> Result<(), AllocError>
    requires { All (λ e. IsKnown listing.now e.source) entries.now }
    ensures { OnOk result (reports.new.items ≡ reports.old.items
        ++ ended_usage listing.now entries.now command.now (option_copied rule.entry) states.now) }
{
    let cause = end_cause(command);
    for state in states {
        let is_ended = is_ended(state, entries, listing, command, rule);
        note(reports, state, cause, is_ended)?;
    }
    Ok(())
}
