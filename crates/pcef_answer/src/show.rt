//! The answer to `show`.

ghost use Rattle.std.specs.Prelude.{◌≡◌, ◌++◌, All, IfOk, OnOk, codes, string_bytes};
ghost use Rattle.serde_json.specs.Data.{boolean};
ghost use Rattle.serde_json.specs.Written.{comma_if, compact_text};
ghost use Rattle.pcef_table.specs.Sources.{IsKnown};
ghost use Rattle.pcef_answer.specs.ShowAnswers.{ShowsSession, active_data, bearer_data, bearers_data_of, entry_data, kept_data, level_text, state_data, states_data};
ghost use Rattle.pcef_answer.specs.Written.{GoesOn};

use crate::written::{push_comma, push_count, push_last_count, push_name};
use pcef_bearer::Bearers;
use pcef_catalog::Listing;
use pcef_model::Level;
use pcef_rule::{BearerId, Sums};
use pcef_session::SessionState;
use pcef_table::TableEntry;
use pcef_usage::KeyState;
use std::alloc::{AllocError, Global};

/// The active rules in precedence order, the bearers by id, the generation, and the keys in slot order.
pub fn show_answer(alloc: Global, session: &SessionState) -> Result<String, AllocError>
    ensures { IfOk result (λ text. ShowsSession session.now (string_bytes text)) }
{
    let mut text = String::with_capacity(alloc, 1024)?;
    push_shown(
        &mut text,
        session.listing(),
        session.indexed().table().entries(),
        session.bearers(),
        session.generation(),
        session.usage().states(),
    )?;
    Ok(text)
}

fn push_shown(
    text: &mut String,
    listing: &Listing,
    entries: &[TableEntry],
    bearers: &Bearers,
    generation: u32,
    states: &[KeyState],
) -> Result<(), AllocError>
    requires { All (λ e. IsKnown listing.now e.source) entries.now }
    ensures { OnOk result (GoesOn text.old text.new
        (compact_text (kept_data listing.now entries.now bearers.now.bound
        generation states.now))) }
{
    push_active(text, listing, entries)?;
    push_bearers(text, bearers, &IDS)?;
    push_count(text, ",\"generation\":", u64::from(generation))?;
    push_keys(text, states)?;
    text.push_str("}")
}

fn push_active(
    text: &mut String,
    listing: &Listing,
    entries: &[TableEntry],
) -> Result<(), AllocError>
    requires { All (λ e. IsKnown listing.now e.source) entries.now }
    ensures { OnOk result (GoesOn text.old text.new
        (codes "{\"active\":" ++ compact_text (active_data listing.now entries.now))) }
{
    text.push_str("{\"active\":[")?;
    let mut later = false;
    for entry in entries {
        push_entry(text, later, listing, entry)?;
        later = true;
    }
    text.push_str("]")
}

fn push_entry(
    text: &mut String,
    later: bool,
    listing: &Listing,
    entry: &TableEntry,
) -> Result<(), AllocError>
    requires { IsKnown listing.now entry.now.source }
    ensures { OnOk result (GoesOn text.old text.new
        (comma_if later ++ compact_text (entry_data listing.now entry.now))) }
{
    push_comma(text, later)?;
    push_name(text, "\"", entry.source.properties(listing).name.as_str())
}

/// The ids that a bearer may have.
const IDS: [u8; 11] = [5, 6, 7, 8, 9, 10, 11, 12, 13, 14, 15];

fn push_bearers(text: &mut String, bearers: &Bearers, ids: &[u8]) -> Result<(), AllocError>
    ensures { OnOk result (GoesOn text.old text.new
        (codes ",\"bearers\":" ++ compact_text (bearers_data_of bearers.now.bound ids.now))) }
{
    text.push_str(",\"bearers\":[")?;
    let mut later = false;
    for id in ids {
        if let Some(sums) = bearers.guaranteed(BearerId(*id)) {
            let rules = bearers.rules_on(BearerId(*id));
            push_bearer(text, later, *id, rules, sums)?;
            later = true;
        }
    }
    text.push_str("]")
}

fn push_bearer(
    text: &mut String,
    later: bool,
    id: u8,
    rules: u8,
    sums: Sums,
) -> Result<(), AllocError>
    ensures { OnOk result (GoesOn text.old text.new
        (comma_if later ++ compact_text (bearer_data id rules sums))) }
{
    push_comma(text, later)?;
    push_count(text, "{\"down\":", sums.down)?;
    push_count(text, ",\"id\":", u64::from(id))?;
    push_count(text, ",\"rules\":", u64::from(rules))?;
    push_last_count(text, ",\"up\":", sums.up)
}

fn push_keys(text: &mut String, states: &[KeyState]) -> Result<(), AllocError>
    ensures { OnOk result (GoesOn text.old text.new
        (codes ",\"keys\":" ++ compact_text (states_data states.now))) }
{
    text.push_str(",\"keys\":[")?;
    let mut later = false;
    for state in states {
        push_key(text, later, state)?;
        later = true;
    }
    text.push_str("]")
}

fn push_key(text: &mut String, later: bool, state: &KeyState) -> Result<(), AllocError>
    ensures { OnOk result (GoesOn text.old text.new
        (comma_if later ++ compact_text (state_data state.now))) }
{
    push_comma(text, later)?;
    push_name(text, "{\"key\":\"", state.key.as_str())?;
    push_level(text, state.level)?;
    push_on(text, state.on)?;
    push_count(text, ",\"reported\":", state.reported)?;
    push_last_count(text, ",\"unreported\":", state.unreported)
}

fn push_level(text: &mut String, level: Level) -> Result<(), AllocError>
    ensures { OnOk result (GoesOn text.old text.new (level_text level)) }
{
    match level {
        Level::Rule => Ok(()),
        Level::Session => text.push_str(",\"level\":\"session\""),
    }
}

fn push_on(text: &mut String, on: bool) -> Result<(), AllocError>
    ensures { OnOk result (GoesOn text.old text.new
        (codes ",\"on\":" ++ compact_text (boolean on))) }
{
    if on {
        text.push_str(",\"on\":true")
    } else {
        text.push_str(",\"on\":false")
    }
}
