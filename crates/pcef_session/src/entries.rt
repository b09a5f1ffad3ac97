//! Entries of tables for rules that become active.

ghost use Rattle.std.specs.Prelude.{IfOk, None, Some};
ghost use Rattle.pcef_bearer.specs.BindingSteps as binding;
ghost use Rattle.pcef_session.specs.private.Entries.{IsEntryOn};

use crate::keys::{is_on, slot_of};
use crate::prepared::Activation;
use pcef_bearer::Bearers;
use pcef_rule::{BearerId, Properties};
use pcef_table::TableEntry;
use pcef_usage::Usage;
use std::alloc::AllocError;

/// The bearer of a rule that can be bound.
pub(crate) fn bearer_for(bearers: &Bearers, rule: &Properties) -> BearerId
    requires { binding.IsAccepted bearers.now rule.now.name rule.now.qos rule.now.rates }
    ensures { binding.GetsId bearers.now rule.now.name rule.now.qos result.0 }
{
    match bearers.bearer_for(&rule.name, rule.qos) {
        Some(bearer) => bearer,
        None => unreachable!(),
    }
}

/// The entry of a rule that becomes active, on this bearer.
pub(crate) fn entry_of(
    usage: &Usage,
    rule: &Activation,
    bearer: BearerId,
) -> Result<TableEntry, AllocError>
    ensures { IfOk result (λ e. IsEntryOn bearer usage.now rule.now e) }
{
    let source = rule.source.copy()?;
    let key = rule.properties.key.as_ref();
    Ok(TableEntry {
        source,
        bearer,
        slot: slot_of(usage, key),
        counted: is_on(usage, key),
    })
}
