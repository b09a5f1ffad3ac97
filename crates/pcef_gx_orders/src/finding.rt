//! What a session has now that orders speak of.

ghost use Rattle.std.specs.Prelude.{◌≡◌, IfOk, option_map};
ghost use Rattle.pcef_gx_orders.specs.Standing.{active_definition, keys_on};
ghost use Rattle.pcef_gx_orders.specs.Keeping.{definition_of, kept_definition, on_of};
ghost use Rattle.pcef_model.specs.Refusals.{is_active};

use pcef_active::ActiveRules;
use pcef_rule::{KeyName, Rule, RuleName};
use pcef_session::SessionState;
use pcef_table::Source;
use pcef_usage::KeyState;
use std::alloc::{AllocError, Global};

/// The definition of a dynamic rule.
fn definition_of(source: &Source) -> Option<&Rule>
    ensures { option_map (λ r. r.now) result ≡ definition_of source.now }
{
    match source {
        Source::Dynamic(rule) => Some(rule),
        Source::Predefined(_) => None,
    }
}

/// The definition of the kept rule of this name, where it is a dynamic one.
fn kept_definition<'a>(rules: &'a ActiveRules, name: &RuleName) -> Option<&'a Rule>
    ensures { option_map (λ r. r.now) result ≡ kept_definition name.now rules.now.rules }
{
    for place in 0..rules.len() {
        if let Some((kept, source)) = rules.get_index(place) {
            if *kept == *name {
                return definition_of(source);
            }
        }
    }
    None
}

/// The definition of the active rule of this name, where it is a dynamic one.
pub(crate) fn active_definition<'a>(session: &'a SessionState, name: &RuleName) -> Option<&'a Rule>
    ensures { option_map (λ r. r.now) result
        ≡ active_definition session.now.setting session.now.journal name.now }
{
    kept_definition(session.active(), name)
}

/// Whether a rule of this name is active.
pub(crate) fn is_active(session: &SessionState, name: &RuleName) -> bool
    ensures { result ≡ is_active session.now.setting session.now.journal name.now }
{
    session.active().contains(name)
}

/// The keys that are on, of those that have a slot.
fn on_of(alloc: Global, states: &[KeyState]) -> Result<Vec<KeyName>, AllocError>
    ensures { IfOk result (λ keys. keys.items ≡ on_of states.now) }
{
    let mut keys = Vec::new(alloc);
    for state in states {
        if state.on {
            keys.push(state.key.copy())?;
        }
    }
    Ok(keys)
}

/// The keys that are on, in slot order. Takes memory.
#[tactic(auto, using(crate::proofs::Kept::keys_are_on))]
pub(crate) fn keys_on(alloc: Global, session: &SessionState) -> Result<Vec<KeyName>, AllocError>
    ensures { IfOk result (λ keys. keys.items ≡ keys_on session.now.setting session.now.journal) }
{
    on_of(alloc, session.usage().states())
}
