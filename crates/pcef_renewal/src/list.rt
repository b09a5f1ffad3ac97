//! The list of a renewal.

ghost use Rattle.std.specs.Prelude.{◌≡◌, ◌++◌, ◌↔◌, Err, IfOk, OnOk, map, slice_get, true};
ghost use Rattle.pcef_model.specs.Refusals.{was_terminated};
ghost use Rattle.pcef_renewal.specs.Renewal.{grant_after, is_any, renewal, rest_of, rule_again, rules_in_order};
ghost use Rattle.pcef_renewal.specs.private.Again.{again_on, again_on_each, closing, kept_if_some, monitor_of, monitors_of, numbers, source_again, subscription};

use crate::places::places;
use pcef_active::ActiveRules;
use pcef_bearer::{Bound, DEFAULT_BEARER};
use pcef_model::{Command, TriggerSet};
use pcef_rule::{BearerId, RuleName};
use pcef_session::SessionState;
use pcef_table::Source;
use pcef_usage::KeyState;
use std::alloc::{AllocError, Global};
use thiserror::Error;

/// A grant that no session reaches, in octets.
pub const OUT_OF_REACH: u64 = u64::MAX;

/// Why a session has no renewal. Of several faults the first in this order is answered.
#[derive(Clone, Copy, Debug, PartialEq, Eq, Error)]
pub enum ListFault {
    /// The session was terminated.
    #[error("the session was terminated")]
    Terminated,
    /// There is no memory left.
    #[error("there is no memory left")]
    NoMemory,
}

impl From<AllocError> for ListFault {
    ghost use Rattle.std.specs.Prelude.{◌≡◌};
    ghost use Rattle.pcef_renewal.specs.declared.list.ListFault.TheVariants.{NoMemory};

    ghost from_gives = { λ _ fault. fault ≡ NoMemory };

    fn from(_: AllocError) -> ListFault {
        ListFault::NoMemory
    }
}

/// What is left of a grant after these octets, and 1 where nothing is.
fn rest_of(amount: u64, octets: u64) -> u64
    ensures { result ≡ rest_of amount octets }
{
    if octets < amount { amount - octets } else { 1 }
}

/// The grant that a key gets anew.
fn grant_after(grant: Option<u64>, octets: u64) -> u64
    ensures { result ≡ grant_after grant octets }
{
    match grant {
        None => OUT_OF_REACH,
        Some(amount) => rest_of(amount, octets),
    }
}

/// The command that switches a key on again.
fn monitor_of(state: &KeyState) -> Command
    ensures { result ≡ monitor_of state.now }
{
    Command::Monitor {
        key: state.key.copy(),
        grant: grant_after(state.grant, state.unreported),
        level: state.level,
    }
}

/// Adds the commands that switch the keys on again that are on.
fn push_monitors(list: &mut Vec<Command>, states: &[KeyState]) -> Result<(), AllocError>
    ensures { OnOk result (list.new.items ≡ list.old.items ++ monitors_of states.now) }
{
    for state in states {
        if state.on {
            list.push(monitor_of(state))?;
        }
    }
    Ok(())
}

/// Whether a set has an event.
pub(crate) fn is_any(set: TriggerSet) -> bool
    ensures { result ≡ is_any set }
{
    set.usage_report
        || set.rat_change
        || set.plmn_change
        || set.user_location_change
        || set.ue_time_zone_change
}

/// The command that makes an active rule active again.
fn source_again(name: &RuleName, source: &Source) -> Result<Command, AllocError>
    ensures { IfOk result (λ c. c ≡ source_again name.now source.now) }
{
    match source {
        Source::Dynamic(rule) => Ok(Command::Install(rule.copy()?)),
        Source::Predefined(_) => Ok(Command::Activate(name.copy())),
    }
}

/// Adds the command for the active rule at a place.
fn push_rule(list: &mut Vec<Command>, active: &ActiveRules, place: usize) -> Result<(), AllocError>
    ensures { OnOk result (list.new.items
        ≡ list.old.items ++ kept_if_some (slice_get active.now.rules place)) }
{
    match active.get_index(place) {
        Some((name, source)) => {
            let command = source_again(name, source)?;
            list.push(command)?;
        }
        None => {}
    }
    Ok(())
}

/// Adds the commands for the rules on a bearer.
fn push_rules_on(
    list: &mut Vec<Command>,
    bearer: BearerId,
    bound: &[Bound],
    active: &ActiveRules,
) -> Result<(), AllocError>
    ensures { OnOk result (list.new.items
        ≡ list.old.items ++ again_on bearer.0 bound.now active.now.rules) }
{
    for (place, rule) in bound.iter().enumerate() {
        if rule.bearer == bearer {
            push_rule(list, active, place)?;
        }
    }
    Ok(())
}

/// Adds the commands for the rules on these bearers, one bearer after the other.
fn push_rules_on_each(
    list: &mut Vec<Command>,
    bearers: &[BearerId],
    bound: &[Bound],
    active: &ActiveRules,
) -> Result<(), AllocError>
    ensures { OnOk result (list.new.items
        ≡ list.old.items ++ again_on_each (numbers bearers.now) bound.now active.now.rules) }
{
    for bearer in bearers {
        push_rules_on(list, *bearer, bound, active)?;
    }
    Ok(())
}

/// Adds the commands for all active rules, those on the default bearer first.
fn push_rules(
    alloc: Global,
    list: &mut Vec<Command>,
    session: &SessionState,
) -> Result<(), AllocError>
    ensures { OnOk result (list.new.items ≡ list.old.items
        ++ map rule_again (rules_in_order session.now.setting session.now.journal)) }
{
    let bound = session.bearers().bound();
    let active = session.active();
    let others = places(alloc, bound)?;
    push_rules_on(list, DEFAULT_BEARER, bound, active)?;
    push_rules_on_each(list, &others, bound, active)?;
    Ok(())
}

/// Adds the command that subscribes to these events, if there are any.
fn push_subscription(list: &mut Vec<Command>, subscribed: TriggerSet) -> Result<(), AllocError>
    ensures { OnOk result (list.new.items ≡ list.old.items ++ subscription subscribed) }
{
    if is_any(subscribed) {
        list.push(Command::Triggers(subscribed))?;
    }
    Ok(())
}

/// Adds a Close where the session was closed.
fn push_close(list: &mut Vec<Command>, closed: bool) -> Result<(), AllocError>
    ensures { OnOk result (list.new.items ≡ list.old.items ++ closing closed) }
{
    if closed {
        list.push(Command::Close)?;
    }
    Ok(())
}

/// The list of a session that isn't terminated.
pub(crate) fn list_of(alloc: Global, session: &SessionState) -> Result<Vec<Command>, AllocError>
    ensures { IfOk result (λ list. list.items
        ≡ renewal session.now.setting session.now.journal) }
{
    let mut list = Vec::new(alloc);
    push_monitors(&mut list, session.usage().states())?;
    push_subscription(&mut list, session.subscribed())?;
    push_rules(alloc, &mut list, session)?;
    push_close(&mut list, session.is_closed())?;
    Ok(list)
}

/// The commands that make a new session with the same profile and catalog go on like this one, or the first fault in the
/// order of [`ListFault`]. They name, in this order: each key that is on, with its level and what is left of its grant;
/// the subscribed events; each active rule, bearer by bearer; and the Close of a session that was closed. Takes memory for
/// the list.
pub fn renewal(alloc: Global, session: &SessionState) -> Result<Vec<Command>, ListFault>
    ensures terminated { (result ≡ Err ListFault.Terminated)
        ↔ (was_terminated session.now.journal ≡ true) }
    ensures list { IfOk result (λ list. list.items
        ≡ renewal session.now.setting session.now.journal) }
{
    if session.is_terminated() {
        return Err(ListFault::Terminated);
    }
    match list_of(alloc, session) {
        Ok(list) => Ok(list),
        Err(AllocError) => Err(ListFault::NoMemory),
    }
}
