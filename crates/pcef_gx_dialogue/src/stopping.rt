//! The keys whose monitoring stops by an answer of the PCRF.

ghost use Rattle.std.specs.Prelude.{◌≡◌, ◌++◌, IfOk, OnOk, map, max};
ghost use Rattle.std.specs.List.{list_any};
ghost use Rattle.pcef_gx.specs.declared.order.Order.TheVariants as order;
ghost use Rattle.pcef_gx_dialogue.specs.Stopping.{is_granted, is_used_up, keys_left, waits, with_stops};
ghost use Rattle.pcef_gx_dialogue.specs.private.Left.{is_state_left, states_left};

use pcef_gx::Order;
use pcef_journal::{Journal, Reports};
use pcef_model::{Body, Cause, Report};
use pcef_rule::KeyName;
use pcef_session::SessionState;
use pcef_usage::KeyState;
use std::alloc::{AllocError, Global};

/// Whether an order grants this key.
fn is_granted(key: &KeyName, order: &Order) -> bool
    ensures { result ≡ is_granted key.now order.now }
{
    match order {
        Order::Monitor { key: other, .. } => *key == *other,
        _ => false,
    }
}

/// Whether an order among these grants this key.
fn any_grants(key: &KeyName, orders: &[Order]) -> bool
    ensures { result ≡ list_any (is_granted key.now) orders.now }
{
    for order in orders {
        if is_granted(key, order) {
            return true;
        }
    }
    false
}

/// Whether a report says that the grant of this key is used up.
fn is_used_up(key: &KeyName, report: &Report) -> bool
    ensures { result ≡ is_used_up key.now report.now.body }
{
    match &report.body {
        Body::Usage {
            key: other,
            cause: Cause::Threshold,
            ..
        } => *key == *other,
        _ => false,
    }
}

/// Whether a report among these says that the grant of this key is used up.
fn any_used_up(key: &KeyName, reports: Reports<'_>) -> bool
    ensures { result ≡ list_any (λ r. is_used_up key.now r.body) reports.entry }
{
    for report in reports {
        if is_used_up(key, report) {
            return true;
        }
    }
    false
}

/// Whether behind so many reports one is still to be told that says that the grant of this key is used up. Those that
/// are forgotten aren't told any more.
fn waits(journal: &Journal, told: u64, key: &KeyName) -> bool
    ensures { result ≡ waits journal.now.entries (max told journal.now.forgotten) key.now }
{
    any_used_up(key, journal.reports_from(told.max(journal.forgotten())))
}

/// Whether this key is on, its grant is used up, the PCRF was told so, and these orders grant it nothing.
#[tactic(auto, unfolding(crate::specs::private::Left::is_state_left))]
fn is_left(state: &KeyState, journal: &Journal, told: u64, orders: &[Order]) -> bool
    ensures { result ≡ is_state_left journal.now.entries (max told journal.now.forgotten) orders.now state.now }
{
    state.on
        && state.grant.is_none()
        && !waits(journal, told, &state.key)
        && !any_grants(&state.key, orders)
}

/// Those of these keys that are left without a grant.
fn states_left(
    alloc: Global,
    states: &[KeyState],
    journal: &Journal,
    told: u64,
    orders: &[Order],
) -> Result<Vec<KeyName>, AllocError>
    ensures { IfOk result (λ keys. keys.items
        ≡ states_left journal.now.entries (max told journal.now.forgotten) orders.now states.now) }
{
    let mut keys = Vec::new(alloc);
    for state in states {
        if is_left(state, journal, told, orders) {
            keys.push(state.key.copy())?;
        }
    }
    Ok(keys)
}

/// The keys of a session that are left without a grant.
#[tactic(auto, using(crate::proofs::Left::keys_are_left))]
fn keys_left(
    alloc: Global,
    session: &SessionState,
    told: u64,
    orders: &[Order],
) -> Result<Vec<KeyName>, AllocError>
    ensures { IfOk result (λ keys. keys.items
        ≡ keys_left session.now.setting session.now.journal (max told session.now.forgotten) orders.now) }
{
    let states = session.usage().states();
    states_left(alloc, states, session.journal(), told, orders)
}

/// Orders to switch these keys off, behind others.
fn push_stops(orders: &mut Vec<Order>, keys: &[KeyName]) -> Result<(), AllocError>
    ensures { OnOk result (orders.new.items ≡ orders.old.items ++ map order.Stop keys.now) }
{
    for key in keys {
        orders.push(Order::Stop(key.copy()))?;
    }
    Ok(())
}

/// The orders of an answer of the PCRF to a CCR, and behind them those to switch off each key that the answer leaves
/// without a grant (TS 29.212, clauses 4.5.16 and 4.5.17): it is on, its grant is used up, the PCRF was told so by the
/// first `told` reports, and no order grants it anew. Takes memory; an `Err` is want of it.
pub fn with_stops<'m>(
    alloc: Global,
    session: &SessionState,
    told: u64,
    orders: Vec<Order<'m>>,
) -> Result<Vec<Order<'m>>, AllocError>
    ensures { IfOk result (λ all. all.items
        ≡ with_stops session.now.setting session.now.journal (max told session.now.forgotten) orders.entry.items) }
{
    let keys = keys_left(alloc, session, told, &orders)?;
    let mut all = orders;
    push_stops(&mut all, &keys)?;
    Ok(all)
}
