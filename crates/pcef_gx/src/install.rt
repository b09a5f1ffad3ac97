//! Installing, activating and removing rules.

ghost use Rattle.std.specs.Prelude.{◌≡◌, OnOk, map};
ghost use Rattle.pcef_diameter.specs.Avps.{shown};
ghost use Rattle.pcef_filter.specs.Reading.{reading_of};
ghost use Rattle.pcef_gx.specs.Installs.{activated, and_order, definition_order, install_after, installed, installs_after, part_installed, part_removed, parts_installed, parts_removed, refusal_of_all, remove_after, removed, removes_after, unable};
ghost use Rattle.pcef_gx.specs.Names.{name_of};
ghost use Rattle.pcef_gx.specs.Readings.{Gives};

use crate::code::{
    BEARER_IDENTIFIER, CHARGING_RULE_BASE_NAME, CHARGING_RULE_DEFINITION, CHARGING_RULE_INSTALL,
    CHARGING_RULE_NAME, CHARGING_RULE_REMOVE, RULE_ACTIVATION_TIME, RULE_DEACTIVATION_TIME, is,
};
use crate::definition::{RuleChange, change};
use crate::failure::RuleFailure;
use crate::fault::Stop;
use crate::looking::{group, required, stands};
use crate::name::name_of;
use crate::order::{GivenName, NameOf, Order};
use pcef_diameter::Avp;
use std::alloc::{AllocError, Global};

/// Why no rule of a Charging-Rule-Install can be had, whatever it is: bearers are chosen here, and nothing is done at a
/// later time.
fn refusal_of_all(parts: &[Avp]) -> Option<RuleFailure>
    ensures { result ≡ refusal_of_all (map shown parts.now) }
{
    if stands(parts, BEARER_IDENTIFIER) {
        return Some(RuleFailure::UnknownBearerId);
    }
    if stands(parts, RULE_ACTIVATION_TIME) || stands(parts, RULE_DEACTIVATION_TIME) {
        return Some(RuleFailure::GatewayMalfunction);
    }
    None
}

fn unable<'a>(name: Avp<'a>, of: NameOf, failure: RuleFailure) -> Order<'a>
    ensures { result ≡ unable (shown name.entry) of failure }
{
    Order::Unable {
        name: GivenName::new(name.octets),
        of,
        failure,
    }
}

/// The order that activates a rule.
fn activated<'a>(name: Avp<'a>, refused: Option<RuleFailure>) -> Order<'a>
    ensures { result ≡ activated (name_of name.entry.octets.now) (shown name.entry) refused }
{
    if let Some(failure) = refused {
        return unable(name, NameOf::Rule, failure);
    }
    match name_of(name.octets) {
        Some(rule) => Order::Activate(rule),
        None => unable(name, NameOf::Rule, RuleFailure::UnknownRuleName),
    }
}

/// The order that removes a rule.
fn removed<'a>(name: Avp<'a>) -> Order<'a>
    ensures { result ≡ removed (name_of name.entry.octets.now) (shown name.entry) }
{
    match name_of(name.octets) {
        Some(rule) => Order::Remove(rule),
        None => unable(name, NameOf::Rule, RuleFailure::UnknownRuleName),
    }
}

/// The order that installs a rule, or says why it can't be had.
fn installed<'a>(
    name: Avp<'a>,
    refused: Option<RuleFailure>,
    change: Result<RuleChange, RuleFailure>,
) -> Order<'a>
    ensures { result ≡ installed (shown name.entry) refused change }
{
    match (change, refused) {
        (Err(failure), _) | (Ok(_), Some(failure)) => unable(name, NameOf::Rule, failure),
        (Ok(change), None) => Order::Install(change),
    }
}

/// The order of a Charging-Rule-Definition.
#[tactic(auto, unfolding(crate::specs::Installs::definition_order))]
fn definition_order<'a>(
    alloc: Global,
    avp: Avp<'a>,
    refused: Option<RuleFailure>,
) -> Result<Order<'a>, Stop<'a>>
    ensures { Gives (λ order. order) result (definition_order reading_of refused (shown avp.entry)) }
{
    let parts = group(alloc, avp.octets)?;
    let called = required(&parts, CHARGING_RULE_NAME)?;
    let Some(name) = name_of(called.octets) else {
        return Ok(unable(called, NameOf::Rule, RuleFailure::ResourcesLimitation));
    };
    let change = change(alloc, name, &parts)?;
    Ok(installed(called, refused, change))
}

/// The order of one part of a Charging-Rule-Install, where it is one. No group of rules is known here.
#[tactic(auto, unfolding(crate::specs::Installs::part_installed))]
fn part_installed<'a>(
    alloc: Global,
    part: Avp<'a>,
    refused: Option<RuleFailure>,
) -> Result<Option<Order<'a>>, Stop<'a>>
    ensures { Gives (λ order. order) result (part_installed reading_of refused (shown part.entry)) }
{
    if is(&part, CHARGING_RULE_DEFINITION) {
        return Ok(Some(definition_order(alloc, part, refused)?));
    }
    if is(&part, CHARGING_RULE_NAME) {
        return Ok(Some(activated(part, refused)));
    }
    if is(&part, CHARGING_RULE_BASE_NAME) {
        let failure = refused.unwrap_or(RuleFailure::UnknownRuleName);
        return Ok(Some(unable(part, NameOf::Base, failure)));
    }
    Ok(None)
}

/// The order of one part of a Charging-Rule-Remove, where it is one.
fn part_removed<'a>(part: Avp<'a>) -> Option<Order<'a>>
    ensures { result ≡ part_removed (shown part.entry) }
{
    if is(&part, CHARGING_RULE_NAME) {
        return Some(removed(part));
    }
    if is(&part, CHARGING_RULE_BASE_NAME) {
        return Some(unable(part, NameOf::Base, RuleFailure::UnknownRuleName));
    }
    None
}

/// Puts an order, where there is one, behind others. Takes memory.
fn push_order<'a>(orders: &mut Vec<Order<'a>>, order: Option<Order<'a>>) -> Result<(), AllocError>
    ensures { OnOk result (orders.new.items ≡ and_order orders.old.items order.entry) }
{
    if let Some(order) = order {
        orders.push(order)?;
    }
    Ok(())
}

/// The orders of the parts of a Charging-Rule-Install, behind others.
fn parts_installed<'a>(
    alloc: Global,
    parts: &[Avp<'a>],
    refused: Option<RuleFailure>,
    orders: &mut Vec<Order<'a>>,
) -> Result<(), Stop<'a>>
    ensures { Gives (λ _. orders.new.items) result (parts_installed reading_of refused orders.old.items (map shown parts.now)) }
{
    for part in parts {
        push_order(orders, part_installed(alloc, *part, refused)?)?;
    }
    Ok(())
}

/// The orders of a Charging-Rule-Install, behind others.
#[tactic(auto, unfolding(crate::specs::Installs::install_after))]
fn install<'a>(alloc: Global, avp: Avp<'a>, orders: &mut Vec<Order<'a>>) -> Result<(), Stop<'a>>
    ensures { Gives (λ _. orders.new.items) result (install_after reading_of orders.old.items (shown avp.entry)) }
{
    let parts = group(alloc, avp.octets)?;
    parts_installed(alloc, &parts, refusal_of_all(&parts), orders)
}

/// The orders of the parts of a Charging-Rule-Remove, behind others.
fn parts_removed<'a>(parts: &[Avp<'a>], orders: &mut Vec<Order<'a>>) -> Result<(), AllocError>
    ensures { OnOk result (orders.new.items ≡ parts_removed orders.old.items (map shown parts.now)) }
{
    for part in parts {
        push_order(orders, part_removed(*part))?;
    }
    Ok(())
}

/// The orders of a Charging-Rule-Remove, behind others.
#[tactic(auto, unfolding(crate::specs::Installs::remove_after))]
fn remove<'a>(alloc: Global, avp: Avp<'a>, orders: &mut Vec<Order<'a>>) -> Result<(), Stop<'a>>
    ensures { Gives (λ _. orders.new.items) result (remove_after orders.old.items (shown avp.entry)) }
{
    let parts = group(alloc, avp.octets)?;
    parts_removed(&parts, orders)?;
    Ok(())
}

/// The orders of all Charging-Rule-Installs of a message, behind others.
pub(crate) fn installs<'a>(
    alloc: Global,
    avps: &[Avp<'a>],
    orders: &mut Vec<Order<'a>>,
) -> Result<(), Stop<'a>>
    ensures { Gives (λ _. orders.new.items) result (installs_after reading_of orders.old.items (map shown avps.now)) }
{
    for avp in avps {
        if is(avp, CHARGING_RULE_INSTALL) {
            install(alloc, *avp, orders)?;
        }
    }
    Ok(())
}

/// The orders of all Charging-Rule-Removes of a message, behind others.
pub(crate) fn removes<'a>(
    alloc: Global,
    avps: &[Avp<'a>],
    orders: &mut Vec<Order<'a>>,
) -> Result<(), Stop<'a>>
    ensures { Gives (λ _. orders.new.items) result (removes_after orders.old.items (map shown avps.now)) }
{
    for avp in avps {
        if is(avp, CHARGING_RULE_REMOVE) {
            remove(alloc, *avp, orders)?;
        }
    }
    Ok(())
}
