//! A whole rule, of what a definition says and of the rule that was.

ghost use Rattle.std.specs.Prelude.{◌≡◌, ◌<◌, ◌≤◌, IfOk, length, option_copied, option_map};
ghost use Rattle.std.specs.List.{list_all};
ghost use Rattle.pcef_rule.specs.Definition.{most_filters};
ghost use Rattle.pcef_gx.specs.Completing.{completed, or_as_it_was, filters_failure, filters_or, fits_session, fits_version, is_same_version, properties_of, quality_had, rule_with};

use crate::definition::RuleChange;
use crate::failure::RuleFailure;
use crate::quality::Quality;
use pcef_filter::{Filter, Place};
use pcef_packet::Addr;
use pcef_rule::{Gate, KeyName, MAX_FILTERS, Properties, Rule};
use std::alloc::{AllocError, Global};

/// Whether two addresses have one IP version.
fn is_same_version(one: Addr, other: Addr) -> bool
    ensures { result ≡ is_same_version one other }
{
    matches!(
        (one, other),
        (Addr::V4(_), Addr::V4(_)) | (Addr::V6(_), Addr::V6(_))
    )
}

/// Whether the addresses of one side may be those of packets of this session.
fn fits_version(ue: Addr, place: Place) -> bool
    ensures { result ≡ fits_version ue place }
{
    match place {
        Place::Net(net) => is_same_version(ue, net.addr),
        Place::Any | Place::Assigned => true,
    }
}

/// Whether a filter names no address of the other IP version than the session's.
fn fits_session(ue: Addr, filter: &Filter) -> bool
    ensures { result ≡ fits_session ue filter.now }
{
    fits_version(ue, filter.source.place) && fits_version(ue, filter.target.place)
}

fn all_fit(ue: Addr, filters: &[Filter]) -> bool
    ensures { result ≡ list_all (fits_session ue) filters.now }
{
    for filter in filters {
        if !fits_session(ue, filter) {
            return false;
        }
    }
    true
}

/// Why a rule with these filters can't be had.
fn filters_failure(ue: Addr, filters: &[Filter]) -> Option<RuleFailure>
    ensures { result ≡ filters_failure ue filters.now }
{
    if filters.is_empty() {
        return Some(RuleFailure::MissingFlowInformation);
    }
    if filters.len() > MAX_FILTERS {
        return Some(RuleFailure::ResourcesLimitation);
    }
    if !all_fit(ue, filters) {
        return Some(RuleFailure::IncorrectFlowInformation);
    }
    None
}

/// The filters of a definition, or those of the active rule where it has none.
fn filters_or<'a>(change: &'a RuleChange, active: Option<&'a Rule>) -> &'a [Filter]
    ensures { result.now ≡ filters_or change.now.filters (option_copied active.entry) }
{
    match active {
        Some(rule) if change.filters.as_slice().is_empty() => rule.filters(),
        _ => change.filters.as_slice(),
    }
}

/// The quality of a definition, or that of the active rule where it has none.
fn quality_or(change: &RuleChange, active: Option<&Rule>) -> Option<Quality>
    ensures { result ≡ or_as_it_was change.now.quality (option_map quality_had (option_copied active.entry)) }
{
    match (change.quality, active) {
        (Some(quality), _) => Some(quality),
        (None, Some(rule)) => Some(Quality {
            qos: rule.properties().qos,
            rates: rule.properties().rates,
        }),
        (None, None) => None,
    }
}

/// The properties of the rule with this quality.
fn properties_of(change: &RuleChange, active: Option<&Rule>, quality: Quality) -> Properties
    ensures { result ≡ properties_of change.now (option_copied active.entry) quality }
{
    let Some(rule) = active else {
        return Properties {
            name: change.name.copy(),
            precedence: change.precedence.unwrap_or(u32::MAX),
            qos: quality.qos,
            rates: quality.rates,
            gate: change.gate.unwrap_or(Gate::Enabled),
            key: copy_key(&change.key),
        };
    };
    let old = rule.properties();
    Properties {
        name: change.name.copy(),
        precedence: change.precedence.unwrap_or(old.precedence),
        qos: quality.qos,
        rates: quality.rates,
        gate: change.gate.unwrap_or(old.gate),
        key: match &change.key {
            Some(key) => Some(key.copy()),
            None => copy_key(&old.key),
        },
    }
}

fn copy_key(key: &Option<KeyName>) -> Option<KeyName>
    ensures { result ≡ key.now }
{
    match key {
        Some(key) => Some(key.copy()),
        None => None,
    }
}

/// The rule of these properties and filters.
fn make_rule(alloc: Global, properties: Properties, filters: &[Filter]) -> Result<Rule, AllocError>
    requires some { 0 < length filters.now }
    requires few { length filters.now ≤ most_filters }
    ensures { IfOk result (λ rule. rule ≡ record { properties = properties; filters = filters.now }) }
{
    match Rule::new(alloc, properties, filters) {
        Ok(rule) => Ok(rule),
        Err(_) => Err(AllocError),
    }
}

/// The rule that a definition makes of the active one of its name, where there is one, in a session of this address; or
/// the first reason why it can't be had. What the definition leaves out of an active rule stays (TS 29.212, clause
/// 5.3.4). A new rule needs filters, and a QCI with an ARP; without the others it goes last, has an open gate and no key.
/// Takes memory for the rule, and an `Err` outside is its want.
#[tactic(auto, unfolding(crate::specs::Completing::completed))]
pub fn complete(
    alloc: Global,
    ue: Addr,
    change: &RuleChange,
    active: Option<&Rule>,
) -> Result<Result<Rule, RuleFailure>, AllocError>
    ensures { IfOk result (λ rule. rule ≡ completed ue change.now (option_copied active.entry)) }
{
    let filters = filters_or(change, active);
    if let Some(failure) = filters_failure(ue, filters) {
        return Ok(Err(failure));
    }
    let Some(quality) = quality_or(change, active) else {
        return Ok(Err(RuleFailure::UnsuccessfulQosValidation));
    };
    let properties = properties_of(change, active, quality);
    Ok(Ok(make_rule(alloc, properties, filters)?))
}
