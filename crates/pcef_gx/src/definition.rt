//! The definition of a rule.

ghost use Rattle.std.specs.Prelude.{◌≡◌, map, option_map};
ghost use Rattle.pcef_diameter.specs.Avps.{shown};
ghost use Rattle.pcef_filter.specs.Reading.{reading_of};
ghost use Rattle.pcef_gx.specs.Definitions.{change_from, change_of, gate_of, key_of, missing_here, or_failure, quality_where};
ghost use Rattle.pcef_gx.specs.Readings.{Gives};

use crate::code::{
    FLOW_STATUS, MONITORING_KEY, ONLINE, PRECEDENCE, QOS_INFORMATION, REDIRECT_INFORMATION,
    TDF_APPLICATION_IDENTIFIER,
};
use crate::failure::RuleFailure;
use crate::fault::Stop;
use crate::filters::FilterList;
use crate::flow::flows;
use crate::looking::{only, only_number, only_word, stands};
use crate::name::name_of;
use crate::quality::{Quality, is_word, quality_in};
use pcef_diameter::Avp;
use pcef_rule::{Gate, KeyName, RuleName};
use std::alloc::Global;

/// What a Charging-Rule-Definition says of a rule (TS 29.212, clause 5.3.4). Of a rule that is active it may leave out
/// what stays.
#[derive(Drop)]
pub struct RuleChange {
    /// The rule's name.
    pub name: RuleName,
    /// Its precedence.
    pub precedence: Option<u32>,
    /// Its filters: none where they stay.
    pub filters: FilterList,
    /// Its QCI and ARP, and with them its guaranteed rates.
    pub quality: Option<Quality>,
    /// Its gate.
    pub gate: Option<Gate>,
    /// Its monitoring key.
    pub key: Option<KeyName>,
}

/// What a definition says, as far as it can be had.
#[derive(Drop)]
struct Said {
    precedence: Option<u32>,
    missing: Option<RuleFailure>,
    key: Result<Option<KeyName>, RuleFailure>,
    gate: Result<Option<Gate>, RuleFailure>,
    quality: Result<Option<Quality>, RuleFailure>,
    filters: Result<FilterList, RuleFailure>,
}

/// The gate of a Flow-Status: REMOVED isn't one.
fn gate_of(word: u32) -> Result<Gate, RuleFailure>
    ensures { result ≡ gate_of word }
{
    match word {
        0 => Ok(Gate::EnabledUplink),
        1 => Ok(Gate::EnabledDownlink),
        2 => Ok(Gate::Enabled),
        3 => Ok(Gate::Disabled),
        _ => Err(RuleFailure::IncorrectFlowInformation),
    }
}

/// The gate of a Flow-Status, where there is one.
fn gate(status: Option<u32>) -> Result<Option<Gate>, RuleFailure>
    ensures { result ≡ or_failure (option_map gate_of status) }
{
    match status {
        Some(word) => Ok(Some(gate_of(word)?)),
        None => Ok(None),
    }
}

/// The key of a Monitoring-Key, where there is one.
fn key(avp: Option<Avp>) -> Result<Option<KeyName>, RuleFailure>
    ensures { result ≡ or_failure (option_map key_of (option_map shown avp.entry)) }
{
    let Some(avp) = avp else {
        return Ok(None);
    };
    match name_of(avp.octets) {
        Some(key) => Ok(Some(key)),
        None => Err(RuleFailure::ResourcesLimitation),
    }
}

/// Why no rule here can have what a definition asks for: detection by an application's name, redirection, charging
/// online.
fn missing_here(charging: Option<u32>, parts: &[Avp]) -> Option<RuleFailure>
    ensures { result ≡ missing_here charging (map shown parts.now) }
{
    if stands(parts, TDF_APPLICATION_IDENTIFIER) {
        return Some(RuleFailure::TdfApplicationIdentifierError);
    }
    if stands(parts, REDIRECT_INFORMATION) || is_word(charging, 1) {
        return Some(RuleFailure::GatewayMalfunction);
    }
    None
}

/// What a QoS-Information says, where there is one.
#[tactic(auto, unfolding(crate::specs::Definitions::quality_where))]
fn quality<'a>(
    alloc: Global,
    information: Option<Avp<'a>>,
) -> Result<Result<Option<Quality>, RuleFailure>, Stop<'a>>
    ensures { Gives (λ quality. quality) result (quality_where (option_map shown information.entry)) }
{
    let Some(information) = information else {
        return Ok(Ok(None));
    };
    match quality_in(alloc, information)? {
        Ok(quality) => Ok(Ok(Some(quality))),
        Err(failure) => Ok(Err(failure)),
    }
}

/// The rule of what a definition says, or the first reason why it can't be had.
fn change_from(name: RuleName, said: Said) -> Result<RuleChange, RuleFailure>
    ensures { result ≡ change_from name said }
{
    if let Some(failure) = said.missing {
        return Err(failure);
    }
    let key = said.key?;
    let gate = said.gate?;
    let quality = said.quality?;
    let filters = said.filters?;
    Ok(RuleChange {
        name,
        precedence: said.precedence,
        filters,
        quality,
        gate,
        key,
    })
}

/// What a Charging-Rule-Definition with this name says, or why such a rule can't be had.
#[tactic(auto, unfolding(crate::specs::Definitions::change_of))]
pub(crate) fn change<'a>(
    alloc: Global,
    name: RuleName,
    parts: &[Avp<'a>],
) -> Result<Result<RuleChange, RuleFailure>, Stop<'a>>
    ensures { Gives (λ change. change) result (change_of reading_of name (map shown parts.now)) }
{
    let precedence = only_number(parts, PRECEDENCE)?;
    let status = only_word(parts, FLOW_STATUS, 4)?;
    let charging = only_word(parts, ONLINE, 1)?;
    let named = only(parts, MONITORING_KEY)?;
    let information = only(parts, QOS_INFORMATION)?;
    let quality = quality(alloc, information)?;
    let filters = flows(alloc, parts)?;
    let said = Said {
        precedence,
        missing: missing_here(charging, parts),
        key: key(named),
        gate: gate(status),
        quality,
        filters,
    };
    Ok(change_from(name, said))
}
