//! QCI, ARP and guaranteed rates.

ghost use Rattle.std.specs.Prelude.{◌≡◌, map};
ghost use Rattle.pcef_diameter.specs.Avps.{shown};
ghost use Rattle.pcef_gx.specs.Qualities.{arp_of, is_word, qos_from, qos_of, quality_from, quality_in, rates_from, rates_of};
ghost use Rattle.pcef_gx.specs.Readings.{Gives};

use crate::code::{
    ALLOCATION_RETENTION_PRIORITY, EXTENDED_GBR_DL, EXTENDED_GBR_UL, GUARANTEED_BITRATE_DL,
    GUARANTEED_BITRATE_UL, PRE_EMPTION_CAPABILITY, PRE_EMPTION_VULNERABILITY, PRIORITY_LEVEL,
    QOS_CLASS_IDENTIFIER,
};
use crate::failure::RuleFailure;
use crate::fault::Stop;
use crate::looking::{group, number_from_to, only, only_number, only_word, required, stands};
use pcef_diameter::Avp;
use pcef_rule::{Arp, Qci, Qos, Rates};
use std::alloc::Global;

/// What a rule's QoS-Information says (TS 29.212, clause 5.3.16).
#[derive(Clone, Copy, Debug, PartialEq, Eq)]
pub struct Quality {
    /// QCI and ARP.
    pub qos: Qos,
    /// The guaranteed rates, in bit/s, where there are any.
    pub rates: Option<Rates>,
}

pub(crate) fn is_word(word: Option<u32>, wanted: u32) -> bool
    ensures { result ≡ is_word wanted word }
{
    match word {
        Some(word) => word == wanted,
        None => false,
    }
}

/// An Allocation-Retention-Priority. Without their AVPs it can't pre-empt and can be pre-empted.
#[tactic(auto, unfolding(crate::specs::Qualities::arp_of))]
fn arp<'a>(alloc: Global, avp: Avp<'a>) -> Result<Arp, Stop<'a>>
    ensures { Gives (λ arp. arp) result (arp_of (shown avp.entry)) }
{
    let parts = group(alloc, avp.octets)?;
    let found = required(&parts, PRIORITY_LEVEL)?;
    let level = number_from_to(found, 1, 15)? as u8;
    let capability = only_word(&parts, PRE_EMPTION_CAPABILITY, 1)?;
    let vulnerability = only_word(&parts, PRE_EMPTION_VULNERABILITY, 1)?;
    Ok(Arp::known(level, is_word(capability, 0), !is_word(vulnerability, 1)))
}

/// The QCI and the ARP that a QoS-Information or a Default-EPS-Bearer-QoS has, where both stand there.
#[tactic(auto, unfolding(crate::specs::Qualities::qos_of))]
pub(crate) fn qos<'a>(alloc: Global, parts: &[Avp<'a>]) -> Result<Option<Qos>, Stop<'a>>
    ensures { Gives (λ qos. qos) result (qos_of (map shown parts.now)) }
{
    let class = match only(parts, QOS_CLASS_IDENTIFIER)? {
        Some(class) => Some(Qci(number_from_to(class, 0, 255)? as u8)),
        None => None,
    };
    let priority = match only(parts, ALLOCATION_RETENTION_PRIORITY)? {
        Some(priority) => Some(arp(alloc, priority)?),
        None => None,
    };
    match (class, priority) {
        (Some(qci), Some(arp)) => Ok(Some(Qos { qci, arp })),
        _ => Ok(None),
    }
}

/// The guaranteed rates of a QoS-Information: a rate that is missing is 0, and none where both are.
#[tactic(auto, unfolding(crate::specs::Qualities::rates_of))]
fn rates<'a>(parts: &[Avp<'a>]) -> Result<Option<Rates>, Stop<'a>>
    ensures { Gives (λ rates. rates) result (rates_of (map shown parts.now)) }
{
    let up = only_number(parts, GUARANTEED_BITRATE_UL)?;
    let down = only_number(parts, GUARANTEED_BITRATE_DL)?;
    if up.is_none() && down.is_none() {
        return Ok(None);
    }
    Ok(Some(Rates {
        up: up.unwrap_or(0),
        down: down.unwrap_or(0),
    }))
}

/// The QCI, the ARP and the rates of a rule's QoS-Information, or why a rule with them can't be had.
#[tactic(auto, unfolding(crate::specs::Qualities::quality_in))]
pub(crate) fn quality_in<'a>(
    alloc: Global,
    information: Avp<'a>,
) -> Result<Result<Quality, RuleFailure>, Stop<'a>>
    ensures { Gives (λ quality. quality) result (quality_in (shown information.entry)) }
{
    let parts = group(alloc, information.octets)?;
    let qos = qos(alloc, &parts)?;
    let rates = rates(&parts)?;
    match qos {
        Some(qos) if !stands(&parts, EXTENDED_GBR_UL) && !stands(&parts, EXTENDED_GBR_DL) => {
            Ok(Ok(Quality { qos, rates }))
        }
        _ => Ok(Err(RuleFailure::UnsuccessfulQosValidation)),
    }
}
