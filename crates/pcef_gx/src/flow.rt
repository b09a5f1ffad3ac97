//! The filters of a rule.

ghost use Rattle.std.specs.Prelude.{◌≡◌, [], IfOk, IfSome, Ok, is_some, map};
ghost use Rattle.std.specs.Str.{is_utf8};
ghost use Rattle.pcef_diameter.specs.Avps.{shown};
ghost use Rattle.pcef_filter.specs.Reading.{reading_of};
ghost use Rattle.pcef_gx.specs.Flows.{and_filter, failure_of_text, filter_by, filter_of, flow_in, flow_of, flows_after, is_restricted, says_more};
ghost use Rattle.pcef_gx.specs.Known.{is_one_of};
ghost use Rattle.pcef_gx.specs.Readings.{Gives};

use crate::code::{
    FLOW_DESCRIPTION, FLOW_DIRECTION, FLOW_INFORMATION, FLOW_LABEL, SECURITY_PARAMETER_INDEX,
    TOS_TRAFFIC_CLASS, is,
};
use crate::failure::RuleFailure;
use crate::fault::Stop;
use crate::filters::FilterList;
use crate::looking::{group, only, only_word, stands};
use pcef_diameter::Avp;
use pcef_filter::{Filter, FilterFault, Flow, read_filter};
use std::alloc::{AllocError, Global};
use std::str;

/// The flow word of a Flow-Direction.
fn flow_of(word: Option<u32>) -> Option<Flow>
    ensures { result ≡ flow_of word }
{
    match word {
        None => None,
        Some(1) => Some(Flow::Downlink),
        Some(2) => Some(Flow::Uplink),
        Some(_) => Some(Flow::Bidirectional),
    }
}

/// Whether a `!` stands in a text.
fn has_inversion(text: &[u8]) -> bool
    ensures { result ≡ is_one_of text.now 33 }
{
    text.iter().any(|octet| *octet == b'!')
}

/// Whether a text at fault says what an IPFilterRule may say, but a session doesn't take: `deny`, `!`, options.
fn is_restricted(fault: FilterFault, text: &str) -> bool
    ensures { result ≡ is_restricted fault text.now }
{
    match fault {
        FilterFault::Rest => true,
        FilterFault::Action => text.as_bytes().starts_with(b"deny"),
        FilterFault::Source | FilterFault::Target => has_inversion(text.as_bytes()),
        _ => false,
    }
}

fn failure_of(fault: FilterFault, text: &str) -> RuleFailure
    ensures { result ≡ failure_of_text text.now fault }
{
    if is_restricted(fault, text) {
        RuleFailure::FilterRestrictions
    } else {
        RuleFailure::IncorrectFlowInformation
    }
}

/// The text that octets are, where they are UTF-8.
#[tactic(auto, using(crate::proofs::Texts::text_is, crate::proofs::Texts::text_isnt))]
fn text_of(octets: &[u8]) -> Option<&str>
    ensures same { IfSome result (λ text. text.now ≡ octets.now) }
    ensures exact { is_some result ≡ is_utf8 octets.now }
{
    match str::from_utf8(octets) {
        Ok(text) => Some(text),
        Err(_) => None,
    }
}

/// The filter of a text, or why a rule with it can't be had.
fn filter_of(octets: &[u8], flow: Option<Flow>) -> Result<Filter, RuleFailure>
    ensures { result ≡ filter_of reading_of octets.now flow }
{
    let Some(text) = text_of(octets) else {
        return Err(RuleFailure::IncorrectFlowInformation);
    };
    match read_filter(text, flow) {
        Ok(filter) => Ok(filter),
        Err(fault) => Err(failure_of(fault, text)),
    }
}

/// Whether a Flow-Information says more than a text and a direction.
fn says_more(parts: &[Avp]) -> bool
    ensures { result ≡ says_more (map shown parts.now) }
{
    stands(parts, TOS_TRAFFIC_CLASS)
        || stands(parts, SECURITY_PARAMETER_INDEX)
        || stands(parts, FLOW_LABEL)
}

/// The filter of a Flow-Information, or why a rule with it can't be had.
#[tactic(auto, unfolding(crate::specs::Flows::flow_in))]
fn flow_in<'a>(alloc: Global, avp: Avp<'a>) -> Result<Result<Filter, RuleFailure>, Stop<'a>>
    ensures { Gives (λ filter. filter) result (flow_in reading_of (shown avp.entry)) }
{
    let parts = group(alloc, avp.octets)?;
    let word = only_word(&parts, FLOW_DIRECTION, 3)?;
    match only(&parts, FLOW_DESCRIPTION)? {
        Some(description) if !says_more(&parts) => {
            Ok(filter_of(description.octets, flow_of(word)))
        }
        _ => Ok(Err(RuleFailure::IncorrectFlowInformation)),
    }
}

/// These filters and one more; the first that can't be had stays.
fn and_filter(
    found: Result<FilterList, RuleFailure>,
    next: Result<Filter, RuleFailure>,
) -> Result<Result<FilterList, RuleFailure>, AllocError>
    ensures { IfOk result (λ filters. filters ≡ and_filter found next) }
{
    match (found, next) {
        (Ok(filters), Ok(filter)) => Ok(Ok(filters.and(filter)?)),
        (Err(failure), _) | (_, Err(failure)) => Ok(Err(failure)),
    }
}

/// The filters of all Flow-Informations of a definition, or why a rule with them can't be had, by the first that can't:
/// none where there is no Flow-Information. All are read, since one that is no group refuses the message.
pub(crate) fn flows<'a>(
    alloc: Global,
    parts: &[Avp<'a>],
) -> Result<Result<FilterList, RuleFailure>, Stop<'a>>
    ensures { Gives (λ filters. filters) result (flows_after reading_of (Ok []) (map shown parts.now)) }
{
    let mut found = Ok(FilterList::new(alloc));
    for avp in parts {
        if is(avp, FLOW_INFORMATION) {
            let next = flow_in(alloc, *avp)?;
            found = and_filter(found, next)?;
        }
    }
    Ok(found)
}
