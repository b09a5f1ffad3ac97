//! What a message asks of a session.

ghost use Rattle.std.specs.Prelude.{◌≡◌, ◌++◌, OnOk, Result, map, true};
ghost use Rattle.pcef_diameter.specs.Avps.{shown};
ghost use Rattle.pcef_filter.specs.Reading.{reading_of};
ghost use Rattle.pcef_gx.specs.Messages.{Asked, CcaOf, RarOf, all_stand, asked, asked_of, default_in, default_of, message_of, of_cca, of_rar, trigger_orders};
ghost use Rattle.pcef_gx.specs.Readings.{Fault, Gives};

use crate::code::{
    AUTH_APPLICATION_ID, CC_REQUEST_NUMBER, CC_REQUEST_TYPE, Code, DEFAULT_EPS_BEARER_QOS,
    DESTINATION_HOST, DESTINATION_REALM, ORIGIN_HOST, ORIGIN_REALM, RE_AUTH_REQUEST_TYPE,
    SESSION_ID, SESSION_RELEASE_CAUSE,
};
use crate::fault::Stop;
use crate::install::{installs, removes};
use crate::looking::{group, only, only_number, required};
use crate::monitoring::monitors;
use crate::order::{Order, Orders};
use crate::quality::qos;
use crate::triggers::{others_of, set_of, triggers};
use pcef_diameter::Avp;
use pcef_rule::Qos;
use std::alloc::{AllocError, Global};

/// The QCI and the ARP that a Default-EPS-Bearer-QoS has.
#[tactic(auto, unfolding(crate::specs::Messages::default_in))]
fn default_in<'a>(alloc: Global, avp: Avp<'a>) -> Result<Option<Qos>, Stop<'a>>
    ensures { Gives (λ qos. qos) result (default_in (shown avp.entry)) }
{
    let parts = group(alloc, avp.octets)?;
    qos(alloc, &parts)
}

/// The QCI and the ARP of the default bearer, where a message has both.
#[tactic(auto, unfolding(crate::specs::Messages::default_of))]
fn default_qos<'a>(alloc: Global, avps: &[Avp<'a>]) -> Result<Option<Qos>, Stop<'a>>
    ensures { Gives (λ qos. qos) result (default_of (map shown avps.now)) }
{
    match only(avps, DEFAULT_EPS_BEARER_QOS)? {
        Some(avp) => default_in(alloc, avp),
        None => Ok(None),
    }
}

/// The AVPs that each RAR has, once (TS 29.212, clause 5.6.4).
const OF_RAR: &[Code] = &[
    SESSION_ID,
    AUTH_APPLICATION_ID,
    ORIGIN_HOST,
    ORIGIN_REALM,
    DESTINATION_REALM,
    DESTINATION_HOST,
    RE_AUTH_REQUEST_TYPE,
];

/// The AVPs that each CCA has, once (TS 29.212, clause 5.6.3), beside a Result-Code or an Experimental-Result.
const OF_CCA: &[Code] = &[
    SESSION_ID,
    AUTH_APPLICATION_ID,
    ORIGIN_HOST,
    ORIGIN_REALM,
    CC_REQUEST_TYPE,
    CC_REQUEST_NUMBER,
];

/// Whether each of these AVPs stands there once: the first that doesn't is at fault.
fn all_stand<'a>(avps: &[Avp<'a>], codes: &[Code]) -> Result<(), Stop<'a>>
    ensures { Gives (λ _. true) result (all_stand codes.now (map shown avps.now)) }
{
    for code in codes {
        required(avps, *code)?;
    }
    Ok(())
}

/// The order that subscribes to the events with these numbers, where there are any, behind others. Takes memory.
fn push_triggers<'a>(orders: &mut Vec<Order<'a>>, numbers: &[u32]) -> Result<(), AllocError>
    ensures { OnOk result (orders.new.items ≡ orders.old.items ++ trigger_orders numbers.now) }
{
    if !numbers.is_empty() {
        orders.push(Order::Triggers(set_of(numbers)))?;
    }
    Ok(())
}

/// What the AVPs of a RAR or of a CCA ask of a session, or the first fault. Rules are removed before others are
/// installed, and events are subscribed to before keys are switched on.
#[tactic(auto, unfolding(crate::specs::Messages::asked_of))]
fn read_asked<'a>(alloc: Global, avps: &[Avp<'a>]) -> Result<Orders<'a>, Stop<'a>>
    ensures { Gives asked result (asked_of reading_of (map shown avps.now)) }
{
    let default_qos = default_qos(alloc, avps)?;
    let release = only_number(avps, SESSION_RELEASE_CAUSE)?;
    let mut orders = Vec::new(alloc);
    removes(alloc, avps, &mut orders)?;
    installs(alloc, avps, &mut orders)?;
    let numbers = triggers(alloc, avps)?;
    push_triggers(&mut orders, &numbers)?;
    monitors(alloc, avps, &mut orders)?;
    let others = others_of(alloc, &numbers)?;
    Ok(Orders {
        orders,
        others,
        default_qos,
        release,
    })
}

#[tactic(auto, unfolding(crate::specs::Messages::message_of))]
fn read_message<'a>(alloc: Global, avps: &[Avp<'a>], codes: &[Code]) -> Result<Orders<'a>, Stop<'a>>
    ensures { Gives asked result (message_of codes.now reading_of (map shown avps.now)) }
{
    all_stand(avps, codes)?;
    read_asked(alloc, avps)
}

/// What a RAR with these AVPs asks of a session, or the first fault, by which it is refused as a whole (TS 29.212,
/// clause 5.6.4). An AVP that isn't wanted here is passed over, and so are those of the RAR itself, but each of them
/// stands there once. Takes memory; its want may be answered in place of anything.
pub fn read_rar<'a>(alloc: Global, avps: &[Avp<'a>]) -> Result<Orders<'a>, Stop<'a>>
    ensures { (due : Result Asked Fault) × RarOf (map shown avps.now) due × Gives asked result due }
{
    read_message(alloc, avps, OF_RAR)
}

/// What a CCA with these AVPs asks of a session, or the first fault (TS 29.212, clause 5.6.3). Whether its CCR failed is
/// the caller's to see, by its Result-Code or Experimental-Result. Takes memory; its want may be answered in place of
/// anything.
pub fn read_cca<'a>(alloc: Global, avps: &[Avp<'a>]) -> Result<Orders<'a>, Stop<'a>>
    ensures { (due : Result Asked Fault) × CcaOf (map shown avps.now) due × Gives asked result due }
{
    read_message(alloc, avps, OF_CCA)
}
