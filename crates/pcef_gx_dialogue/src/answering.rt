//! The answer to a RAR.

ghost use Rattle.std.specs.Prelude.{◌≡◌, ◌<◌, ◌≤◌, ◌+◌, ◌^◌, IfErr, IfOk, length, option_map, true};
ghost use Rattle.std.specs.List.{list_any};
ghost use Rattle.pcef_diameter.specs.Avps.{shown};
ghost use Rattle.pcef_gx.specs.Messages as messages;
ghost use Rattle.pcef_gx_messages.specs.Sent.{most_room, told_of};
ghost use Rattle.pcef_gx_dialogue.specs.private.Askers.{asker_of};
ghost use Rattle.pcef_gx_dialogue.specs.Rars.{AnswersRar, DoesOrders, GoesBackOf, HaveRoom, Obeys, RefusesUnknown, asked_beside, avp_refused, is_ended, is_triggers, left_by, left_of, nothing_left, refusal_to, speaker_for, told_of_orders};

use crate::asking::{MAX_MESSAGE, data_in, read_request};
use crate::halt::Halt;
use pcef_catalog::Detects;
use pcef_diameter::{Avp, HEADER_LEN, MessageHeader};
use pcef_gx::code::{EVENT_TRIGGER, MONITORING_KEY, SESSION_ID, USAGE_MONITORING_REPORT};
use pcef_gx::{GxFault, Order, Orders, Problem, THREE_GPP, example};
use pcef_gx_messages::{Answer, AnswerRoom, Identity, Outcome, proxies_in, refuse};
use pcef_gx_orders::{CarriedOut, NamedOrder, carry_out, with_names};
use pcef_rule::Qos;
use pcef_world::WorldState;
use std::alloc::{AllocError, Global};

/// What a RAR leaves to the host.
#[derive(Drop)]
pub struct LeftToHost {
    /// Where the message names event triggers, the numbers of those that a session doesn't have: the host watches for
    /// them, and for no other, from then on.
    pub others: Option<Vec<u32>>,
    /// The QCI and the ARP that the default bearer is to have, where the PCRF says so.
    pub default_qos: Option<Qos>,
    /// Why the session is to end, where the PCRF ends it: the Session-Release-Cause.
    pub release: Option<u32>,
}

/// The answer to a RAR, and what it leaves to the host.
#[derive(Drop)]
pub struct AnsweredRar {
    /// The answer.
    pub answer: Answer,
    /// What is left to the host.
    pub left: LeftToHost,
}

/// How many octets the reports of these orders take at most. An `Err` is a name of more than 65,536 octets, or reports
/// of more than 4,000,000, which no message of at most 65,536 asks for.
pub(crate) fn room_of(orders: &[NamedOrder]) -> Result<usize, AllocError>
    ensures room { IfOk result (λ octets. HaveRoom orders.now octets) }
    ensures most { IfOk result (λ octets. octets + 65536 ≤ most_room) }
{
    let mut octets: usize = 0;
    for named in orders {
        let len = named.name().len();
        if len > 65_536 || octets > 4_000_000 {
            return Err(AllocError);
        }
        octets += len + 68;
    }
    Ok(octets)
}

/// The AVP that a refused order came from.
fn avp_refused<'a>(named: &'a NamedOrder) -> Avp<'a>
    ensures { shown result ≡ avp_refused named.now }
{
    match named.order() {
        Order::Triggers(_) => example(EVENT_TRIGGER),
        Order::ReportAll => example(USAGE_MONITORING_REPORT),
        _ => Avp {
            code: MONITORING_KEY.number,
            vendor: Some(THREE_GPP),
            mandatory: false,
            protected: false,
            octets: named.name(),
        },
    }
}

/// What the answer tells of the orders that were done.
fn told<'a>(done: &CarriedOut<'a, '_>) -> Outcome<'a>
    ensures { told_of result ≡ told_of_orders done.now.reports.items (option_map (λ o. o.now) done.now.refused) }
{
    match done.refused {
        Some(named) => Outcome::Fault(GxFault {
            problem: Problem::UnableToComply,
            failed: avp_refused(named),
        }),
        None if done.reports.is_empty() => Outcome::Success,
        None => Outcome::RulesFailed,
    }
}

/// Whether an order is a subscription to events.
fn is_triggers(order: &Order) -> bool
    ensures { result ≡ is_triggers order.now }
{
    matches!(order, Order::Triggers(_))
}

/// Whether a message names event triggers.
fn names_triggers(orders: &[Order]) -> bool
    ensures { result ≡ list_any is_triggers orders.now }
{
    for order in orders {
        if is_triggers(order) {
            return true;
        }
    }
    false
}

/// The orders of a message, and what it leaves to the host. Takes no memory.
pub fn apart(asked: Orders<'_>) -> (Vec<Order<'_>>, LeftToHost)
    ensures orders { result.0.items ≡ asked.entry.orders.items }
    ensures left { left_by result.1 ≡ asked_beside (messages.asked asked.entry) }
{
    let Orders {
        orders,
        others,
        default_qos,
        release,
    } = asked;
    let others = if names_triggers(&orders) {
        Some(others)
    } else {
        None
    };
    let left = LeftToHost {
        others,
        default_qos,
        release,
    };
    (orders, left)
}

/// What an answer needs of its request.
#[derive(Clone, Copy)]
struct Asker<'a> {
    identity: &'a Identity<'a>,
    header: &'a MessageHeader,
    message: &'a [u8],
    back: &'a [u8],
}

/// Who refuses a request that has this Session-Id, where it has one that can be read.
fn speaker_for<'a>(identity: &Identity<'a>, session: Option<&'a [u8]>) -> Identity<'a>
    ensures { result ≡ speaker_for (option_map (λ octets. octets.now) session.entry) identity.now }
{
    match session {
        Some(session) => identity.speaking_of(session),
        None => identity.speaking_of(identity.session_id()),
    }
}

/// The answer that refuses a request.
fn refusal_to(alloc: Global, asker: &Asker, outcome: &Outcome) -> Result<Answer, AllocError>
    requires whole { 20 ≤ length asker.now.message.now }
    requires command { asker.now.header.now.command < 2 ^ 24 }
    requires back { length asker.now.back.now ≤ 65536 }
    ensures { IfOk result (λ answer. answer ≡ refusal_to (asker_of asker.now) (told_of outcome.now)) }
{
    let session = data_in(alloc, SESSION_ID, asker.message)?;
    let identity = speaker_for(asker.identity, session);
    refuse(alloc, &identity, asker.header, outcome, asker.back)
}

/// What goes back of a request.
fn back_of(alloc: Global, message: &[u8]) -> Result<Vec<u8>, AllocError>
    requires { 20 ≤ length message.now }
    ensures back { IfOk result (λ back. GoesBackOf message.now back.items) }
    ensures room { IfOk result (λ back. length back.items ≤ 65536) }
{
    if message.len() > MAX_MESSAGE {
        return Ok(Vec::new(alloc));
    }
    proxies_in(alloc, message.split_at(HEADER_LEN).1)
}

/// Does orders, and answers.
fn do_orders<C: Detects>(
    alloc: Global,
    catalog: &C,
    world: &mut WorldState,
    asker: &Asker,
    orders: &[NamedOrder],
) -> Result<Answer, AllocError>
    requires offered { C.offers catalog.now ≡ world.old.session.setting.catalog }
    requires command { asker.now.header.now.command < 2 ^ 24 }
    requires back { length asker.now.back.now ≤ 65536 }
    ensures answer { IfOk result (λ a. DoesOrders (asker_of asker.now) orders.now world.old a world.new) }
    ensures lacks { IfErr result (λ _. world.new ≡ world.old) }
    ensures workers { world.new.workers ≡ world.old.workers }
    ensures setting { world.new.session.setting ≡ world.old.session.setting }
    ensures forgotten { world.new.session.forgotten ≡ world.old.session.forgotten }
{
    let octets = room_of(orders)?;
    let room = AnswerRoom::new(alloc, octets + asker.back.len())?;
    let done = carry_out(alloc, catalog, world, orders)?;
    Ok(room.answer(
        asker.identity,
        asker.header,
        &told(&done),
        &done.reports,
        asker.back,
    ))
}

/// An answer that leaves nothing to the host.
fn refused(alloc: Global, asker: &Asker, outcome: &Outcome) -> Result<AnsweredRar, AllocError>
    requires whole { 20 ≤ length asker.now.message.now }
    requires command { asker.now.header.now.command < 2 ^ 24 }
    requires back { length asker.now.back.now ≤ 65536 }
    ensures answer { IfOk result (λ a. a.answer ≡ refusal_to (asker_of asker.now) (told_of outcome.now)) }
    ensures left { IfOk result (λ a. left_by a.left ≡ nothing_left) }
{
    Ok(AnsweredRar {
        answer: refusal_to(alloc, asker, outcome)?,
        left: LeftToHost {
            others: None,
            default_qos: None,
            release: None,
        },
    })
}

/// Does what a RAR asks for, and answers.
fn obey<C: Detects>(
    alloc: Global,
    catalog: &C,
    world: &mut WorldState,
    asker: &Asker,
    asked: Orders,
) -> Result<AnsweredRar, AllocError>
    requires offered { C.offers catalog.now ≡ world.old.session.setting.catalog }
    requires whole { 20 ≤ length asker.now.message.now }
    requires command { asker.now.header.now.command < 2 ^ 24 }
    requires back { length asker.now.back.now ≤ 65536 }
    ensures answer { IfOk result (λ a.
        Obeys (is_ended world.old) (asker_of asker.now) asked.entry.orders.items world.old a.answer world.new) }
    ensures left { IfOk result (λ a.
        left_by a.left ≡ left_of (is_ended world.old) (messages.asked asked.entry)) }
    ensures lacks { IfErr result (λ _. world.new ≡ world.old) }
    ensures workers { world.new.workers ≡ world.old.workers }
    ensures setting { world.new.session.setting ≡ world.old.session.setting }
    ensures forgotten { world.new.session.forgotten ≡ world.old.session.forgotten }
{
    if world.session().is_ended() {
        return refused(alloc, asker, &Outcome::UnknownSession);
    }
    let (orders, left) = apart(asked);
    let named = with_names(alloc, orders)?;
    Ok(AnsweredRar {
        answer: do_orders(alloc, catalog, world, asker, &named)?,
        left,
    })
}

/// Answers a RAR with this header (TS 29.212, clauses 4.5.2 and 4.5.12): the caller sees by its R bit that it is a
/// request, for nothing answers an answer. It is refused as a whole, by the first reason
/// of [`read_request`], or where the session was closed or terminated, and then nothing changes. Else its orders are
/// done, as [`pcef_gx_orders::carry_out`] does them, and the answer has a Charging-Rule-Report for each rule that
/// couldn't be had; an order that names no rule and is refused is DIAMETER_UNABLE_TO_COMPLY, with its AVP. The answer
/// has the identifiers of the request, its Session-Id, and its Proxy-Infos. Takes memory before anything is done: an `Err` is its want,
/// and nothing has changed. Where memory is wanting for a rule, the rule couldn't be had.
#[tactic(auto, unfolding(crate::specs::Rars::AnswersRar))]
pub fn answer_rar<C: Detects>(
    alloc: Global,
    catalog: &C,
    world: &mut WorldState,
    identity: &Identity,
    header: &MessageHeader,
    message: &[u8],
) -> Result<AnsweredRar, AllocError>
    requires offered { C.offers catalog.now ≡ world.old.session.setting.catalog }
    requires request { header.now.request ≡ true }
    requires command { header.now.command < 2 ^ 24 }
    requires whole { 20 ≤ length message.now }
    ensures answer { IfOk result (λ a.
        AnswersRar identity.now header.now message.now world.old a.answer (left_by a.left) world.new) }
    ensures lacks { IfErr result (λ _. world.new ≡ world.old) }
    ensures workers { world.new.workers ≡ world.old.workers }
    ensures setting { world.new.session.setting ≡ world.old.session.setting }
    ensures forgotten { world.new.session.forgotten ≡ world.old.session.forgotten }
{
    let back = back_of(alloc, message)?;
    let asker = Asker {
        identity,
        header,
        message,
        back: &back,
    };
    match read_request(alloc, identity, header, message) {
        Ok(asked) => obey(alloc, catalog, world, &asker, asked),
        Err(Halt::Refused(outcome)) => refused(alloc, &asker, &outcome),
        Err(Halt::NoMemory) => Err(AllocError),
    }
}

/// Answers a request where there is no session: by the first reason of [`read_request`], or by
/// DIAMETER_UNKNOWN_SESSION_ID. Takes memory; an `Err` is want of it.
pub(crate) fn answer_unknown(
    alloc: Global,
    identity: &Identity,
    header: &MessageHeader,
    message: &[u8],
) -> Result<Answer, AllocError>
    requires request { header.now.request ≡ true }
    requires command { header.now.command < 2 ^ 24 }
    requires whole { 20 ≤ length message.now }
    ensures { IfOk result (λ a. RefusesUnknown identity.now header.now message.now a) }
{
    let back = back_of(alloc, message)?;
    let asker = Asker {
        identity,
        header,
        message,
        back: &back,
    };
    match read_request(alloc, identity, header, message) {
        Ok(_) => refusal_to(alloc, &asker, &Outcome::UnknownSession),
        Err(Halt::Refused(outcome)) => refusal_to(alloc, &asker, &outcome),
        Err(Halt::NoMemory) => Err(AllocError),
    }
}
