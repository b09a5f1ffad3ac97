//! A session, and messages that are played on it.

ghost use Rattle.std.specs.Prelude.{◌≡◌, ◌<◌, ◌≤◌, ◌^◌, IfSome, length, true};

use super::hexadecimal::is_hexadecimal_of;
use pcef_built_in::ShapedCatalog;
use pcef_catalog::Offers;
use pcef_diameter::{MessageHeader, read_message_header};
use pcef_gx_dialogue::{AnsweredRar, Ccrs, LeftToHost, Party, Responder, SendRefusal, answer_rar};
use pcef_gx_messages::{Identity, RequestKind, RequestMark};
use pcef_gx_updates::Update;
use pcef_model::Profile;
use pcef_packet::Addr;
use pcef_rule::{Arp, Qci, QciTable, Qos, Sums};
use pcef_session::SessionState;
use pcef_world::WorldState;
use std::alloc::Global;

/// The Session-Id of the sessions that are opened here.
pub(super) const SESSION_ID: &[u8] = b"pcef.example.net;7;1";

/// A message of the PCRF, and the answer that is due to it.
#[derive(Clone, Copy)]
pub(super) struct Exchange {
    /// The Session-Id that the PCEF knows.
    pub session_id: &'static [u8],
    /// The message, in hexadecimal.
    pub message: &'static str,
    /// The answer, in hexadecimal.
    pub answer: &'static str,
}

/// 10.0.0.2, with 1,000,000 bit/s uplink and 2,000,000 downlink, and a default bearer of QCI 9.
fn profile() -> Option<Profile> {
    Some(Profile {
        ue: Addr::V4(0x0a00_0002),
        default_qos: Qos {
            qci: Qci(9),
            arp: Arp::known(8, false, true),
        },
        capacity: Sums {
            up: 1_000_000,
            down: 2_000_000,
        },
        qcis: QciTable::new(&[]).ok()?,
        rows: 1000,
        commands: 1000,
    })
}

/// A session over the predefined rules, with an empty journal.
pub(super) fn session(alloc: Global, catalog: &ShapedCatalog) -> Option<WorldState>
    ensures { IfSome result (λ w. catalog.now ≡ w.session.setting.catalog) }
{
    let profile = profile()?;
    let Ok(listing) = catalog.listing().share() else {
        return None;
    };
    match WorldState::open(alloc, profile, listing) {
        Ok(world) => Some(world),
        Err(_) => None,
    }
}

/// Who speaks, of this session.
pub(super) fn identity(session_id: &[u8]) -> Option<Identity<'_>> {
    Identity::new(
        session_id,
        b"pcef.example.net",
        b"example.net",
        b"example.org",
    )
}

/// The answers of a session that is opened here.
pub(super) fn responder(alloc: Global) -> Option<Responder> {
    let party = Party::new(alloc, &identity(SESSION_ID)?).ok()?;
    Some(Responder::new(party))
}

/// The header of a request of the PCRF.
pub(super) fn request_header(message: &[u8]) -> Option<MessageHeader>
    ensures request { IfSome result (λ h. h.request ≡ true) }
    ensures command { IfSome result (λ h. h.command < 2 ^ 24) }
    ensures whole { IfSome result (λ _. 20 ≤ length message.now) }
{
    let header = read_message_header(message)?;
    if header.command < 1 << 24 && header.request {
        Some(header)
    } else {
        None
    }
}

/// The answer to a request; none for want of memory, or where there is no header of one.
pub(super) fn answer(
    alloc: Global,
    catalog: &ShapedCatalog,
    world: &mut WorldState,
    session_id: &[u8],
    message: &[u8],
) -> Option<AnsweredRar>
    requires { catalog.now ≡ world.old.session.setting.catalog }
    ensures { world.new.session.setting ≡ world.old.session.setting }
{
    let identity = identity(session_id)?;
    let header = request_header(message)?;
    answer_rar(alloc, catalog, world, &identity, &header, message).ok()
}

/// Whether a message is answered as is due.
pub(super) fn is_answered(
    alloc: Global,
    catalog: &ShapedCatalog,
    world: &mut WorldState,
    exchange: &Exchange,
) -> bool
    requires { catalog.now ≡ world.old.session.setting.catalog }
    ensures { world.new.session.setting ≡ world.old.session.setting }
{
    let Ok(message) = hex::decode(alloc, exchange.message) else {
        return false;
    };
    match answer(alloc, catalog, world, exchange.session_id, &message) {
        Some(answered) => is_hexadecimal_of(answered.answer.octets(), exchange.answer),
        None => false,
    }
}

/// A step of a session, with what is due behind it. Tables of steps are gone over by one loop, which is proved once.
pub(super) trait Step {
    /// Whether all is as is due. Takes memory, whose want is none of the steps.
    fn is_due(
        &self,
        alloc: Global,
        catalog: &ShapedCatalog,
        world: &mut WorldState,
        responder: &mut Responder,
    ) -> bool
        requires { catalog.now ≡ world.old.session.setting.catalog }
        ensures { world.new.session.setting ≡ world.old.session.setting };
}

/// The first step behind which not all is as is due.
fn first_wrong<S: Step>(
    alloc: Global,
    catalog: &ShapedCatalog,
    world: &mut WorldState,
    responder: &mut Responder,
    steps: &[S],
) -> Option<usize>
    requires { catalog.now ≡ world.old.session.setting.catalog }
{
    for (place, step) in steps.iter().enumerate() {
        if !step.is_due(alloc, catalog, world, responder) {
            return Some(place);
        }
    }
    None
}

/// The same on a new session; none where there is none.
fn first_wrong_of<S: Step>(
    alloc: Global,
    catalog: &ShapedCatalog,
    responder: &mut Responder,
    steps: &[S],
) -> Option<Option<usize>> {
    let mut world = session(alloc, catalog)?;
    Some(first_wrong(alloc, catalog, &mut world, responder, steps))
}

/// The same with a new responder; none where there is none.
fn first_wrong_by_one<S: Step>(
    alloc: Global,
    catalog: &ShapedCatalog,
    steps: &[S],
) -> Option<Option<usize>> {
    let mut responder = responder(alloc)?;
    first_wrong_of(alloc, catalog, &mut responder, steps)
}

/// The same over the predefined rules; none for want of memory.
pub(super) fn first_wrong_on_one<S: Step>(alloc: Global, steps: &[S]) -> Option<Option<usize>> {
    match ShapedCatalog::built_in(alloc) {
        Ok(catalog) => first_wrong_by_one(alloc, &catalog, steps),
        Err(_) => None,
    }
}

/// What a session has: its generation, how many active rules, the guaranteed rates of them all uplink and downlink in
/// bit/s, how many keys with a slot, and how many reports.
pub(super) fn totals(session: &SessionState) -> [u64; 6] {
    let rates = session.rates();
    [
        u64::from(session.generation()),
        session.active().len() as u64,
        rates.up,
        rates.down,
        session.usage().states().len() as u64,
        session.journal().reports_len(),
    ]
}

/// Event triggers: 0 where none are named, else one more than how many, and the first.
fn watched(others: &Option<Vec<u32>>) -> (u32, u32) {
    match others {
        Some(others) => (
            1 + others.len().min(100) as u32,
            others.get(0).copied().unwrap_or(0),
        ),
        None => (0, 0),
    }
}

/// What is left to the host: its event triggers, as [`watched`] has them; the QCI and the ARP of the default bearer;
/// one more than the Session-Release-Cause. Zeros where there is none.
pub(super) fn left(left: &LeftToHost) -> [u32; 5] {
    let (count, first) = watched(&left.others);
    let (qci, level) = match left.default_qos {
        Some(qos) => (u32::from(qos.qci.0), u32::from(qos.arp.level())),
        None => (0, 0),
    };
    let release = match left.release {
        Some(cause) => cause.saturating_add(1),
        None => 0,
    };
    [count, first, qci, level, release]
}

/// Sends a CCR, and answers why it isn't sent.
pub(super) fn send(
    alloc: Global,
    ccrs: &mut Ccrs,
    kind: RequestKind,
    update: &Update,
    retransmitted: bool,
) -> Option<SendRefusal> {
    let mark = RequestMark {
        hop_by_hop: 0x0102_0304,
        end_to_end: 0x0a0b_0c0d,
        retransmitted,
    };
    match identity(SESSION_ID) {
        Some(identity) => ccrs.send(alloc, &identity, mark, kind, update).err(),
        None => Some(SendRefusal::NoMemory),
    }
}

/// An update that tells nothing. Takes no memory.
pub(super) fn nothing(alloc: Global) -> Update {
    Update {
        avps: Vec::new(alloc),
        count: 0,
    }
}

/// CCRs of which one of this kind and number is out; none is out for want of memory.
pub(super) fn ccr_out(alloc: Global, kind: RequestKind, number: u32) -> Ccrs {
    let mut ccrs = Ccrs::new();
    let update = nothing(alloc);
    for _ in 0..number {
        let _refused = send(alloc, &mut ccrs, RequestKind::Update, &update, false);
        ccrs.give_up();
    }
    let _refused = send(alloc, &mut ccrs, kind, &update, false);
    ccrs
}
