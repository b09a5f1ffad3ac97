//! A session is renewed.

ghost use Rattle.std.specs.Prelude.{◌≡◌, ◌≤◌, IfErr, IfOk, OnErr, OnOk, if◌then◌else◌, length};
ghost use Rattle.pcef_model.specs.declared.command.Command.TheVariants as of;
ghost use Rattle.pcef_model.specs.Lawful.{Lawful};
ghost use Rattle.pcef_model.specs.Refusals.{first_of};
ghost use Rattle.pcef_session.specs.Answers.{DoesCommand, IsOpened};
ghost use Rattle.pcef_session.specs.SessionModel.{HasAtLeast};
ghost use Rattle.pcef_renewal.specs.Accepting.{AreTaken, entered};
ghost use Rattle.pcef_renewal.specs.Likeness.{Like};
ghost use Rattle.pcef_renewal.specs.Maps.{bearers_again};
ghost use Rattle.pcef_renewal.specs.Renewal.{is_any, renewal};
ghost use Rattle.pcef_renewal.specs.Renewing.{IsRenewed, RefusesRenewal, Renews, commands_needed, renew_refusals};
ghost use Rattle.pcef_renewal.specs.private.Again.{monitors_of};

use crate::list::{is_any, list_of};
use crate::places::{BearerNumbers, bearers_again};
use pcef_model::{Accepted, Command, Profile, TriggerSet};
use pcef_session::SessionState;
use pcef_usage::KeyState;
use std::alloc::{AllocError, Global};
use thiserror::Error;

/// Why a session isn't renewed. Of several refusals the first in this order is answered.
#[derive(Clone, Copy, Debug, PartialEq, Eq, Error)]
pub enum RenewRefusal {
    /// The session was terminated.
    #[error("the session was terminated")]
    Terminated,
    /// Workers are still attached, 1 to 16 of them.
    #[error("{0} workers are still attached")]
    WorkersAttached(u8),
    /// The renewal takes all commands that the profile allows, so the new session would take none.
    #[error("the renewal would leave no command")]
    NoCommandLeft,
    /// There is no memory left.
    #[error("there is no memory left")]
    NoMemory,
}

/// A session that was renewed.
#[derive(Drop)]
pub struct Renewed {
    /// The new session.
    pub session: SessionState,
    /// The commands that it took: the renewal.
    pub list: Vec<Command>,
    /// The bearers beside the default one, by their numbers in the old session and in the new one, in the order of the new
    /// ones: 6, 7 .. The default bearer has 5 in both.
    pub bearers: Vec<BearerNumbers>,
    /// What the old session answered to its Terminate: which of its reports this made.
    pub ended: Accepted,
}

/// A copy of a profile. Takes no memory.
pub(crate) fn copy_profile(profile: &Profile) -> Profile
    ensures { result ≡ profile.now }
{
    Profile {
        ue: profile.ue,
        default_qos: profile.default_qos,
        capacity: profile.capacity,
        qcis: profile.qcis,
        rows: profile.rows,
        commands: profile.commands,
    }
}

/// How many of these keys are on.
fn count_on(states: &[KeyState]) -> usize
    ensures count { result ≡ length (monitors_of states.now) }
    ensures few { result ≤ length states.now }
{
    let mut count = 0;
    for state in states {
        if state.on {
            count += 1;
        }
    }
    count
}

/// How many commands these subscriptions take.
fn count_subscriptions(subscribed: TriggerSet) -> usize
    ensures { result ≡ (if is_any subscribed then 1 else 0) }
{
    if is_any(subscribed) { 1 } else { 0 }
}

/// How many commands of its budget the new session needs for the renewal.
fn commands_needed(session: &SessionState) -> usize
    ensures { result ≡ commands_needed session.now.setting session.now.journal }
{
    let keys = count_on(session.usage().states());
    let subscriptions = count_subscriptions(session.subscribed());
    let bound = session.bearers().bound();
    keys + subscriptions + bound.len()
}

/// A new session with the same profile and catalog.
fn open_like(alloc: Global, session: &SessionState) -> Result<SessionState, AllocError>
    ensures { IfOk result (IsOpened session.now.setting) }
{
    // For its contract: the default bearer is one that a session may open with.
    let _bound = session.bearers().bound();
    let profile = copy_profile(session.profile());
    let listing = session.listing().share()?;
    match SessionState::open(alloc, profile, listing) {
        Ok(session) => Ok(session),
        Err(_) => Err(AllocError),
    }
}

/// Plays commands of which none is refused.
fn play(session: &mut SessionState, list: &[Command]) -> Result<(), AllocError>
    requires { AreTaken session.old.setting session.old.journal list.now }
    ensures journal { OnOk result
        (session.new.journal ≡ entered list.now session.old.journal) }
    ensures setting { session.new.setting ≡ session.old.setting }
    ensures forgotten { session.new.forgotten ≡ session.old.forgotten }
{
    for command in list {
        let copy = command.copy()?;
        match session.command(copy) {
            Ok(_) => {}
            Err(_) => return Err(AllocError),
        }
    }
    Ok(())
}

/// The new session, on which the renewal was played.
fn begin(
    alloc: Global,
    session: &SessionState,
    list: &[Command],
) -> Result<SessionState, AllocError>
    requires { list.now ≡ renewal session.now.setting session.now.journal }
    ensures { IfOk result (IsRenewed session.now) }
{
    // For its contract: the journal is lawful.
    let _journal = session.journal();
    let mut new = open_like(alloc, session)?;
    play(&mut new, list)?;
    Ok(new)
}

/// Why a session isn't renewed, out of memory aside.
fn refusal(session: &SessionState) -> Option<RenewRefusal>
    ensures { result ≡ first_of (renew_refusals session.now.setting session.now.journal) }
{
    if session.is_terminated() {
        return Some(RenewRefusal::Terminated);
    }
    let attached = session.attached_count() as u8;
    if attached > 0 {
        return Some(RenewRefusal::WorkersAttached(attached));
    }
    if session.profile().commands as usize <= commands_needed(session) {
        return Some(RenewRefusal::NoCommandLeft);
    }
    None
}

/// What a session is renewed by.
#[derive(Drop)]
pub(crate) struct Plan {
    /// The renewal.
    pub(crate) list: Vec<Command>,
    /// The bearers beside the default one.
    pub(crate) bearers: Vec<BearerNumbers>,
}

/// What a session is renewed by, or why it isn't.
pub(crate) fn plan_for(alloc: Global, session: &SessionState) -> Result<Plan, RenewRefusal>
    ensures refused { IfErr result (RefusesRenewal session.now) }
    ensures accepted { OnOk result (Renews session.now) }
    ensures lawful { OnOk result (Lawful session.now.setting session.now.journal) }
    ensures list { IfOk result (λ plan. plan.list.items
        ≡ renewal session.now.setting session.now.journal) }
    ensures bearers { IfOk result (λ plan. plan.bearers.items
        ≡ bearers_again session.now.setting session.now.journal) }
{
    if let Some(refusal) = refusal(session) {
        return Err(refusal);
    }
    // For its contract: it is lawful.
    let _journal = session.journal();
    let Ok(list) = list_of(alloc, session) else {
        return Err(RenewRefusal::NoMemory);
    };
    match bearers_again(alloc, session) {
        Ok(bearers) => Ok(Plan { list, bearers }),
        Err(_) => Err(RenewRefusal::NoMemory),
    }
}

/// Renews a session: ends it by a Terminate, which reports all its usage, and begins a new one in its place, with the same
/// profile and catalog, which takes its renewal. Or answers the first refusal in the order of [`RenewRefusal`], which
/// changes nothing and leaves no less room. The old session stays where it was, with its reports.
pub fn renew(alloc: Global, session: &mut SessionState) -> Result<Renewed, RenewRefusal>
    ensures refused { IfErr result (RefusesRenewal session.old) }
    ensures accepted { OnOk result (Renews session.old) }
    ensures unchanged { OnErr result (session.new.journal ≡ session.old.journal) }
    ensures room { OnErr result (HasAtLeast session.old.room session.new.room) }
    ensures ended { IfOk result
        (λ r. DoesCommand session.old of.Terminate r.ended session.new) }
    ensures renewed { IfOk result (λ r. IsRenewed session.old r.session) }
    ensures like { IfOk result
        (λ r. Like session.old.setting session.old.journal r.session.journal) }
    ensures list { IfOk result
        (λ r. r.list.items ≡ renewal session.old.setting session.old.journal) }
    ensures bearers { IfOk result
        (λ r. r.bearers.items ≡ bearers_again session.old.setting session.old.journal) }
    ensures setting { session.new.setting ≡ session.old.setting }
    ensures forgotten { session.new.forgotten ≡ session.old.forgotten }
{
    let Plan { list, bearers } = match plan_for(alloc, session) {
        Ok(plan) => plan,
        Err(refusal) => return Err(refusal),
    };
    let Ok(new) = begin(alloc, session, &list) else {
        return Err(RenewRefusal::NoMemory);
    };
    match session.command(Command::Terminate) {
        Ok(ended) => Ok(Renewed {
            session: new,
            list,
            bearers,
            ended,
        }),
        Err(_) => Err(RenewRefusal::NoMemory),
    }
}
