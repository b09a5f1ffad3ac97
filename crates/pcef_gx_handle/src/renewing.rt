//! The renewal of a session whose dialogue goes on.

ghost use Rattle.std.specs.Prelude.{◌≡◌, ◌≤◌, ◌+◌, ◌++◌, IfErr, IfOk, OnOk, Some, drop, length, take};
ghost use Rattle.pcef_diameter.specs.Spellings.{avps_octets};
ghost use Rattle.pcef_gx_dialogue.specs.Ccrs.{anew};
ghost use Rattle.pcef_gx_updates.specs.Updates.{update_avps};
ghost use Rattle.pcef_gx_handle.specs.Dialogues.{place_of};
ghost use Rattle.pcef_gx_handle.specs.Renewing.{RenewsAt, RenewsGx, RenewsIn, count_out, due_before, due_behind, untold_yet, usage_left};
ghost use Rattle.pcef_gx_handle.specs.private.Carrying.{RefusesCarry, states_left};

use crate::held::{Dialogue, GxHandle};
use pcef_gx_updates::{MAX_REPORTS, update_octets};
use pcef_handle::{Handle, OpenSession};
use pcef_journal::Journal;
use pcef_model::{Body, Cause, Report};
use pcef_renewal_answer::RenewAnswer;
use pcef_session::SessionState;
use pcef_usage::KeyState;
use std::alloc::{AllocError, Global};
use thiserror::Error;

/// Why a session isn't renewed: the first reason in this order. Nothing changes. Want of memory may be answered in place of
/// the last three.
#[derive(Clone, Copy, Debug, PartialEq, Eq, Error)]
pub enum GoOnRefusal {
    /// The handle has no dialogue.
    #[error("there is no dialogue")]
    NoDialogue,
    /// The session's handle has another session than the dialogue, or none.
    #[error("the session is another one")]
    OtherSession,
    /// Reports were forgotten before they were told.
    #[error("a report that is to be told is forgotten")]
    Forgotten,
    /// More than 100 reports aren't told yet: CCRs tell them first.
    #[error("too many reports are to be told first")]
    ReportsDue,
    /// The session refuses: it was terminated, a worker is attached, or the new one would take no command.
    #[error("the session refuses to be renewed")]
    SessionRefuses,
    /// There is no memory left.
    #[error("there is no memory left")]
    NoMemory,
}

/// What is due of the session that is renewed.
#[derive(Drop)]
struct Carried {
    /// The AVPs that are due, in octets.
    due: Vec<u8>,
    /// How many of these octets the CCR tells that is out.
    due_out: usize,
}

/// The first reports, as many.
fn front_of(reports: &[Report], count: u64) -> &[Report]
    ensures { result.now ≡ take count reports.now }
{
    if reports.len() as u64 <= count {
        return reports;
    }
    reports.split_at(count as usize).0
}

/// The reports behind so many.
fn behind(reports: &[Report], count: u64) -> &[Report]
    ensures { result.now ≡ drop count reports.now }
{
    if reports.len() as u64 <= count {
        return &[];
    }
    reports.split_at(count as usize).1
}

/// A report of the usage that isn't reported, for each key that has such usage, behind others.
fn push_usage(reports: &mut Vec<Report>, states: &[KeyState]) -> Result<(), AllocError>
    ensures { OnOk result (reports.new.items ≡ reports.old.items ++ states_left states.now) }
{
    for state in states {
        if state.unreported > 0 {
            reports.push(Report {
                number: 0,
                body: Body::Usage {
                    key: state.key.copy(),
                    octets: state.unreported,
                    cause: Cause::Requested,
                },
            })?;
        }
    }
    Ok(())
}

/// The usage of a session that isn't reported, behind reports.
#[tactic(auto, using(crate::proofs::Carried::usage_is_left))]
fn push_usage_left(reports: &mut Vec<Report>, session: &SessionState) -> Result<(), AllocError>
    ensures { OnOk result (reports.new.items
        ≡ reports.old.items ++ usage_left session.now.setting session.now.journal) }
{
    push_usage(reports, session.usage().states())
}

/// These octets, one behind the other.
fn joined(alloc: Global, first: &[u8], second: &[u8], third: &[u8]) -> Result<Vec<u8>, AllocError>
    ensures { IfOk result (λ all. all.items ≡ (first.now ++ second.now) ++ third.now) }
{
    let mut all = Vec::from_slice(alloc, first)?;
    all.extend_from_slice(second)?;
    all.extend_from_slice(third)?;
    Ok(all)
}

/// Copies of reports.
fn copies(alloc: Global, reports: &[Report]) -> Result<Vec<Report>, AllocError>
    ensures { IfOk result (λ all. all.items ≡ reports.now) }
{
    let mut all = Vec::with_capacity(alloc, reports.len())?;
    for report in reports {
        all.push(report.copy())?;
    }
    Ok(all)
}

/// The AVPs that tell these reports, and the usage of a session that isn't reported.
fn last_octets(
    alloc: Global,
    watches_loss: bool,
    session: &SessionState,
    reports: &[Report],
) -> Result<Vec<u8>, AllocError>
    ensures { IfOk result (λ octets. octets.items ≡ avps_octets (update_avps watches_loss
        (reports.now ++ usage_left session.now.setting session.now.journal))) }
{
    let mut all = copies(alloc, reports)?;
    push_usage_left(&mut all, session)?;
    update_octets(alloc, watches_loss, &all)
}

impl Dialogue {
    /// How many reports the CCR tells that is out.
    fn count_out(&self) -> u64
        ensures { result ≡ count_out self.now.ccrs }
    {
        self.ccrs.past().saturating_sub(self.ccrs.told())
    }

    /// What is due of a session whose reports that aren't told are these.
    fn carry_reports(
        &self,
        alloc: Global,
        session: &SessionState,
        untold: &[Report],
    ) -> Result<Carried, AllocError>
        requires { untold.now ≡ untold_yet session.now.journal self.now.ccrs }
        ensures due { IfOk result (λ c. c.due.items ≡ (due_before session.now.journal self.now ++ self.now.due)
            ++ due_behind session.now.setting session.now.journal self.now) }
        ensures out { IfOk result (λ c.
            c.due_out ≡ length (due_before session.now.journal self.now) + self.now.due_out) }
    {
        let count = self.count_out();
        let first = update_octets(alloc, self.watches_loss, front_of(untold, count))?;
        let last = last_octets(alloc, self.watches_loss, session, behind(untold, count))?;
        let Some(due_out) = first.len().checked_add(self.due_out) else {
            return Err(AllocError);
        };
        let due = joined(alloc, &first, &self.due, &last)?;
        Ok(Carried { due, due_out })
    }

    /// What is due of a session. Takes memory.
    fn carry(&self, alloc: Global, session: &SessionState) -> Result<Carried, GoOnRefusal>
        ensures due { IfOk result (λ c. c.due.items ≡ (due_before session.now.journal self.now ++ self.now.due)
            ++ due_behind session.now.setting session.now.journal self.now) }
        ensures out { IfOk result (λ c.
            c.due_out ≡ length (due_before session.now.journal self.now) + self.now.due_out) }
        ensures kept { OnOk result (session.now.forgotten ≤ self.now.ccrs.told) }
        ensures few { OnOk result (length (untold_yet session.now.journal self.now.ccrs) ≤ 100) }
        ensures refused { IfErr result (λ e. RefusesCarry e self.now session.now) }
    {
        let journal = session.journal();
        let told = self.ccrs.told();
        if told < journal.forgotten() {
            return Err(GoOnRefusal::Forgotten);
        }
        let Ok(untold) = journal.reports_from(told).to_vec(alloc) else {
            return Err(GoOnRefusal::NoMemory);
        };
        if untold.len() > MAX_REPORTS {
            return Err(GoOnRefusal::ReportsDue);
        }
        match self.carry_reports(alloc, session, &untold) {
            Ok(carried) => Ok(carried),
            Err(_) => Err(GoOnRefusal::NoMemory),
        }
    }

    /// The dialogue goes on with another session.
    fn go_on(&mut self, number: u64, carried: Carried)
        ensures { self.new ≡ record self.old {
          ccrs = anew self.old.ccrs;
          session = Some number;
          due = carried.due.items;
          due_out = carried.due_out;
        } }
    {
        self.ccrs.begin_anew();
        self.session = Some(number);
        self.due = carried.due;
        self.due_out = carried.due_out;
    }

    /// Renews the session, and goes on with it.
    fn renew_in(
        &mut self,
        alloc: Global,
        session: &mut OpenSession,
        next: &mut u64,
    ) -> Result<(), GoOnRefusal>
        ensures { RenewsIn self.old session.old next.old result self.new session.new next.new }
    {
        let carried = match self.carry(alloc, session.world.session()) {
            Ok(carried) => carried,
            Err(refusal) => return Err(refusal),
        };
        let RenewAnswer { renewed, text } = session.renew(alloc, next);
        if renewed {
            self.go_on(session.number, carried);
            return Ok(());
        }
        match text {
            Ok(_) => Err(GoOnRefusal::SessionRefuses),
            Err(_) => Err(GoOnRefusal::NoMemory),
        }
    }

    /// Renews the session that is there.
    fn renew_at(&mut self, alloc: Global, handle: &mut Handle) -> Result<(), GoOnRefusal>
        ensures { RenewsAt (place_of self.old.session handle.old.session) self.old handle.old result self.new handle.new }
    {
        match (self.session, &mut handle.session) {
            (Some(number), Some(session)) if session.number == number => {
                self.renew_in(alloc, session, &mut handle.next_number)
            }
            _ => Err(GoOnRefusal::OtherSession),
        }
    }
}

impl GxHandle {
    /// Renews the session at a handle, as [`Handle::renew`] does, and goes on with the dialogue: the same Session-Id, and
    /// CCRs that are numbered on. The PCRF hears of nothing but usage: what it wasn't told of the old session is due for
    /// the next CCR, reports and usage that wasn't reported, and a CCR that is out stays out. The new session has the
    /// handle's next number; its bearers may have other numbers. Takes memory.
    pub fn renew(&mut self, handle: &mut Handle) -> Result<(), GoOnRefusal>
        ensures { RenewsGx self.old.dialogue handle.old result self.new.dialogue handle.new }
    {
        match &mut self.dialogue {
            Some(dialogue) => dialogue.renew_at(self.alloc, handle),
            None => Err(GoOnRefusal::NoDialogue),
        }
    }
}
