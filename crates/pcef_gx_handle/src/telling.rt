//! Which CCR is due, and what it tells.

ghost use Rattle.std.specs.Prelude.{◌≡◌, [], None, is_some, option_map};
ghost use Rattle.pcef_gx_handle.specs.Dialogues.{place_of};
ghost use Rattle.pcef_gx_handle.specs.Telling.{Ends, EndsBy, IfKept, Next, NextBy, Sends, SendsUpdate, TellsNext, Updates, UpdatesAt, again, forgone, last_kind, out_of};

use crate::held::{Dialogue, GxHandle, Stage};
use pcef_gx_dialogue::SendRefusal;
use pcef_gx_messages::{RequestKind, RequestMark};
use pcef_gx_updates::{MAX_REPORTS, Update, next_update};
use pcef_handle::{Handle, OpenSession};
use pcef_journal::Journal;
use std::alloc::Global;
use thiserror::Error;

/// Why no CCR goes out, although one may be due: the first reason in this order. Nothing changes. Out of memory may be
/// returned in place of the last one but itself.
#[derive(Clone, Copy, Debug, PartialEq, Eq, Error)]
pub enum NextRefusal {
    /// The handle has no dialogue.
    #[error("there is no dialogue")]
    NoDialogue,
    /// The session's handle has another session than the dialogue, or none any more.
    #[error("the session is another one")]
    OtherSession,
    /// Reports were forgotten before they were told.
    #[error("a report that is to be told is forgotten")]
    Forgotten,
    /// No CC-Request-Number is left.
    #[error("no request number is left")]
    NoNumber,
    /// There is no memory left.
    #[error("there is no memory left")]
    NoMemory,
}

/// What the next CCR tells of the reports of a session.
fn update_in(
    alloc: Global,
    session: &OpenSession,
    told: u64,
    watches_loss: bool,
) -> Result<Update, NextRefusal>
    ensures { TellsNext session.now told watches_loss result }
{
    let journal = session.world.session().journal();
    if told < journal.forgotten() {
        return Err(NextRefusal::Forgotten);
    }
    match next_update(alloc, journal, told, watches_loss) {
        Ok(update) => Ok(update),
        Err(_) => Err(NextRefusal::NoMemory),
    }
}

/// What the last CCR of a session is for: others go before it, where one doesn't tell all that is due.
fn last_kind(journal: &Journal, told: u64) -> RequestKind
    ensures { result ≡ last_kind journal.now.entries told }
{
    if journal.reports_len().saturating_sub(told) > MAX_REPORTS as u64 {
        RequestKind::Update
    } else {
        RequestKind::Termination
    }
}

/// What tells no report.
fn no_reports(alloc: Global) -> Update
    ensures avps { result.avps.items ≡ [] }
    ensures count { result.count ≡ 0 }
{
    Update {
        avps: Vec::new(alloc),
        count: 0,
    }
}

impl Dialogue {
    /// Sends a CCR with these reports, and with what else is due.
    #[tactic(auto, unfolding(crate::specs::Telling::Sends))]
    fn send(
        &mut self,
        alloc: Global,
        mark: RequestMark,
        kind: RequestKind,
        update: Update,
    ) -> Result<Option<RequestKind>, NextRefusal>
        requires { self.old.ccrs.out ≡ None }
        ensures { Sends mark kind update.avps.items update.count self.old result self.new }
    {
        let mut whole = update;
        let Ok(()) = whole.avps.extend_from_slice(&self.due) else {
            return Err(NextRefusal::NoMemory);
        };
        let due = self.due.len();
        let identity = self.responder.party().identity();
        match self.ccrs.send(alloc, &identity, mark, kind, &whole) {
            Ok(()) => {
                self.due_out = due;
                Ok(Some(kind))
            }
            Err(SendRefusal::IsOut) => unreachable!(),
            Err(SendRefusal::NoNumber) => Err(NextRefusal::NoNumber),
            Err(SendRefusal::NoMemory) => Err(NextRefusal::NoMemory),
        }
    }

    /// Sends a CCR-U, where there is anything to tell.
    fn send_update(
        &mut self,
        alloc: Global,
        mark: RequestMark,
        update: Update,
    ) -> Result<Option<RequestKind>, NextRefusal>
        requires { self.old.ccrs.out ≡ None }
        ensures { SendsUpdate mark update.avps.items update.count self.old result self.new }
    {
        if update.count == 0 && self.due.is_empty() {
            return Ok(None);
        }
        self.send(alloc, mark, RequestKind::Update, update)
    }

    /// Sends the CCR-U of a session, where there is anything to tell.
    fn update(
        &mut self,
        alloc: Global,
        session: &OpenSession,
        mark: RequestMark,
    ) -> Result<Option<RequestKind>, NextRefusal>
        requires { self.old.ccrs.out ≡ None }
        ensures { IfKept self.old session.now (Updates mark self.old session.now) result self.new }
    {
        match update_in(alloc, session, self.ccrs.told(), self.watches_loss) {
            Ok(update) => self.send_update(alloc, mark, update),
            Err(refusal) => Err(refusal),
        }
    }

    /// Sends the CCR-U of the session that is there.
    fn update_at(
        &mut self,
        alloc: Global,
        session: &Option<OpenSession>,
        mark: RequestMark,
    ) -> Result<Option<RequestKind>, NextRefusal>
        requires { self.old.ccrs.out ≡ None }
        ensures { UpdatesAt (place_of self.old.session session.now) mark self.old result self.new }
    {
        match (self.session, session) {
            (Some(number), Some(session)) if session.number == number => {
                self.update(alloc, session, mark)
            }
            _ => Err(NextRefusal::OtherSession),
        }
    }

    /// Sends the last CCR of a session, or one before it.
    fn last(
        &mut self,
        alloc: Global,
        session: &OpenSession,
        mark: RequestMark,
    ) -> Result<Option<RequestKind>, NextRefusal>
        requires { self.old.ccrs.out ≡ None }
        ensures { IfKept self.old session.now (Ends mark self.old session.now) result self.new }
    {
        let told = self.ccrs.told();
        match update_in(alloc, session, told, self.watches_loss) {
            Ok(update) => {
                let kind = last_kind(session.world.session().journal(), told);
                self.send(alloc, mark, kind, update)
            }
            Err(refusal) => Err(refusal),
        }
    }

    /// Sends the last CCR, or one before it.
    fn last_at(
        &mut self,
        alloc: Global,
        session: &Option<OpenSession>,
        mark: RequestMark,
    ) -> Result<Option<RequestKind>, NextRefusal>
        requires { self.old.ccrs.out ≡ None }
        ensures { EndsBy self.old.session mark self.old session.now result self.new }
    {
        match (self.session, session) {
            (None, _) => self.send(alloc, mark, RequestKind::Termination, no_reports(alloc)),
            (Some(number), Some(session)) if session.number == number => {
                self.last(alloc, session, mark)
            }
            _ => Err(NextRefusal::OtherSession),
        }
    }

    /// Whether a CCR is out. Takes no memory.
    pub fn is_out(&self) -> bool
        ensures { result ≡ is_some self.now.ccrs.out }
    {
        match self.ccrs.kind() {
            Some(_) => true,
            None => false,
        }
    }

    /// Sends the CCR that is due.
    fn next(
        &mut self,
        alloc: Global,
        session: &Option<OpenSession>,
        mark: RequestMark,
    ) -> Result<Option<RequestKind>, NextRefusal>
        ensures { NextBy (is_some self.old.ccrs.out) mark self.old session.now result self.new }
    {
        if self.is_out() {
            return Ok(None);
        }
        match self.stage {
            Stage::Opening => self.send(alloc, mark, RequestKind::Initial, no_reports(alloc)),
            Stage::Open => self.update_at(alloc, session, mark),
            Stage::Ending => self.last_at(alloc, session, mark),
            Stage::Over => Ok(None),
        }
    }

    /// Marks the CCR that is out, if one is, as one that may have been sent before: the same octets with the T bit.
    fn send_again(&mut self)
        ensures { self.new ≡ again self.old }
    {
        self.ccrs.send_again();
    }

    /// Gives up the CCR that is out, if one is.
    fn give_up(&mut self)
        ensures { self.new ≡ forgone self.old }
    {
        self.ccrs.give_up();
        self.due_out = 0;
    }
}

impl GxHandle {
    /// Sends the CCR that is due, where none is out: [`Dialogue::request`] has its octets, with these identifiers. First
    /// a CCR-I, that proposes the session; then a CCR-U whenever the session, at the handle, has reports that aren't
    /// told, or rules of an answer couldn't be had; once it has ended, a CCR-T with the last usage. Returns what the CCR
    /// is for; none where nothing is due, or where one is out. The host has to send it: what it tells is told once it was
    /// answered with success. Takes memory.
    pub fn next(
        &mut self,
        handle: &Handle,
        mark: RequestMark,
    ) -> Result<Option<RequestKind>, NextRefusal>
        ensures { Next mark self.old.dialogue handle.now.session result self.new.dialogue }
    {
        match &mut self.dialogue {
            Some(dialogue) => dialogue.next(self.alloc, &handle.session, mark),
            None => Err(NextRefusal::NoDialogue),
        }
    }

    /// Marks the CCR that is out as one that may have been sent before, for a host that sends it once more, over another
    /// connection say: the same octets with the T bit (RFC 6733, clause 5.5.4). Whether one is out. Takes no memory.
    pub fn again(&mut self) -> bool
        ensures out { result ≡ out_of self.old.dialogue }
        ensures again { self.new.dialogue ≡ option_map again self.old.dialogue }
    {
        match &mut self.dialogue {
            Some(dialogue) => {
                dialogue.send_again();
                dialogue.is_out()
            }
            None => false,
        }
    }

    /// Gives up the CCR that is out: what it tells stays due, and a late answer to it is dropped. Whether one was out.
    /// Takes no memory.
    pub fn give_up(&mut self) -> bool
        ensures out { result ≡ out_of self.old.dialogue }
        ensures forgone { self.new.dialogue ≡ option_map forgone self.old.dialogue }
    {
        match &mut self.dialogue {
            Some(dialogue) => {
                let out = dialogue.is_out();
                dialogue.give_up();
                out
            }
            None => false,
        }
    }
}
