//! The end of a session, and the events of its access.

ghost use Rattle.std.specs.Prelude.{◌≡◌, Some};
ghost use Rattle.pcef_gx.specs.Names.{name_of};
ghost use Rattle.pcef_gx_handle.specs.Dialogues.{place_of};
ghost use Rattle.pcef_gx_handle.specs.Ending.{Commands, EndsAt, EndsBy, EndsGx, EndsIn, Notices, NoticesIn, ended_by, noticed_by};

use crate::held::{Dialogue, GxHandle, Stage};
use pcef_gx::name_of;
use pcef_gx_orders::command;
use pcef_handle::{Handle, OpenSession};
use pcef_model::{Accepted, AccessKind, Command, NoticeValue, Refusal};
use thiserror::Error;

/// Why a session isn't ended: the first reason in this order. Nothing changes.
#[derive(Clone, Copy, Debug, PartialEq, Eq, Error)]
pub enum EndRefusal {
    /// The handle has no dialogue.
    #[error("there is no dialogue")]
    NoDialogue,
    /// The session's handle has another session than the dialogue, or none any more.
    #[error("the session is another one")]
    OtherSession,
    /// Workers are attached to the session: each finishes first, so that its last packets count.
    #[error("workers are still attached")]
    WorkersAttached,
    /// There is no memory left.
    #[error("there is no memory left")]
    NoMemory,
}

/// Why an event isn't noticed: the first reason in this order. Nothing changes.
#[derive(Clone, Copy, Debug, PartialEq, Eq, Error)]
pub enum NoticeRefusal {
    /// The handle has no session.
    #[error("the handle has no session")]
    NoSession,
    /// The data are empty, or too many: as a name they would have more than 64 characters.
    #[error("the data of the event are empty or too long")]
    NoValue,
    /// The session refuses.
    #[error("the session refuses the event")]
    Session(Refusal),
}

/// Does a command of a session.
fn command_in(session: &mut OpenSession, asked: Command) -> Result<Accepted, Refusal>
    ensures { Commands asked session.old result session.new }
{
    command(&session.catalog, &mut session.world, asked)
}

/// What the answer to a Terminate is for a dialogue.
fn ended_by(answer: Result<Accepted, Refusal>) -> Result<(), EndRefusal>
    ensures { result ≡ ended_by answer }
{
    match answer {
        Ok(_) | Err(Refusal::Terminated) => Ok(()),
        Err(Refusal::WorkersAttached(_)) => Err(EndRefusal::WorkersAttached),
        Err(_) => Err(EndRefusal::NoMemory),
    }
}

/// What the answer to a Notice is.
fn noticed_by(answer: Result<Accepted, Refusal>) -> Result<(), NoticeRefusal>
    ensures { result ≡ noticed_by answer }
{
    match answer {
        Ok(_) => Ok(()),
        Err(refusal) => Err(NoticeRefusal::Session(refusal)),
    }
}

impl Dialogue {
    /// Terminates the session.
    fn end_in(&mut self, session: &mut OpenSession) -> Result<(), EndRefusal>
        ensures { EndsIn self.old session.old result self.new (Some session.new) }
    {
        let result = ended_by(command_in(session, Command::Terminate));
        if result.is_ok() {
            self.stage = Stage::Ending;
        }
        result
    }

    /// Terminates the session that is there.
    fn end_at(&mut self, session: &mut Option<OpenSession>) -> Result<(), EndRefusal>
        ensures { EndsAt (place_of self.old.session session.old) self.old session.old result self.new session.new }
    {
        match (self.session, session) {
            (Some(number), Some(session)) if session.number == number => self.end_in(session),
            _ => Err(EndRefusal::OtherSession),
        }
    }

    /// Ends the session.
    fn end(&mut self, session: &mut Option<OpenSession>) -> Result<(), EndRefusal>
        ensures { EndsBy self.old.stage self.old session.old result self.new session.new }
    {
        match self.stage {
            Stage::Opening => {
                self.stage = Stage::Ending;
                self.due.clear();
                self.due_out = 0;
                Ok(())
            }
            Stage::Open => self.end_at(session),
            Stage::Ending | Stage::Over => Ok(()),
        }
    }
}

impl GxHandle {
    /// Ends the session at a handle: the user left, or the PCRF wants it. It is terminated, and the CCR-T that is due
    /// from then on has its last usage (TS 29.212, clause 4.5.7). Where the PCRF hasn't granted the session yet, a CCR-T
    /// is due all the same. One that has ended stays so. Takes memory for the last reports.
    pub fn end(&mut self, handle: &mut Handle) -> Result<(), EndRefusal>
        ensures dialogue { EndsGx self.old.dialogue handle.old.session result self.new.dialogue handle.new.session }
        ensures number { handle.new.next_number ≡ handle.old.next_number }
    {
        match &mut self.dialogue {
            Some(dialogue) => dialogue.end(&mut handle.session),
            None => Err(EndRefusal::NoDialogue),
        }
    }
}

/// Notices an event in a session.
fn notice_in(
    session: &mut OpenSession,
    kind: AccessKind,
    value: Option<NoticeValue>,
) -> Result<(), NoticeRefusal>
    ensures { NoticesIn kind value session.old result (Some session.new) }
{
    match value {
        Some(value) => noticed_by(command_in(session, Command::Notice { kind, value })),
        None => Err(NoticeRefusal::NoValue),
    }
}

/// Notices that the access of the session at a handle changed: the data are those of the AVP that tells so, RAT-Type,
/// 3GPP-SGSN-MCC-MNC, 3GPP-User-Location-Info or 3GPP-MS-TimeZone, which a CCR-U has where the PCRF subscribed to the
/// event (TS 29.212, clauses 4.5.3 and 5.3.7). Takes memory for the report.
pub fn notice(handle: &mut Handle, kind: AccessKind, octets: &[u8]) -> Result<(), NoticeRefusal>
    ensures session { Notices kind octets.now handle.old.session result handle.new.session }
    ensures number { handle.new.next_number ≡ handle.old.next_number }
{
    match &mut handle.session {
        Some(session) => notice_in(session, kind, name_of(octets)),
        None => Err(NoticeRefusal::NoSession),
    }
}
