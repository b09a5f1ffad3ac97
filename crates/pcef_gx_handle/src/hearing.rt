//! Hears a message of the PCRF.

ghost use Rattle.std.specs.Prelude.{◌≡◌, ◌<◌, ◌≤◌, ◌^◌, Some, length, true};
ghost use Rattle.pcef_gx_handle.specs.Hearing.{Hears, HearsBy, HearsIn, HearsNowhere, HearsRequest};

use crate::beside::{append, kept_told, qos_asked, told_if, watches_behind};
use crate::held::{Dialogue, GxHandle};
use pcef_diameter::{MessageHeader, read_message_header};
use pcef_gx::Problem;
use pcef_gx_dialogue::{Grant, LeftToHost, RarDone};
use pcef_handle::{Handle, OpenSession};
use pcef_model::OpenFault;
use std::alloc::Global;
use thiserror::Error;

/// What a message said.
#[derive(Drop)]
pub enum Heard {
    /// A request was answered: [`Dialogue::reply`] is the answer. One that came again was answered again.
    Answered(RarDone),
    /// A request was refused, for there is no session: [`Dialogue::reply`] is the answer.
    Refused,
    /// The CCR that was out succeeded, and the orders of its answer were done on the session: the first answer opened
    /// it.
    Told(Grant, LeftToHost),
    /// The CCR that was out succeeded. The session has ended, so its answer asks nothing of it.
    Ended,
    /// The CCR that was out succeeded, and no session can have the QoS that the PCRF wants: a CCR-T is due.
    NotOpened(OpenFault),
    /// The CCR that was out failed, with this Result-Code where it has one: what it told stays due. The first one is
    /// not sent again: the PCRF wants no session.
    Failed(Option<u32>),
}

/// Why a message isn't heard: the first reason in this order. Nothing changes. Out of memory may be returned in place of
/// the last two, and nothing has changed then, so that the message can be heard again.
#[derive(Clone, Copy, Debug, PartialEq, Eq, Error)]
pub enum HearRefusal {
    /// The handle has no dialogue.
    #[error("there is no dialogue")]
    NoDialogue,
    /// Fewer than 20 octets are no message.
    #[error("a message has at least 20 octets")]
    NoMessage,
    /// It is no answer to the CCR that is out: it is dropped.
    #[error("the answer is no answer to the request that is out")]
    NotOurs,
    /// An AVP of the answer is at fault: it is dropped.
    #[error("the answer is at fault")]
    AtFault(Problem),
    /// The session's handle has another session than the dialogue, or none any more.
    #[error("the session is another one")]
    OtherSession,
    /// The session's handle has a session before the dialogue has opened one.
    #[error("the handle has a session already")]
    AlreadyOpen,
    /// There is no memory left.
    #[error("there is no memory left")]
    NoMemory,
}

impl Dialogue {
    /// Answers a request in its session.
    fn answer_in(
        &mut self,
        alloc: Global,
        session: &mut OpenSession,
        header: &MessageHeader,
        message: &[u8],
    ) -> Result<Heard, HearRefusal>
        requires request { header.now.request ≡ true }
        requires command { header.now.command < 2 ^ 24 }
        requires whole { 20 ≤ length message.now }
        ensures { HearsIn header.now message.now self.old session.old result self.new (Some session.new) }
    {
        let qos = self.profile.default_qos;
        let Ok(kept) = kept_told(alloc, qos) else {
            return Err(HearRefusal::NoMemory);
        };
        let Ok(()) = self.due.reserve(kept.len()) else {
            return Err(HearRefusal::NoMemory);
        };
        let Ok(done) = self.responder.rar(
            alloc,
            &session.catalog,
            &mut session.world,
            header,
            message,
        )
        else {
            return Err(HearRefusal::NoMemory);
        };
        let asked = qos_asked(&done);
        append(&mut self.due, told_if(&asked, &qos, &kept));
        self.watches_loss = watches_behind(&done, self.watches_loss);
        Ok(Heard::Answered(done))
    }

    /// Answers a request where there is no session.
    fn answer_nowhere(
        &mut self,
        alloc: Global,
        header: &MessageHeader,
        message: &[u8],
    ) -> Result<Heard, HearRefusal>
        requires request { header.now.request ≡ true }
        requires command { header.now.command < 2 ^ 24 }
        requires whole { 20 ≤ length message.now }
        ensures { HearsNowhere header.now message.now self.old result self.new }
    {
        match self.responder.unknown(alloc, header, message) {
            Ok(()) => Ok(Heard::Refused),
            Err(_) => Err(HearRefusal::NoMemory),
        }
    }

    /// Answers a request.
    fn answer(
        &mut self,
        alloc: Global,
        session: &mut Option<OpenSession>,
        header: &MessageHeader,
        message: &[u8],
    ) -> Result<Heard, HearRefusal>
        requires request { header.now.request ≡ true }
        requires command { header.now.command < 2 ^ 24 }
        requires whole { 20 ≤ length message.now }
        ensures { HearsRequest header.now message.now self.old session.old result self.new session.new }
    {
        match (self.session, session) {
            (Some(number), Some(session)) if session.number == number => {
                self.answer_in(alloc, session, header, message)
            }
            (Some(_), Some(_)) => Err(HearRefusal::OtherSession),
            _ => self.answer_nowhere(alloc, header, message),
        }
    }

    /// Hears a message with this header.
    fn hear(
        &mut self,
        alloc: Global,
        handle: &mut Handle,
        header: &MessageHeader,
        message: &[u8],
    ) -> Result<Heard, HearRefusal>
        requires command { header.now.command < 2 ^ 24 }
        requires whole { 20 ≤ length message.now }
        ensures { HearsBy header.now.request header.now message.now self.old handle.old result self.new handle.new }
    {
        if header.request {
            self.answer(alloc, &mut handle.session, header, message)
        } else {
            self.hear_answer(alloc, handle, header, message)
        }
    }
}

impl GxHandle {
    /// Hears a message of the PCRF, whole as it came, in the session of a handle. A request is answered, once
    /// (TS 29.212, clause 4.5.2): [`Dialogue::reply`]. The answer to the CCR that is out says what became of it; the
    /// first one opens the session at the handle, which has none before, and it gets the handle's next number. What a
    /// message leaves to the host is handed to it: the host watches for events, ends the session where the PCRF says so
    /// ([`GxHandle::end`]), and sends the reply. Takes memory before anything is done: a refusal changes nothing.
    pub fn hear(&mut self, handle: &mut Handle, message: &[u8]) -> Result<Heard, HearRefusal>
        ensures { Hears message.now self.old.dialogue handle.old result self.new.dialogue handle.new }
    {
        let Some(dialogue) = &mut self.dialogue else {
            return Err(HearRefusal::NoDialogue);
        };
        match read_message_header(message) {
            Some(header) => dialogue.hear(self.alloc, handle, &header, message),
            None => Err(HearRefusal::NoMessage),
        }
    }
}
