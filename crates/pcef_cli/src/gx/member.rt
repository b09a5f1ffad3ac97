//! A session, and its dialogue with the PCRF.

use crate::gx::end::Stop;
use crate::gx::lines::is_end;
use crate::gx::naming::NO_SESSION;
use pcef_gx_dialogue::{LeftToHost, RarDone};
use pcef_gx_handle::{EndRefusal, GxHandle, HearRefusal, Heard, NextRefusal, Stage};
use pcef_gx_messages::RequestMark;
use pcef_handle::{CallRefusal, Handle};
use pcef_model::OpenFault;
use std::alloc::Global;

/// The front of the answer to a line at fault.
const AT_FAULT: &[u8] = b"{\"fault\":";

/// The most octets of an answer that are looked at: more than one to a line at fault has.
const MAX_ANSWER: usize = 256;

/// The most workers of a session.
const WORKERS: u8 = 16;

/// A session, and its dialogue.
#[derive(Drop)]
pub(crate) struct Member {
    session_id: Vec<u8>,
    gx: GxHandle,
    handle: Handle,
}

/// What a message did.
#[derive(Clone, Copy, Debug, PartialEq, Eq)]
pub(crate) enum Effect {
    /// It was answered.
    Answered,
    /// It told what became of a CCR, or nothing.
    Told,
    /// The CCR failed, with this Result-Code where it has one: it isn't sent anew at once.
    Failed(Option<u32>),
    /// The PCRF refuses the session, with this Result-Code where it says one.
    Refused(Option<u32>),
    /// No session can have what the PCRF wants.
    NotOpened(OpenFault),
}

/// Whether the PCRF ends the session.
fn is_released(left: &LeftToHost) -> bool {
    left.release.is_some()
}

/// What a message did, and whether it ends the session.
fn effect_of(heard: &Heard, is_over: bool) -> (Effect, bool) {
    match heard {
        Heard::Answered(RarDone::Done(left)) => (Effect::Answered, is_released(left)),
        Heard::Answered(RarDone::Repeated) | Heard::Refused => (Effect::Answered, false),
        Heard::Told(_, left) => (Effect::Told, is_released(left)),
        Heard::Ended => (Effect::Told, false),
        Heard::NotOpened(fault) => (Effect::NotOpened(*fault), false),
        Heard::Failed(code) if is_over => (Effect::Refused(*code), false),
        Heard::Failed(code) => (Effect::Failed(*code), false),
    }
}

impl Member {
    /// A dialogue that has begun, and its session, which isn't open.
    pub(crate) fn new(session_id: Vec<u8>, gx: GxHandle, handle: Handle) -> Member {
        Member {
            session_id,
            gx,
            handle,
        }
    }

    /// Whether the CCR that is out has these identifiers, the octets 12 to 19 of a message.
    pub(crate) fn has_out(&self, identifiers: &[u8]) -> bool {
        match self.request().get(12..20) {
            Some(octets) => octets == identifiers,
            None => false,
        }
    }

    /// Whether it has this Session-Id.
    pub(crate) fn is(&self, session_id: &[u8]) -> bool {
        self.session_id.as_slice() == session_id
    }

    /// Where the dialogue stands.
    pub(crate) fn stage(&self) -> Stage {
        match &self.gx.dialogue {
            Some(dialogue) => dialogue.stage(),
            None => Stage::Over,
        }
    }

    /// The answer to the last request.
    pub(crate) fn reply(&self) -> &[u8] {
        match &self.gx.dialogue {
            Some(dialogue) => dialogue.reply().unwrap_or(&[]),
            None => &[],
        }
    }

    /// The CCR that is out.
    pub(crate) fn request(&self) -> &[u8] {
        match &self.gx.dialogue {
            Some(dialogue) => dialogue.request().unwrap_or(&[]),
            None => &[],
        }
    }

    /// Hears a message. An answer to no CCR that is out, or at fault, is dropped. Where the PCRF ends the session, it
    /// is ended.
    pub(crate) fn hear(&mut self, alloc: Global, message: &[u8]) -> Result<Effect, Stop> {
        let was_opening = self.stage() == Stage::Opening;
        match self.gx.hear(&mut self.handle, message) {
            Ok(heard) => {
                let is_over = was_opening && self.stage() == Stage::Over;
                let (effect, is_released) = effect_of(&heard, is_over);
                if is_released {
                    self.end(alloc)?;
                }
                Ok(effect)
            }
            Err(HearRefusal::NoMemory) => Err(Stop::NoMemory),
            Err(_) => Ok(Effect::Told),
        }
    }

    /// Ends the session, where no worker is attached; whether one is.
    fn end_alone(&mut self) -> Result<bool, Stop> {
        match self.gx.end(&mut self.handle) {
            Err(EndRefusal::NoMemory) => Err(Stop::NoMemory),
            Err(EndRefusal::WorkersAttached) => Ok(true),
            _ => Ok(false),
        }
    }

    /// Lets each worker go by a line with this word. One that isn't attached is refused.
    fn let_go(&mut self, alloc: Global, word: &str) -> Result<(), Stop> {
        for worker in 0..WORKERS {
            let Ok(line) = format!(in alloc; "{{\"do\":\"{word}\",\"worker\":{worker}}}") else {
                return Err(Stop::NoMemory);
            };
            if let Err(CallRefusal::NoMemory) = self.handle.line(line.as_bytes(), &mut []) {
                return Err(Stop::NoMemory);
            }
        }
        Ok(())
    }

    /// Ends the session. Its workers finish first, so that their last packets count; one that has no room for its rows
    /// is abandoned.
    pub(crate) fn end(&mut self, alloc: Global) -> Result<(), Stop> {
        for word in ["finish", "abandon"] {
            if !self.end_alone()? {
                return Ok(());
            }
            self.let_go(alloc, word)?;
        }
        self.end_alone()?;
        Ok(())
    }

    /// Does a line, or ends the session by `end`; the answer where it is at fault, or where there is no session.
    pub(crate) fn line(&mut self, alloc: Global, line: &[u8]) -> Result<Option<Vec<u8>>, Stop> {
        let mut buffer = [0u8; MAX_ANSWER];
        let answer = match self.handle.line(line, &mut buffer) {
            Ok(len) => &buffer[..len.min(MAX_ANSWER)],
            Err(CallRefusal::NoMemory) => return Err(Stop::NoMemory),
            Err(_) => NO_SESSION,
        };
        if answer != NO_SESSION && !answer.starts_with(AT_FAULT) {
            return Ok(None);
        }
        match is_end(alloc, line) {
            Ok(true) => {
                self.end(alloc)?;
                Ok(None)
            }
            Ok(false) => match Vec::from_slice(alloc, answer) {
                Ok(answer) => Ok(Some(answer)),
                Err(_) => Err(Stop::NoMemory),
            },
            Err(_) => Err(Stop::NoMemory),
        }
    }

    /// Whether a CCR goes out that has this mark: [`Member::request`] has its octets.
    pub(crate) fn next(&mut self, mark: RequestMark) -> Result<bool, Stop> {
        match self.gx.next(&self.handle, mark) {
            Ok(kind) => Ok(kind.is_some()),
            Err(NextRefusal::NoMemory) => Err(Stop::NoMemory),
            Err(NextRefusal::Forgotten) => Err(Stop::Forgotten),
            Err(NextRefusal::NoNumber) => Err(Stop::NoNumber),
            Err(NextRefusal::NoDialogue | NextRefusal::OtherSession) => Ok(false),
        }
    }
}
