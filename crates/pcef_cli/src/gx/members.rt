//! The sessions of a connection.

use crate::gx::end::Stop;
use crate::gx::member::{Effect, Member};
use pcef_gx_handle::Stage;
use pcef_gx_messages::RequestMark;
use pcef_gx_node::Numbering;
use std::alloc::Global;
use std::io::Write;

/// How many first CCRs are out at a time: the others wait, so that a peer that reads slowly isn't overrun.
const MAX_OPENING: usize = 32;

/// What is to be said of a session: its number, from 1 on, and what became of it.
#[derive(Clone, Copy)]
pub(crate) struct Note {
    pub session: usize,
    pub effect: Effect,
}

/// The sessions of a connection.
#[derive(Drop)]
pub(crate) struct Members {
    all: Vec<Member>,
    /// How many first CCRs went out.
    begun: usize,
    /// How many of these are answered.
    answered: usize,
    /// How many sessions have ended.
    over: usize,
    notes: Vec<Note>,
}

/// Writes a message, and flushes it.
pub(crate) fn put<W: Write>(writer: &mut W, octets: &[u8]) -> Result<(), Stop> {
    match writer.write_all(octets) {
        Ok(()) => {}
        Err(_) => return Err(Stop::Write),
    }
    match writer.flush() {
        Ok(()) => Ok(()),
        Err(_) => Err(Stop::Write),
    }
}

/// Sends the CCR of a session that is due.
fn tell<W: Write>(
    member: &mut Member,
    numbering: &mut Numbering,
    writer: &mut W,
) -> Result<(), Stop> {
    let mut next = *numbering;
    let identifiers = next.identifiers();
    let mark = RequestMark {
        hop_by_hop: identifiers.hop_by_hop,
        end_to_end: identifiers.end_to_end,
        retransmitted: false,
    };
    // One CCR is out at a time, so behind this one none is due.
    if member.next(mark)? {
        *numbering = next;
        put(writer, member.request())?;
    }
    Ok(())
}

impl Members {
    /// Sessions of which none has begun. Takes no memory.
    pub(crate) fn new(alloc: Global, all: Vec<Member>) -> Members {
        Members {
            all,
            begun: 0,
            answered: 0,
            over: 0,
            notes: Vec::new(alloc),
        }
    }

    /// How many there are.
    pub(crate) fn len(&self) -> usize {
        self.all.len()
    }

    /// Whether each first CCR was answered.
    pub(crate) fn are_answered(&self) -> bool {
        self.answered >= self.all.len()
    }

    /// Whether all have ended.
    pub(crate) fn are_over(&self) -> bool {
        self.over >= self.all.len()
    }

    /// Takes what is to be said of a session.
    pub(crate) fn take_note(&mut self) -> Option<Note> {
        if self.notes.is_empty() {
            return None;
        }
        Some(self.notes.remove(0))
    }

    /// The place of the session with this Session-Id.
    pub(crate) fn place_of(&self, session_id: &[u8]) -> Option<usize> {
        self.all.iter().position(|member| member.is(session_id))
    }

    /// The place of the session whose CCR that is out has these identifiers.
    pub(crate) fn place_out(&self, identifiers: &[u8]) -> Option<usize> {
        self.all
            .iter()
            .position(|member| member.has_out(identifiers))
    }

    /// Takes note of where a session stands that stood elsewhere.
    fn count(&mut self, was: Stage, stage: Stage) {
        if was == Stage::Opening && stage != Stage::Opening {
            self.answered = self.answered.saturating_add(1);
        }
        if was != Stage::Over && stage == Stage::Over {
            self.over = self.over.saturating_add(1);
        }
    }

    /// Opens sessions until as many are opening as may be.
    pub(crate) fn open_more<W: Write>(
        &mut self,
        numbering: &mut Numbering,
        writer: &mut W,
    ) -> Result<(), Stop> {
        for _ in 0..MAX_OPENING {
            if self.begun.saturating_sub(self.answered) >= MAX_OPENING {
                break;
            }
            let Some(member) = self.all.get_mut(self.begun) else {
                break;
            };
            tell(member, numbering, writer)?;
            self.begun = self.begun.saturating_add(1);
        }
        Ok(())
    }

    /// Sends each CCR that is due of the sessions that have begun.
    pub(crate) fn tell_all<W: Write>(
        &mut self,
        numbering: &mut Numbering,
        writer: &mut W,
    ) -> Result<(), Stop> {
        let begun = self.begun;
        for member in self.all.iter_mut().take(begun) {
            tell(member, numbering, writer)?;
        }
        Ok(())
    }

    /// Hands a message to a session, sends its answer, and then the CCR that is due: one that failed isn't sent anew at
    /// once.
    pub(crate) fn hear<W: Write>(
        &mut self,
        alloc: Global,
        place: usize,
        message: &[u8],
        numbering: &mut Numbering,
        writer: &mut W,
    ) -> Result<(), Stop> {
        let Some(member) = self.all.get_mut(place) else {
            return Ok(());
        };
        let was = member.stage();
        let effect = member.hear(alloc, message)?;
        if effect == Effect::Answered {
            put(writer, member.reply())?;
        }
        if !matches!(effect, Effect::Failed(_)) {
            tell(member, numbering, writer)?;
        }
        let stage = member.stage();
        if matches!(effect, Effect::Refused(_) | Effect::NotOpened(_)) {
            let session = place.saturating_add(1);
            if self.notes.push(Note { session, effect }).is_err() {
                return Err(Stop::NoMemory);
            }
        }
        self.count(was, stage);
        self.open_more(numbering, writer)
    }

    /// Does a line of a session, and sends the CCR that is due; the answer where it is at fault.
    pub(crate) fn take_line<W: Write>(
        &mut self,
        alloc: Global,
        place: usize,
        line: &[u8],
        numbering: &mut Numbering,
        writer: &mut W,
    ) -> Result<Option<Vec<u8>>, Stop> {
        let Some(member) = self.all.get_mut(place) else {
            return Ok(None);
        };
        let was = member.stage();
        let answer = member.line(alloc, line)?;
        tell(member, numbering, writer)?;
        let stage = member.stage();
        self.count(was, stage);
        Ok(answer)
    }
}
