//! The answers to the RARs of one session, of which the last one is remembered.

ghost use Rattle.std.specs.Prelude.{◌≡◌, ◌<◌, ◌≤◌, ◌^◌, IfErr, IfOk, None, Some, length, option_map, true};
ghost use Rattle.pcef_gx_dialogue.specs.Repeats.{AnswersOnce, AnswersUnknown, is_from, is_last, origin_of, repeated};
ghost use Rattle.pcef_gx_dialogue.specs.private.Lasts.{last_of};

use crate::answering::{LeftToHost, answer_rar, answer_unknown};
use crate::asking::data_in;
use crate::party::Party;
use pcef_catalog::Detects;
use pcef_diameter::MessageHeader;
use pcef_gx::code::ORIGIN_HOST;
use pcef_gx_messages::Answer;
use pcef_world::WorldState;
use std::alloc::{AllocError, Global};
use std::marker::Model;

/// What was done for a RAR.
#[derive(Drop)]
pub enum RarDone {
    /// It was answered before, and is answered again: nothing was done.
    Repeated,
    /// It was answered.
    Done(LeftToHost),
}

/// A RAR that was answered: its End-to-End Identifier, its Origin-Host, and the answer.
#[derive(Drop)]
struct Kept {
    end_to_end: u32,
    origin: Option<Vec<u8>>,
    answer: Answer,
}

/// The answers to the RARs of one session: who speaks, and the last RAR with its answer. Contracts see both.
#[derive(Drop)]
pub struct Responder {
    party: Party,
    last: Option<Kept>,
}

impl Model for Responder {
    ghost use Rattle.pcef_gx_dialogue.specs.Repeats.{Answering};
    ghost use Rattle.pcef_gx_dialogue.specs.private.Lasts.{answering_of};

    ghost Value = { Answering };

    ghost view = { answering_of };
}

/// The Origin-Host of a message, where its AVPs can be read.
fn origin_of(alloc: Global, message: &[u8]) -> Result<Option<Vec<u8>>, AllocError>
    requires { 20 ≤ length message.now }
    ensures { IfOk result (λ origin. option_map (λ o. o.items) origin ≡ origin_of message.now) }
{
    match data_in(alloc, ORIGIN_HOST, message)? {
        Some(host) => Ok(Some(Vec::from_slice(alloc, host)?)),
        None => Ok(None),
    }
}

impl Kept {
    /// Whether a message is this RAR.
    fn is_of(&self, header: &MessageHeader, origin: &Option<Vec<u8>>) -> bool
        ensures { result ≡ is_from (last_of self.now) header.now (option_map (λ o. o.items) origin.now) }
    {
        match (&self.origin, origin) {
            (Some(mine), Some(theirs)) => {
                self.end_to_end == header.end_to_end && mine.as_slice() == theirs.as_slice()
            }
            _ => false,
        }
    }
}

impl Responder {
    /// One that has answered nothing yet. Takes no memory.
    pub fn new(party: Party) -> Responder
        ensures { result ≡ record { speaker = party; last = None } }
    {
        Responder { party, last: None }
    }

    /// Who speaks. Takes no memory.
    pub fn party(&self) -> &Party
        ensures { result.now ≡ self.now.speaker }
    {
        &self.party
    }

    /// The answer to the last RAR, in octets. Takes no memory.
    pub fn reply(&self) -> Option<&[u8]>
        ensures { option_map (λ octets. octets.now) result
            ≡ option_map (λ last. last.answer.message) self.now.last }
    {
        match &self.last {
            Some(last) => Some(last.answer.octets()),
            None => None,
        }
    }

    /// Whether a message from there is the RAR that was answered last.
    fn is_last(&self, header: &MessageHeader, origin: &Option<Vec<u8>>) -> bool
        ensures { result ≡ is_last self.now.last header.now (option_map (λ o. o.items) origin.now) }
    {
        match &self.last {
            Some(last) => last.is_of(header, origin),
            None => false,
        }
    }

    /// Answers the RAR that was answered last again.
    fn repeat(&mut self, header: &MessageHeader)
        requires { header.now.command < 2 ^ 24 }
        ensures speaker { self.new.speaker ≡ self.old.speaker }
        ensures last { self.new.last ≡ option_map (repeated header.now) self.old.last }
    {
        if let Some(last) = &mut self.last {
            last.answer.repeat(header);
        }
    }

    /// Remembers the answer to a RAR from there.
    fn remember(&mut self, header: &MessageHeader, origin: Option<Vec<u8>>, answer: Answer)
        ensures speaker { self.new.speaker ≡ self.old.speaker }
        ensures last { self.new.last ≡ Some (record {
          end_to_end = header.now.end_to_end;
          origin = option_map (λ o. o.items) origin;
          answer = answer;
        }) }
    {
        self.last = Some(Kept {
            end_to_end: header.end_to_end,
            origin,
            answer,
        });
    }

    /// Answers a RAR with this header, as [`answer_rar`]; the answer stays for [`Responder::reply`]. A RAR that was
    /// answered last, by its End-to-End Identifier and its Origin-Host, is answered again, with the identifiers that it
    /// has now, and nothing is done (RFC 6733, clause 5.5.4). Takes memory before anything is done: an `Err` is its
    /// want, and nothing has changed.
    #[tactic(auto, unfolding(crate::specs::Repeats::AnswersOnce))]
    pub fn rar<C: Detects>(
        &mut self,
        alloc: Global,
        catalog: &C,
        world: &mut WorldState,
        header: &MessageHeader,
        message: &[u8],
    ) -> Result<RarDone, AllocError>
        requires offered { C.offers catalog.now ≡ world.old.session.setting.catalog }
        requires request { header.now.request ≡ true }
        requires command { header.now.command < 2 ^ 24 }
        requires whole { 20 ≤ length message.now }
        ensures answer { IfOk result (λ done.
            AnswersOnce header.now message.now self.old world.old done self.new world.new) }
        ensures lacks { IfErr result (λ _. self.new ≡ self.old) }
        ensures world { IfErr result (λ _. world.new ≡ world.old) }
        ensures workers { world.new.workers ≡ world.old.workers }
        ensures setting { world.new.session.setting ≡ world.old.session.setting }
        ensures forgotten { world.new.session.forgotten ≡ world.old.session.forgotten }
    {
        let origin = origin_of(alloc, message)?;
        if self.is_last(header, &origin) {
            self.repeat(header);
            return Ok(RarDone::Repeated);
        }
        let done = answer_rar(
            alloc,
            catalog,
            world,
            &self.party.identity(),
            header,
            message,
        )?;
        self.remember(header, origin, done.answer);
        Ok(RarDone::Done(done.left))
    }

    /// Answers a RAR with this header where there is no session: it is refused by the first reason of
    /// [`crate::read_request`], or by DIAMETER_UNKNOWN_SESSION_ID. The answer stays for [`Responder::reply`], and one that
    /// comes again is answered again, as by [`Responder::rar`]. Takes memory; an `Err` is its want, and nothing has
    /// changed.
    #[tactic(auto, unfolding(crate::specs::Repeats::AnswersUnknown))]
    pub fn unknown(
        &mut self,
        alloc: Global,
        header: &MessageHeader,
        message: &[u8],
    ) -> Result<(), AllocError>
        requires request { header.now.request ≡ true }
        requires command { header.now.command < 2 ^ 24 }
        requires whole { 20 ≤ length message.now }
        ensures answer { IfOk result (λ _. AnswersUnknown header.now message.now self.old self.new) }
        ensures lacks { IfErr result (λ _. self.new ≡ self.old) }
    {
        let origin = origin_of(alloc, message)?;
        if self.is_last(header, &origin) {
            self.repeat(header);
            return Ok(());
        }
        let answer = answer_unknown(alloc, &self.party.identity(), header, message)?;
        self.remember(header, origin, answer);
        Ok(())
    }
}
