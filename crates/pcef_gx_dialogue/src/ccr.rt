//! The CCRs of a session: one is out at a time.

ghost use Rattle.std.specs.Prelude.{◌≡◌, ◌≤◌, ◌+◌, IfErr, IfOk, OnErr, OnOk, None, false, length, option_map, true};
ghost use Rattle.pcef_gx_dialogue.specs.Ccas.{has_identifiers};
ghost use Rattle.pcef_gx_dialogue.specs.Ccrs.{RefusesSend, anew, answered_so, at_first, given_up, is_answer, past_of, sent, sent_again, with_t_bit};

use pcef_diameter::MessageHeader;
use pcef_gx_messages::{Identity, RequestKind, RequestMark, request};
use pcef_gx_updates::Update;
use std::alloc::Global;
use std::marker::Model;
use thiserror::Error;

/// Why no CCR goes out. Of several reasons the first in this order is answered.
#[derive(Clone, Copy, Debug, PartialEq, Eq, Error)]
pub enum SendRefusal {
    /// One is out, and not answered yet.
    #[error("a request is out")]
    IsOut,
    /// No number is left for it, or none for the reports that are told.
    #[error("no request number is left")]
    NoNumber,
    /// It would have more than 8,388,607 octets of AVPs, or there is no memory left.
    #[error("there is no memory left")]
    NoMemory,
}

/// A CCR that is out.
#[derive(Drop)]
struct Out {
    kind: RequestKind,
    number: u32,
    hop_by_hop: u32,
    end_to_end: u32,
    past: u64,
    message: Vec<u8>,
}

/// The CCRs of a session. Contracts see the number of the next one, how many reports are told, and the one that is out.
#[derive(Drop)]
pub struct Ccrs {
    next: u32,
    told: u64,
    out: Option<Out>,
}

impl Model for Ccrs {
    ghost use Rattle.std.specs.Prelude.{option_map};
    ghost use Rattle.pcef_gx_dialogue.specs.Ccrs as specs;
    ghost use Rattle.pcef_gx_dialogue.specs.private.Outs.{ccrs_of};

    ghost Value = { specs.Ccrs };

    ghost view = { ccrs_of };
}

impl Ccrs {
    /// None was sent, and nothing is told. Takes no memory.
    pub fn new() -> Ccrs
        ensures { result ≡ at_first }
    {
        Ccrs {
            next: 0,
            told: 0,
            out: None,
        }
    }

    /// How many reports of the session are told: those of the CCRs that were answered with success. Takes no memory.
    pub fn told(&self) -> u64
        ensures { result ≡ self.now.told }
    {
        self.told
    }

    /// How many reports of the session are told once the CCR that is out, if one is, is answered with success. Takes no
    /// memory.
    pub fn past(&self) -> u64
        ensures { result ≡ past_of self.now self.now.out }
    {
        match &self.out {
            Some(out) => out.past,
            None => self.told,
        }
    }

    /// The CCR that is out, in octets. Takes no memory.
    pub fn out(&self) -> Option<&[u8]>
        ensures { option_map (λ octets. octets.now) result
            ≡ option_map (λ o. o.message) self.now.out }
    {
        match &self.out {
            Some(out) => Some(&out.message),
            None => None,
        }
    }

    /// What the CCR that is out is for. Takes no memory.
    pub fn kind(&self) -> Option<RequestKind>
        ensures { result ≡ option_map (λ o. o.kind) self.now.out }
    {
        match &self.out {
            Some(out) => Some(out.kind),
            None => None,
        }
    }

    /// Sends a CCR with these AVPs, where none is out (TS 29.212, clause 5.6.2). Its CC-Request-Number is the next one,
    /// from 0 on, and what it tells isn't told before it was answered. A refusal changes nothing. Takes memory.
    pub fn send(
        &mut self,
        alloc: Global,
        identity: &Identity,
        mark: RequestMark,
        kind: RequestKind,
        update: &Update,
    ) -> Result<(), SendRefusal>
        ensures sent { OnOk result (self.new ≡ sent identity.now mark kind update.now self.old) }
        ensures alone { OnOk result (self.old.out ≡ None) }
        ensures refusal { IfErr result (λ e. RefusesSend e update.now.count self.old) }
        ensures unchanged { OnErr result (self.new ≡ self.old) }
    {
        if self.out.is_some() {
            return Err(SendRefusal::IsOut);
        }
        let Some(next) = self.next.checked_add(1) else {
            return Err(SendRefusal::NoNumber);
        };
        let Some(past) = self.told.checked_add(update.count as u64) else {
            return Err(SendRefusal::NoNumber);
        };
        if update.avps.len() >= 8_388_608 {
            return Err(SendRefusal::NoMemory);
        }
        let Ok(message) = request(alloc, identity, mark, kind, self.next, &update.avps) else {
            return Err(SendRefusal::NoMemory);
        };
        self.out = Some(Out {
            kind,
            number: self.next,
            hop_by_hop: mark.hop_by_hop,
            end_to_end: mark.end_to_end,
            past,
            message,
        });
        self.next = next;
        Ok(())
    }

    /// Marks the CCR that is out, if there is one, as one that may have been sent before: the same octets with the T bit
    /// (RFC 6733, clause 5.5.4). Takes no memory.
    pub fn send_again(&mut self)
        ensures { self.new ≡ sent_again self.old }
    {
        if let Some(out) = &mut self.out {
            set_t_bit(&mut out.message);
        }
    }

    /// Gives the CCR that is out up, if there is one: what it tells stays due. Takes no memory.
    pub fn give_up(&mut self)
        ensures { self.new ≡ given_up self.old }
    {
        self.out = None;
    }

    /// Another journal begins, of which nothing is told: what the CCR that is out tells, if one is, was told of the one
    /// before. Takes no memory.
    pub fn begin_anew(&mut self)
        ensures { self.new ≡ anew self.old }
    {
        self.told = 0;
        if let Some(out) = &mut self.out {
            out.past = 0;
        }
    }

    /// Whether an answer with this CC-Request-Type and CC-Request-Number is one to the CCR that is out. Takes no memory.
    pub fn is_answer(&self, kind: u32, number: u32) -> bool
        ensures { result ≡ is_answer self.now.out kind number }
    {
        match &self.out {
            Some(out) => out.kind.number() == kind && out.number == number,
            None => false,
        }
    }

    /// Whether a header has the Hop-by-Hop Identifier and the End-to-End Identifier of the CCR that is out. Takes no
    /// memory.
    pub fn has_identifiers(&self, header: &MessageHeader) -> bool
        ensures { result ≡ has_identifiers self.now.out header.now }
    {
        match &self.out {
            Some(out) => {
                out.hop_by_hop == header.hop_by_hop && out.end_to_end == header.end_to_end
            }
            None => false,
        }
    }

    /// The CCR that is out was answered: with success, all that it tells is told; else it stays due. Takes no memory.
    pub fn answered(&mut self, success: bool)
        ensures { self.new ≡ answered_so success self.old }
    {
        if let Some(out) = &self.out {
            if success {
                self.told = out.past;
            }
        }
        self.out = None;
    }
}

/// Sets the T bit of a message.
fn set_t_bit(message: &mut Vec<u8>)
    ensures { message.new.items ≡ with_t_bit message.old.items }
{
    if let Some(flags) = message.get_mut(4) {
        *flags |= 0x10;
    }
}
