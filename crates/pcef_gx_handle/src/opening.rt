//! Begins a dialogue.

ghost use Rattle.std.specs.Prelude.{◌≡◌, IfOk};
ghost use Rattle.pcef_gx_handle.specs.Opening.{Begins, BeginsBy, BeginsText, OpensGx, TellsAvps, begun};

use crate::held::{Dialogue, GxHandle, Stage};
use crate::proposing::proposal;
use pcef_diameter::read_avps;
use pcef_gx_dialogue::{Ccrs, Party, Responder};
use pcef_gx_messages::Identity;
use pcef_handle::{OpenRefusal, profile_of};
use pcef_model::Profile;
use pcef_session::open_fault;
use std::alloc::{AllocError, Global};
use thiserror::Error;

/// The most octets of the AVPs that a host adds to the first CCR.
pub const MAX_OTHERS: usize = 65_536;

/// Why no dialogue begins: the first reason in this order. Out of memory may be returned in place of any other but the
/// first two.
#[derive(Clone, Copy, Debug, PartialEq, Eq, Error)]
pub enum BeginRefusal {
    /// The handle has a dialogue, which stays.
    #[error("the handle has a dialogue already")]
    AlreadyBegun,
    /// The host's AVPs aren't whole, or have more than 65,536 octets.
    #[error("the AVPs of the host aren't whole")]
    NotAvps,
    /// There is no profile, or no session can have it.
    #[error("{0}")]
    Profile(OpenRefusal),
    /// There is no memory left.
    #[error("there is no memory left")]
    NoMemory,
}

/// Whether octets are whole AVPs, one after another, and at most 65,536.
fn are_avps(alloc: Global, octets: &[u8]) -> Result<bool, AllocError>
    ensures { IfOk result (λ are. TellsAvps are octets.now) }
{
    if octets.len() > MAX_OTHERS {
        return Ok(false);
    }
    let read = read_avps(alloc, octets)?;
    Ok(read.fault.is_none())
}

/// A dialogue that begins, of a session with this profile.
fn dialogue_of(
    alloc: Global,
    profile: Profile,
    identity: &Identity,
    others: &[u8],
) -> Result<Dialogue, AllocError>
    ensures { IfOk result (λ d. d ≡ begun identity.now profile others.now) }
{
    let party = Party::new(alloc, identity)?;
    let due = proposal(alloc, &profile, others)?;
    Ok(Dialogue {
        responder: Responder::new(party),
        ccrs: Ccrs::new(),
        profile,
        session: None,
        stage: Stage::Opening,
        due,
        due_out: 0,
        watches_loss: false,
    })
}

/// A dialogue that begins, where a session can have this profile.
fn begin_by(
    alloc: Global,
    profile: Profile,
    identity: &Identity,
    others: &[u8],
) -> Result<Dialogue, BeginRefusal>
    ensures { BeginsBy profile identity.now others.now result }
{
    if let Some(fault) = open_fault(&profile) {
        return Err(BeginRefusal::Profile(OpenRefusal::Session(fault)));
    }
    match dialogue_of(alloc, profile, identity, others) {
        Ok(dialogue) => Ok(dialogue),
        Err(_) => Err(BeginRefusal::NoMemory),
    }
}

/// A dialogue that begins, of a session with the profile of this text.
fn begin(
    alloc: Global,
    text: &[u8],
    identity: &Identity,
    others: &[u8],
) -> Result<Dialogue, BeginRefusal>
    ensures { BeginsText text.now identity.now others.now result }
{
    match profile_of(alloc, text) {
        Ok(profile) => begin_by(alloc, profile, identity, others),
        Err(refusal) => Err(BeginRefusal::Profile(refusal)),
    }
}

/// A dialogue that begins, where the host's AVPs are whole.
fn begin_with(
    alloc: Global,
    text: &[u8],
    identity: &Identity,
    others: &[u8],
) -> Result<Dialogue, BeginRefusal>
    ensures { Begins text.now identity.now others.now result }
{
    match are_avps(alloc, others) {
        Ok(true) => begin(alloc, text, identity, others),
        Ok(false) => Err(BeginRefusal::NotAvps),
        Err(_) => Err(BeginRefusal::NoMemory),
    }
}

impl GxHandle {
    /// Begins the dialogue of a session that is to have the profile of a text, with its PCRF. The first CCR is due: it
    /// proposes the profile's address and the QoS of its default bearer, and has the AVPs of the host behind them, as
    /// octets, at most 65,536: the subscriber, the APN, the access. The session opens when the PCRF has granted it. A
    /// refusal leaves the handle as it was. Takes memory for the dialogue.
    pub fn open(
        &mut self,
        text: &[u8],
        identity: &Identity,
        others: &[u8],
    ) -> Result<(), BeginRefusal>
        ensures { OpensGx text.now identity.now others.now self.old.dialogue result self.new.dialogue }
    {
        if self.dialogue.is_some() {
            return Err(BeginRefusal::AlreadyBegun);
        }
        let dialogue = begin_with(self.alloc, text, identity, others)?;
        self.dialogue = Some(dialogue);
        Ok(())
    }
}
