//! The state of a handle over Gx.

ghost use Rattle.std.specs.Prelude.{◌≡◌, None, option_map};
ghost use Rattle.pcef_gx_handle.specs.Dialogues.{reply_of};

use pcef_gx_dialogue::{Ccrs, Responder};
use pcef_model::Profile;
use std::alloc::Global;
use std::marker::Model;

/// Where the dialogue of a session with its PCRF stands.
#[derive(Clone, Copy, Debug, PartialEq, Eq)]
pub enum Stage {
    /// The PCRF hasn't granted the session yet: there is none.
    Opening,
    /// The session is open.
    Open,
    /// The session has ended, or could not be opened as the PCRF wanted it: its last usage is to be told.
    Ending,
    /// All is told.
    Over,
}

/// The dialogue of one session with its PCRF. Contracts see who speaks and the last RAR, the CCRs, what is fixed for the
/// session, the session's number once it is open, where the dialogue stands, and the AVPs that are due for the next CCR
/// beside those of reports.
#[derive(Drop)]
pub struct Dialogue {
    pub(crate) responder: Responder,
    pub(crate) ccrs: Ccrs,
    pub(crate) profile: Profile,
    pub(crate) session: Option<u64>,
    pub(crate) stage: Stage,
    pub(crate) due: Vec<u8>,
    pub(crate) due_out: usize,
    pub(crate) watches_loss: bool,
}

impl Model for Dialogue {
    ghost use Rattle.pcef_gx_handle.specs.Dialogues.{Dialoguing};
    ghost use Rattle.pcef_gx_handle.specs.private.Inside.{dialoguing_of};

    ghost Value = { Dialoguing };

    ghost view = { dialoguing_of };
}

/// The state of a handle over Gx: a dialogue, while there is one.
#[derive(Drop)]
pub struct GxHandle {
    /// The allocator of all its memory.
    pub alloc: Global,
    /// The dialogue.
    pub dialogue: Option<Dialogue>,
}

impl Dialogue {
    /// Where it stands. Takes no memory.
    pub fn stage(&self) -> Stage
        ensures { result ≡ self.now.stage }
    {
        self.stage
    }

    /// The number of its session, once it is open. Takes no memory.
    pub fn session(&self) -> Option<u64>
        ensures { result ≡ self.now.session }
    {
        self.session
    }

    /// The answer to the last request, as octets, to be sent to where the request came from. It stays until the next
    /// request. Takes no memory.
    pub fn reply(&self) -> Option<&[u8]>
        ensures { option_map (λ octets. octets.now) result ≡ reply_of self.now }
    {
        self.responder.reply()
    }

    /// The CCR that is out, as octets. Takes no memory.
    pub fn request(&self) -> Option<&[u8]>
        ensures { option_map (λ octets. octets.now) result
            ≡ option_map (λ o. o.message) self.now.ccrs.out }
    {
        self.ccrs.out()
    }
}

impl GxHandle {
    /// A handle without a dialogue. Takes no memory.
    pub fn new(alloc: Global) -> GxHandle
        ensures { result.dialogue ≡ None }
    {
        GxHandle {
            alloc,
            dialogue: None,
        }
    }

    /// Drops the dialogue, if there is one, and frees its memory: what it hasn't told isn't told any more. Its session
    /// stays.
    pub fn close(&mut self)
        ensures { self.new.dialogue ≡ None }
    {
        self.dialogue = None;
    }
}
