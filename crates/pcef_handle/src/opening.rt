//! Opens a session by the text of a profile.

ghost use Rattle.std.specs.Prelude.{◌≡◌, IfOk};
ghost use Rattle.pcef_model.specs.ProfileModel.{setting_of};
ghost use Rattle.pcef_built_in.specs.BuiltIn.{built_in_offers};
ghost use Rattle.pcef_handle.specs.Opening.{OpensHandle, OpensText, ReadsProfile, Starts, StartsSession};

use crate::attached::MOST_FLOWS;
use crate::held::{Handle, OpenSession};
use pcef_built_in::ShapedCatalog;
use pcef_catalog::Offers;
use pcef_line::LineReader;
use pcef_model::{OpenFault, Profile};
use pcef_profile::{ReadProfileFault, read_profile};
use pcef_world::WorldState;
use std::alloc::Global;
use std::str;
use thiserror::Error;

/// Why no session is opened: the first reason in this order. Out of memory may be returned in place of any other.
#[derive(Clone, Copy, Debug, PartialEq, Eq, Error)]
pub enum OpenRefusal {
    /// The handle has a session, which stays.
    #[error("the handle has a session already")]
    AlreadyOpen,
    /// The text isn't UTF-8.
    #[error("the profile isn't UTF-8")]
    NotUtf8,
    /// The text is no profile.
    #[error("{0}")]
    Profile(ReadProfileFault),
    /// No session can have the profile.
    #[error("{0}")]
    Session(OpenFault),
    /// There is no memory left.
    #[error("there is no memory left")]
    NoMemory,
}

/// The profile of a text in octets, or why it is none: [`OpenRefusal::NotUtf8`] or [`OpenRefusal::Profile`]. Takes
/// memory while it reads.
pub fn profile_of(alloc: Global, text: &[u8]) -> Result<Profile, OpenRefusal>
    ensures { ReadsProfile text.now result }
{
    match str::from_utf8(text) {
        Err(_) => Err(OpenRefusal::NotUtf8),
        Ok(text) => match read_profile(alloc, text) {
            Ok(profile) => Ok(profile),
            Err(fault) => Err(OpenRefusal::Profile(fault)),
        },
    }
}

/// The session of a profile and its workers.
fn world_of(
    alloc: Global,
    profile: Profile,
    catalog: &ShapedCatalog,
) -> Result<WorldState, OpenRefusal>
    ensures { Starts (setting_of profile catalog.now) result }
{
    let Ok(listing) = catalog.listing().share() else {
        return Err(OpenRefusal::NoMemory);
    };
    let mut world = match WorldState::open(alloc, profile, listing) {
        Ok(world) => world,
        Err(fault) => return Err(OpenRefusal::Session(fault)),
    };
    if world.remember_flows(MOST_FLOWS).is_err() {
        return Err(OpenRefusal::NoMemory);
    }
    Ok(world)
}

impl OpenSession {
    /// The session of a profile with this number, over the built-in predefined rules: its journal is empty, and no
    /// worker is attached. Else why there is none: [`OpenRefusal::Session`] or [`OpenRefusal::NoMemory`]. Takes memory
    /// for the session.
    pub fn open(alloc: Global, number: u64, profile: Profile) -> Result<OpenSession, OpenRefusal>
        ensures starts { StartsSession (setting_of profile built_in_offers) result }
        ensures number { IfOk result (λ s. s.number ≡ number) }
    {
        let Ok(catalog) = ShapedCatalog::built_in(alloc) else {
            return Err(OpenRefusal::NoMemory);
        };
        let world = world_of(alloc, profile, &catalog)?;
        Ok(OpenSession {
            catalog,
            world,
            lines: LineReader::new(alloc),
            number,
        })
    }
}

fn open_session(alloc: Global, number: u64, text: &[u8]) -> Result<OpenSession, OpenRefusal>
    ensures opens { OpensText text.now result }
    ensures number { IfOk result (λ s. s.number ≡ number) }
{
    OpenSession::open(alloc, number, profile_of(alloc, text)?)
}

impl Handle {
    /// Opens a session by the text of a profile, over the built-in predefined rules: its journal is empty, and no
    /// worker is attached. It gets the handle's next number. A refusal leaves the handle as it was. Takes memory for the
    /// session.
    pub fn open(&mut self, text: &[u8]) -> Result<(), OpenRefusal>
        ensures { OpensHandle text.now self.old result self.new }
    {
        if self.session.is_some() {
            return Err(OpenRefusal::AlreadyOpen);
        }
        let session = open_session(self.alloc, self.next_number, text)?;
        self.next_number = self.next_number.wrapping_add(1);
        self.session = Some(session);
        Ok(())
    }
}
