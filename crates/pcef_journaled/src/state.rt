//! A session whose rows and commands are kept.

ghost use Rattle.std.specs.Prelude.{◌≡◌, [], IfErr, IfOk, OnErr, OnOk, Some, false, reverse, true};
ghost use Rattle.std.specs.Result.{result_err};
ghost use Rattle.pcef_model.specs.Entries.{commands, lane};
ghost use Rattle.pcef_model.specs.Outcomes.{AttachStep, CommandStep, Opens, abandon_outcome};
ghost use Rattle.pcef_model.specs.ProfileModel.{setting_of};
ghost use Rattle.pcef_model.specs.Refusals.{is_attached};
ghost use Rattle.pcef_model.specs.Reports.{after_leave};
ghost use Rattle.pcef_session.specs.Answers.{AcceptsWithin, AnswersFinish, AnswersFlush, IsOpened, KeepsPrepared, MayComeNext, Refuses, RefusesWithin, Settles};
ghost use Rattle.pcef_session.specs.Following.{HasFewKeys, HasItsSlots};
ghost use Rattle.pcef_session.specs.Preparing.{IsPreparedFor, command_of};
ghost use Rattle.pcef_session.specs.SessionModel.{HasAtLeast};
ghost use Rattle.pcef_journaled.specs.Archiving.{Archives};

use crate::archive::Archive;
use crate::prepared::{JournaledCommand, keep};
use crate::rows::add_rows;
use crate::walk::{Commands, Lane};
use pcef_catalog::Listing;
use pcef_model::{
    Accepted, AttachFault, Command, FlushRefusal, OpenFault, Profile, Refusal, Verdicts,
};
use pcef_rule::Sums;
use pcef_session::{Batch, SessionState};
use std::alloc::Global;
use std::marker::Model;

/// A session with an archive of its commands and rows. The rows are stored, or stand in contracts alone. Its reports
/// are all kept. It answers as [`SessionState`] does. Contracts see a session, and whether rows are stored.
pub struct JournaledState {
    state: SessionState,
    archive: Archive,
}

// Written out, so that an owner proves one call on each return path.
impl Drop for JournaledState {
    fn drop(self) {
        let JournaledState {
            state: _,
            archive: _,
        } = self;
    }
}

impl Model for JournaledState {
    ghost use Rattle.pcef_journaled.specs.Archiving.{Journaled};

    ghost Value = { Journaled };

    ghost use Rattle.pcef_journaled.specs.Archiving.{KeepsAll, journaled_of};

    ghost view = { journaled_of };

    ghost invariant = { KeepsAll };
}

impl JournaledState {
    /// A session with an empty journal, or the first fault in the order of [`OpenFault`]. Its rows are stored. Takes
    /// memory.
    pub fn open(
        alloc: Global,
        profile: Profile,
        listing: Listing,
    ) -> Result<JournaledState, OpenFault>
        ensures answer { Opens (setting_of profile listing) (result_err result) }
        ensures made { IfOk result (λ s. IsOpened (setting_of profile listing) s.session) }
        ensures keeps { IfOk result (λ s. s.keeps ≡ true) }
    {
        let state = SessionState::open(alloc, profile, listing)?;
        Ok(JournaledState {
            state,
            archive: Archive::new(alloc),
        })
    }

    /// The same, of a session whose rows are not stored: it takes no memory for packets.
    pub fn open_without_rows(
        alloc: Global,
        profile: Profile,
        listing: Listing,
    ) -> Result<JournaledState, OpenFault>
        ensures answer { Opens (setting_of profile listing) (result_err result) }
        ensures made { IfOk result (λ s. IsOpened (setting_of profile listing) s.session) }
        ensures keeps { IfOk result (λ s. s.keeps ≡ false) }
    {
        let state = SessionState::open(alloc, profile, listing)?;
        Ok(JournaledState {
            state,
            archive: Archive::without_rows(alloc),
        })
    }

    /// Whether rows are stored.
    pub fn keeps_rows(&self) -> bool
        ensures { result ≡ self.now.keeps }
    {
        self.archive.keeps()
    }

    /// The session itself, for all that it shows.
    pub fn session(&self) -> &SessionState
        ensures setting { result.now.setting ≡ self.now.session.setting }
        ensures journal { result.now.journal ≡ self.now.session.journal }
        ensures kept { result.now.forgotten ≡ 0 }
    {
        &self.state
    }

    /// The rows of a worker, from the oldest on. They have to be stored.
    pub fn lane(&self, worker: u8) -> Lane<'_>
        requires { self.now.keeps ≡ true }
        ensures { result ≡ reverse (lane self.now.session.journal worker) }
    {
        self.archive.lane(worker)
    }

    /// The commands, from the oldest on.
    pub fn commands(&self) -> Commands<'_>
        ensures { result ≡ reverse (commands self.now.session.journal) }
    {
        self.archive.commands()
    }

    /// Attaches a worker, as [`SessionState::attach`].
    pub fn attach(&mut self) -> Result<u8, AttachFault>
        ensures answer { AttachStep self.old.session.journal result self.new.session.journal }
        ensures lane { IfOk result (λ worker. lane self.old.session.journal worker ≡ []) }
        ensures setting { self.new.session.setting ≡ self.old.session.setting }
        ensures keeps { self.new.keeps ≡ self.old.keeps }
        ensures room { OnErr result (HasAtLeast self.old.session.room self.new.session.room) }
    {
        self.state.attach()
    }

    /// Takes over a worker's waiting rows, all or none, as [`SessionState::flush`].
    pub fn flush(&mut self, worker: u8, batch: &Batch) -> Result<Verdicts, FlushRefusal>
        requires follow { MayComeNext self.old.session worker batch.now }
        requires slots { HasItsSlots self.old.session.setting self.old.session.journal batch.now }
        ensures answer { AnswersFlush self.old.session worker batch.now result self.new.session }
        ensures few_keys { OnOk result (HasFewKeys self.old.session.setting self.old.session.journal) }
        ensures setting { self.new.session.setting ≡ self.old.session.setting }
        ensures keeps { self.new.keeps ≡ self.old.keeps }
        ensures room { OnErr result (HasAtLeast self.old.session.room self.new.session.room) }
    {
        if self.archive.reserve(batch.len()).is_err() {
            // Out of memory comes last of the refusals.
            if let Some(refusal) = self.state.flush_refusal(worker, batch.len()) {
                return Err(refusal);
            }
            return Err(FlushRefusal::NoMemory);
        }
        match self.state.flush(worker, batch) {
            Ok(verdicts) => {
                add_rows(&mut self.archive, batch.items());
                Ok(verdicts)
            }
            Err(refusal) => Err(refusal),
        }
    }

    /// Takes over a worker's last rows and lets it leave, as [`SessionState::finish`].
    pub fn finish(&mut self, worker: u8, batch: &Batch) -> Result<(Verdicts, u64), FlushRefusal>
        requires follow { MayComeNext self.old.session worker batch.now }
        requires slots { HasItsSlots self.old.session.setting self.old.session.journal batch.now }
        ensures answer { AnswersFinish self.old.session worker batch.now
            result self.new.session }
        ensures few_keys { OnOk result (HasFewKeys self.old.session.setting self.old.session.journal) }
        ensures setting { self.new.session.setting ≡ self.old.session.setting }
        ensures keeps { self.new.keeps ≡ self.old.keeps }
        ensures room { OnErr result (HasAtLeast self.old.session.room self.new.session.room) }
    {
        if self.archive.reserve(batch.len()).is_err() {
            // Out of memory comes last of the refusals.
            if let Some(refusal) = self.state.flush_refusal(worker, batch.len()) {
                return Err(refusal);
            }
            return Err(FlushRefusal::NoMemory);
        }
        match self.state.finish(worker, batch) {
            Ok(last) => {
                add_rows(&mut self.archive, batch.items());
                Ok(last)
            }
            Err(refusal) => Err(refusal),
        }
    }

    /// A worker that is attached leaves, as [`SessionState::detach`].
    pub fn detach(&mut self, worker: u8)
        requires { is_attached self.old.session.journal worker ≡ true }
        ensures journal { self.new.session.journal ≡ after_leave worker self.old.session.journal }
        ensures setting { self.new.session.setting ≡ self.old.session.setting }
        ensures keeps { self.new.keeps ≡ self.old.keeps }
    {
        self.state.detach(worker);
    }

    /// Lets a worker leave without its waiting rows, as [`SessionState::abandon`].
    pub fn abandon(&mut self, worker: u8) -> u64
        ensures rows { result ≡ (abandon_outcome self.old.session.journal worker).0 }
        ensures journal { self.new.session.journal ≡ (abandon_outcome self.old.session.journal worker).1 }
        ensures setting { self.new.session.setting ≡ self.old.session.setting }
        ensures keeps { self.new.keeps ≡ self.old.keeps }
    {
        self.state.abandon(worker)
    }

    /// Validates a command, and takes all memory that it needs, as [`SessionState::prepare`].
    pub fn prepare(&mut self, command: Command) -> Result<JournaledCommand, Refusal>
        ensures setting { self.new.session.setting ≡ self.old.session.setting }
        ensures keeps { self.new.keeps ≡ self.old.keeps }
        ensures journal { self.new.session.journal ≡ self.old.session.journal }
        ensures room { HasAtLeast self.old.session.room self.new.session.room }
        ensures refused { IfErr result (Refuses self.old.session command) }
        ensures ready { IfOk result (λ d. IsPreparedFor self.new.session d) }
        ensures command { IfOk result (λ d. command_of d ≡ command) }
        ensures others { KeepsPrepared self.old.session self.new.session }
    {
        let prepared = self.state.prepare(command)?;
        let attached = self.state.attached_count();
        match JournaledCommand::new(&mut self.archive, prepared, attached) {
            Ok(command) => Ok(command),
            Err(_) => Err(Refusal::NoMemory),
        }
    }

    /// The same for a session whose pool leaves it this room, in bit/s, as [`SessionState::prepare_within`].
    pub fn prepare_within(
        &mut self,
        command: Command,
        room: Sums,
    ) -> Result<JournaledCommand, Refusal>
        ensures setting { self.new.session.setting ≡ self.old.session.setting }
        ensures keeps { self.new.keeps ≡ self.old.keeps }
        ensures journal { self.new.session.journal ≡ self.old.session.journal }
        ensures room { HasAtLeast self.old.session.room self.new.session.room }
        ensures refused { IfErr result (RefusesWithin self.old.session command (Some room)) }
        ensures accepted { OnOk result (AcceptsWithin self.old.session command (Some room)) }
        ensures ready { IfOk result (λ d. IsPreparedFor self.new.session d) }
        ensures command { IfOk result (λ d. command_of d ≡ command) }
        ensures others { KeepsPrepared self.old.session self.new.session }
    {
        let prepared = self.state.prepare_within(command, room)?;
        let attached = self.state.attached_count();
        match JournaledCommand::new(&mut self.archive, prepared, attached) {
            Ok(command) => Ok(command),
            Err(_) => Err(Refusal::NoMemory),
        }
    }

    /// Does what was prepared since the session last changed, as [`SessionState::settle`]. Takes no memory.
    pub fn settle(&mut self, command: JournaledCommand) -> Accepted
        requires { IsPreparedFor self.old.session command }
        ensures answer { Settles self.old.session command result self.new.session }
        ensures setting { self.new.session.setting ≡ self.old.session.setting }
        ensures keeps { self.new.keeps ≡ self.old.keeps }
    {
        let (prepared, kept) = command.into_parts();
        let accepted = self.state.settle(prepared);
        keep(&mut self.archive, kept);
        accepted
    }

    /// Does a command, as [`SessionState::command`].
    pub fn command(&mut self, command: Command) -> Result<Accepted, Refusal>
        ensures answer { CommandStep self.old.session.setting command
            self.old.session.journal result self.new.session.journal }
        ensures setting { self.new.session.setting ≡ self.old.session.setting }
        ensures keeps { self.new.keeps ≡ self.old.keeps }
        ensures room { OnErr result (HasAtLeast self.old.session.room self.new.session.room) }
    {
        match self.prepare(command) {
            Err(refusal) => Err(refusal),
            Ok(prepared) => Ok(self.settle(prepared)),
        }
    }

    /// The session, and the archive of its rows and commands.
    pub fn into_parts(self) -> (SessionState, Archive)
        ensures setting { result.0.setting ≡ self.session.setting }
        ensures journal { result.0.journal ≡ self.session.journal }
        ensures kept { result.0.forgotten ≡ 0 }
        ensures archives { Archives self.session.journal result.1 }
        ensures keeps { result.1.keeps ≡ self.keeps }
    {
        let JournaledState { state, archive } = self;
        (state, archive)
    }
}
