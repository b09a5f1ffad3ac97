//! A session with its catalog.

ghost use Rattle.std.specs.Prelude.{◌≡◌, ◌≤◌, [], IfErr, IfNone, IfOk, OnErr, OnOk, reverse, true};
ghost use Rattle.std.specs.Arc.{arc_value};
ghost use Rattle.std.specs.Result.{result_err};
ghost use Rattle.pcef_catalog.specs.Catalogs.{offers_of};

use pcef_active::ActiveRules;
use pcef_bearer::Bearers;
use pcef_catalog::{Catalog, Offers};
use pcef_index::Indexed;
use pcef_journal::{Journal, LaneEnd};
use pcef_journaled::{Commands, JournaledCommand, JournaledState, Lane};
use pcef_model::{
    Accepted, AttachFault, Command, FlushRefusal, OpenFault, Profile, Refusal, Verdicts,
};
use pcef_session::{Batch, open_fault};
use pcef_usage::Usage;
use std::alloc::Global;
use std::sync::Arc;

/// A session and the catalog of its predefined rules. It keeps all rows, commands and reports.
// In a box, so that an owner proves one pointer, and not each part of the state.
pub struct Session {
    catalog: Arc<Catalog>,
    state: Box<JournaledState>,
    ghost offered: { state.value.session.setting.catalog ≡ offers_of (arc_value catalog) },
    ghost kept: { state.value.keeps ≡ true },
}

// Written out, so that an owner proves one call on each return path.
impl Drop for Session {
    fn drop(self) {
        let Session {
            catalog: _,
            state: _,
        } = self;
    }
}

impl Session {
    ghost use Rattle.pcef_core.specs.Sessions.{journal_in, setting_in, setting_with, state_of};
    ghost use Rattle.pcef_model.specs.Outcomes.{AttachStep, Opens, abandon_outcome};
    ghost use Rattle.pcef_model.specs.Entries.{commands, lane};
    ghost use Rattle.pcef_model.specs.Journals.{gen};
    ghost use Rattle.pcef_model.specs.Lawful.{Lawful};
    ghost use Rattle.pcef_model.specs.Refusals.{is_attached};
    ghost use Rattle.pcef_model.specs.Reports.{after_leave};
    ghost use Rattle.pcef_model.specs.ProfileModel.{setting_of};
    ghost use Rattle.pcef_session.specs.Agreement.{KeysAgree};
    ghost use Rattle.pcef_session.specs.Answers.{AnswersCommand, AnswersFinish, AnswersFlush, AreActive, IsLaneEnd, IsOpened, KeepsPrepared, MayComeNext, Refuses, Settles, ShowsNewest, binding_now};
    ghost use Rattle.pcef_session.specs.Following.{HasFewKeys, HasItsSlots};
    ghost use Rattle.pcef_session.specs.Preparing.{IsPreparedFor, command_of};
    ghost use Rattle.pcef_session.specs.SessionModel.{HasAtLeast};

    /// A session with an empty journal, or the first fault in the order of [`OpenFault`]. Takes memory for the rules to
    /// come, and for the first table.
    pub fn open(
        alloc: Global,
        profile: Profile,
        catalog: Arc<Catalog>,
    ) -> Result<Session, OpenFault>
        ensures answer { Opens (setting_with profile (arc_value catalog)) (result_err result) }
        ensures made { IfOk result (λ s.
            IsOpened (setting_with profile (arc_value catalog)) (state_of s)) }
    {
        if let Some(fault) = open_fault(&profile) {
            return Err(fault);
        }
        let Ok(listing) = catalog.listing().share() else {
            return Err(OpenFault::NoMemory);
        };
        let state = JournaledState::open(alloc, profile, listing)?;
        match Box::new(alloc, state) {
            Ok(state) => Ok(Session { catalog, state }),
            Err(_) => Err(OpenFault::NoMemory),
        }
    }

    /// As [`JournaledState::prepare`].
    pub fn prepare(&mut self, command: Command) -> Result<JournaledCommand, Refusal>
        ensures setting { setting_in self.new ≡ setting_in self.old }
        ensures journal { journal_in self.new ≡ journal_in self.old }
        ensures room { HasAtLeast (state_of self.old).room (state_of self.new).room }
        ensures refused { IfErr result (Refuses (state_of self.old) command) }
        ensures ready { IfOk result (λ d. IsPreparedFor (state_of self.new) d) }
        ensures command { IfOk result (λ d. command_of d ≡ command) }
        ensures others { KeepsPrepared (state_of self.old) (state_of self.new) }
    {
        self.state.prepare(command)
    }

    /// As [`JournaledState::settle`].
    pub fn settle(&mut self, prepared: JournaledCommand) -> Accepted
        requires { IsPreparedFor (state_of self.old) prepared }
        ensures answer { Settles (state_of self.old) prepared result (state_of self.new) }
        ensures setting { setting_in self.new ≡ setting_in self.old }
    {
        self.state.settle(prepared)
    }

    /// As [`JournaledState::command`].
    pub fn command(&mut self, command: Command) -> Result<Accepted, Refusal>
        ensures answer { AnswersCommand (state_of self.old) command result (state_of self.new) }
        ensures setting { setting_in self.new ≡ setting_in self.old }
        ensures room { OnErr result (HasAtLeast (state_of self.old).room (state_of self.new).room) }
    {
        self.state.command(command)
    }

    /// As [`JournaledState::attach`].
    pub fn attach(&mut self) -> Result<u8, AttachFault>
        ensures answer { AttachStep (journal_in self.old) result (journal_in self.new) }
        ensures lane { IfOk result (λ worker. lane (journal_in self.old) worker ≡ []) }
        ensures setting { setting_in self.new ≡ setting_in self.old }
        ensures room { OnErr result (HasAtLeast (state_of self.old).room (state_of self.new).room) }
    {
        self.state.attach()
    }

    /// As [`JournaledState::flush`].
    pub fn flush(&mut self, worker: u8, batch: &Batch) -> Result<Verdicts, FlushRefusal>
        requires follow { MayComeNext (state_of self.old) worker batch.now }
        requires slots { HasItsSlots (setting_in self.old) (journal_in self.old) batch.now }
        ensures answer { AnswersFlush (state_of self.old) worker batch.now
            result (state_of self.new) }
        ensures few_keys { OnOk result (HasFewKeys (setting_in self.old) (journal_in self.old)) }
        ensures setting { setting_in self.new ≡ setting_in self.old }
        ensures room { OnErr result (HasAtLeast (state_of self.old).room (state_of self.new).room) }
    {
        self.state.flush(worker, batch)
    }

    /// Where a worker's lane ends, and whether the worker is attached; or `None` of a worker that never attached.
    pub fn lane_end(&self, worker: u8) -> Option<LaneEnd>
        ensures end { IsLaneEnd (journal_in self.now) worker result }
        ensures none { IfNone result (lane (journal_in self.now) worker ≡ []) }
    {
        self.state.session().lane_end(worker)
    }

    /// As [`JournaledState::detach`].
    pub fn detach(&mut self, worker: u8)
        requires { is_attached (journal_in self.old) worker ≡ true }
        ensures journal { journal_in self.new ≡ after_leave worker (journal_in self.old) }
        ensures setting { setting_in self.new ≡ setting_in self.old }
    {
        self.state.detach(worker);
    }

    /// As [`JournaledState::finish`].
    pub fn finish(&mut self, worker: u8, batch: &Batch) -> Result<(Verdicts, u64), FlushRefusal>
        requires follow { MayComeNext (state_of self.old) worker batch.now }
        requires slots { HasItsSlots (setting_in self.old) (journal_in self.old) batch.now }
        ensures answer { AnswersFinish (state_of self.old) worker batch.now
            result (state_of self.new) }
        ensures few_keys { OnOk result (HasFewKeys (setting_in self.old) (journal_in self.old)) }
        ensures setting { setting_in self.new ≡ setting_in self.old }
        ensures room { OnErr result (HasAtLeast (state_of self.old).room (state_of self.new).room) }
    {
        self.state.finish(worker, batch)
    }

    /// As [`JournaledState::abandon`].
    pub fn abandon(&mut self, worker: u8) -> u64
        ensures rows { result ≡ (abandon_outcome (journal_in self.old) worker).0 }
        ensures journal { journal_in self.new ≡ (abandon_outcome (journal_in self.old) worker).1 }
        ensures setting { setting_in self.new ≡ setting_in self.old }
    {
        self.state.abandon(worker)
    }

    /// The catalog, which offers the predefined rules of the session.
    pub fn catalog(&self) -> &Arc<Catalog>
        ensures { offers_of (arc_value result.now) ≡ (setting_in self.now).catalog }
    {
        &self.catalog
    }

    /// The table of the newest generation, with the active rules, and its index.
    pub fn indexed(&self) -> &Arc<Indexed>
        ensures { ShowsNewest (state_of self.now) (arc_value result.now) }
    {
        self.state.session().indexed()
    }

    /// The active rules by their names, in the order in which they became active.
    pub fn active(&self) -> &ActiveRules
        ensures { AreActive (state_of self.now) result.now.rules }
    {
        self.state.session().active()
    }

    /// The bearers.
    pub fn bearers(&self) -> &Bearers
        ensures { result.now ≡ binding_now (state_of self.now) }
    {
        self.state.session().bearers()
    }

    /// The keys that have a slot, with their usage.
    pub fn usage(&self) -> &Usage
        ensures { KeysAgree (setting_in self.now) (journal_in self.now) result.now }
    {
        self.state.session().usage()
    }

    /// The number of the newest generation.
    pub fn generation(&self) -> u32
        ensures { result ≡ gen (journal_in self.now) }
    {
        self.state.session().generation()
    }

    /// The rows of a worker, from the oldest on.
    pub fn lane(&self, worker: u8) -> Lane<'_>
        ensures { result ≡ reverse (lane (journal_in self.now) worker) }
    {
        self.state.lane(worker)
    }

    /// The commands, from the oldest on.
    pub fn commands(&self) -> Commands<'_>
        ensures { result ≡ reverse (commands (journal_in self.now)) }
    {
        self.state.commands()
    }

    /// The journal, which is lawful, takes 4,294,967,295 rows at most, and has all of its reports.
    pub fn journal(&self) -> &Journal
        ensures journal { result.now.entries ≡ journal_in self.now }
        ensures kept { result.now.forgotten ≡ 0 }
        ensures lawful { Lawful (setting_in self.now) (journal_in self.now) }
        ensures few_rows { (setting_in self.now).rows ≤ 4294967295 }
    {
        self.state.session().journal()
    }

    /// What is fixed for the session.
    pub fn profile(&self) -> &Profile
        ensures { setting_of result.now (setting_in self.now).catalog ≡ setting_in self.now }
    {
        self.state.session().profile()
    }
}
