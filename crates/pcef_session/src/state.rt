//! A session without the closures of its catalog.

ghost use Rattle.std.specs.Prelude.{◌≡◌, ◌≤◌, ◌||◌, [], IfOk, OnErr};
ghost use Rattle.std.specs.Arc.{arc_value};
ghost use Rattle.std.specs.Result.{result_err};
ghost use Rattle.pcef_bearer.specs.Standing.{binding_of};
ghost use Rattle.pcef_model.specs.Outcomes.{AttachStep, Opens};
ghost use Rattle.pcef_model.specs.Entries.{lane};
ghost use Rattle.pcef_model.specs.Generations.{at_first};
ghost use Rattle.pcef_model.specs.Journals.{gen, subscribed};
ghost use Rattle.pcef_model.specs.Lawful.{Lawful};
ghost use Rattle.pcef_model.specs.Refusals.{attach_faults, first_of, open_faults, total_now, was_closed, was_terminated};
ghost use Rattle.pcef_model.specs.ProfileModel.{setting_of};
ghost use Rattle.pcef_table.specs.SessionSlots.{no_slots};
ghost use Rattle.pcef_session.specs.Agreement.{KeysAgree};
ghost use Rattle.pcef_session.specs.Answers.{AreActive, IsOpened, ShowsNewest, binding_now, workers_left};
ghost use Rattle.pcef_session.specs.SessionModel.{HasAtLeast};

use pcef_active::ActiveRules;
use pcef_bearer::Bearers;
use pcef_catalog::Listing;
use pcef_index::Indexed;
use pcef_journal::{Journal, Lanes, MAX_WORKERS};
use pcef_model::{AttachFault, Entry, OpenFault, Profile, TriggerSet};
use pcef_packet::Addr;
use pcef_rule::{Kind, Sums};
use pcef_usage::{CountedJournal, Usage};
use std::alloc::{AllocError, Global};
use std::marker::Model;
use std::sync::Arc;

mod commands;
mod flushing;
mod forgetting;
mod leaving;
mod preparing;
mod refusing;
mod sharing;

/// How many rules may be active.
pub const MAX_RULES: usize = 64;

/// A session, without the closures of its catalog.
pub struct SessionState {
    alloc: Global,
    profile: Profile,
    listing: Listing,
    counted: CountedJournal,
    active: ActiveRules,
    bearers: Bearers,
    newest: Arc<Indexed>,
    subscribed: TriggerSet,
    lanes: Lanes,
    closed: bool,
    terminated: bool,
}

// Written out, so that an owner proves one call on each return path.
impl Drop for SessionState {
    fn drop(self) {
        let SessionState {
            alloc: _,
            profile: _,
            listing: _,
            counted: _,
            active: _,
            bearers: _,
            newest: _,
            subscribed: _,
            lanes: _,
            closed: _,
            terminated: _,
        } = self;
    }
}

impl Model for SessionState {
    ghost use Rattle.pcef_session.specs.SessionModel.{SessionModel};

    ghost Value = { SessionModel };

    ghost use Rattle.pcef_session.specs.private.Soundness.{IsSound, model_of};

    ghost view = { model_of };

    ghost invariant = { IsSound };
}

/// Why a session of this profile can't be opened, out of memory aside.
pub fn open_fault(profile: &Profile) -> Option<OpenFault>
    ensures { result ≡ first_of (open_faults (setting_of profile.now [])) }
{
    match profile.qcis.kind_of(profile.default_qos.qci) {
        None => Some(OpenFault::UnknownQci),
        Some(Kind::Gbr) => Some(OpenFault::DefaultIsGbr),
        Some(Kind::NonGbr) => None,
    }
}

/// The bearers of a session that is opened.
fn open_bearers(alloc: Global, profile: &Profile) -> Result<Bearers, OpenFault>
    ensures answer { Opens (setting_of profile.now []) (result_err result) }
    ensures made { IfOk result (λ b. b ≡ binding_of (setting_of profile.now []) at_first) }
{
    Bearers::new(alloc, profile.default_qos, profile.capacity, profile.qcis)
}

/// The table of the first generation, which has no rules, with its index.
fn first_table(alloc: Global, ue: Addr) -> Result<Arc<Indexed>, AllocError>
    ensures number { IfOk result (λ t. (arc_value t).number ≡ 0) }
    ensures entries { IfOk result (λ t. (arc_value t).entries ≡ []) }
    ensures session { IfOk result (λ t. (arc_value t).session ≡ no_slots) }
{
    Ok(Arc::new(alloc, Indexed::empty(alloc, 0, ue)?)?)
}

impl SessionState {
    /// A session with an empty journal, or the first fault in the order of [`OpenFault`]. Takes memory for
    /// the first table and its index.
    pub fn open(
        alloc: Global,
        profile: Profile,
        listing: Listing,
    ) -> Result<SessionState, OpenFault>
        ensures answer { Opens (setting_of profile listing) (result_err result) }
        ensures made { IfOk result (IsOpened (setting_of profile listing)) }
        ensures few_rows { IfOk result (λ s. s.setting.rows ≤ 4294967295) }
    {
        let bearers = match open_bearers(alloc, &profile) {
            Ok(bearers) => bearers,
            Err(fault) => return Err(fault),
        };
        let counted = CountedJournal::new(alloc);
        let Ok(newest) = first_table(alloc, profile.ue) else {
            return Err(OpenFault::NoMemory);
        };
        Ok(SessionState {
            alloc,
            profile,
            listing,
            counted,
            active: ActiveRules::new(alloc),
            bearers,
            newest,
            subscribed: TriggerSet::default(),
            lanes: Lanes::new(),
            closed: false,
            terminated: false,
        })
    }

    /// The events that are subscribed: those of the last Triggers, and none before it (TS 29.212, clause 5.3.7).
    /// Takes no memory.
    pub fn subscribed(&self) -> TriggerSet
        ensures { result ≡ subscribed self.now.journal }
    {
        self.subscribed
    }

    /// Whether the session was closed: it may still be terminated. Takes no memory.
    pub fn is_closed(&self) -> bool
        ensures { result ≡ was_closed self.now.journal }
    {
        self.closed
    }

    /// Whether the session was terminated, so that each further command is refused. Takes no memory.
    pub fn is_terminated(&self) -> bool
        ensures { result ≡ was_terminated self.now.journal }
    {
        self.terminated
    }

    /// Whether the session was closed or terminated.
    pub fn is_ended(&self) -> bool
        ensures { result ≡ (was_closed self.now.journal || was_terminated self.now.journal) }
    {
        self.is_closed() || self.is_terminated()
    }

    /// Why no worker can be attached, out of memory aside: the first reason in the order of [`AttachFault`].
    pub fn attach_fault(&self) -> Option<AttachFault>
        ensures { result ≡ first_of (attach_faults self.now.journal) }
    {
        if self.lanes.len() >= MAX_WORKERS {
            return Some(AttachFault::NoPlace);
        }
        if self.is_ended() {
            return Some(AttachFault::Closed);
        }
        None
    }

    /// How many more workers may be attached: 16 in the session's life, less those that ever were.
    pub fn workers_left(&self) -> usize
        ensures { result ≡ workers_left self.now.journal }
    {
        MAX_WORKERS.saturating_sub(self.lanes.len())
    }

    /// Attaches a worker and returns its number. Numbers go up from 0 and are never used again. Takes memory for what
    /// the journal says of the worker, its leaving included. Refused, in this order, where sixteen workers were
    /// attached, where the session was closed or terminated, and when out of memory; a refusal leaves no less room.
    pub fn attach(&mut self) -> Result<u8, AttachFault>
        ensures answer { AttachStep self.old.journal result self.new.journal }
        ensures lane { IfOk result (λ worker. lane self.old.journal worker ≡ []) }
        ensures setting { self.new.setting ≡ self.old.setting }
        ensures forgotten { self.new.forgotten ≡ self.old.forgotten }
        ensures room { OnErr result (HasAtLeast self.old.room self.new.room) }
    {
        if let Some(fault) = self.attach_fault() {
            return Err(fault);
        }
        if self
            .counted
            .reserve(2 + self.lanes.attached_count())
            .is_err()
        {
            return Err(AttachFault::NoMemory);
        }
        let worker = self.lanes.len() as u8;
        self.lanes.add_lane();
        self.counted.enter(Entry::Attach(worker));
        Ok(worker)
    }

    /// The active rules by their names, in the order in which they became active.
    pub fn active(&self) -> &ActiveRules
        ensures { AreActive self.now result.now.rules }
    {
        &self.active
    }

    /// The bearers, and the rules that are bound to them: each active rule to the bearer of its QCI and
    /// ARP (TS 23.203, clause 6.1.1.4).
    pub fn bearers(&self) -> &Bearers
        ensures { result.now ≡ binding_now self.now }
    {
        &self.bearers
    }

    /// What the guaranteed rates of all active rules sum up to, in bit/s.
    pub fn rates(&self) -> Sums
        ensures { result ≡ total_now self.now.setting self.now.journal }
    {
        self.bearers.total()
    }

    /// The keys that have a slot, with their usage in octets: reported and unreported ones are together those of the
    /// journal's rows that count for the key (TS 29.212, clause 4.5.16).
    pub fn usage(&self) -> &Usage
        ensures { KeysAgree self.now.setting self.now.journal result.now }
    {
        self.counted.usage()
    }

    /// The number of the newest generation.
    pub fn generation(&self) -> u32
        ensures { result ≡ gen self.now.journal }
    {
        self.newest.generation()
    }

    /// The journal, which is lawful, and takes 4,294,967,295 rows at most.
    pub fn journal(&self) -> &Journal
        ensures journal { result.now.entries ≡ self.now.journal }
        ensures forgotten { result.now.forgotten ≡ self.now.forgotten }
        ensures lawful { Lawful self.now.setting self.now.journal }
        ensures few_rows { self.now.setting.rows ≤ 4294967295 }
    {
        self.counted.journal()
    }

    /// The profile, which is fixed for the session.
    pub fn profile(&self) -> &Profile
        ensures { setting_of result.now self.now.setting.catalog ≡ self.now.setting }
    {
        &self.profile
    }

    /// The predefined rules, without their closures.
    pub fn listing(&self) -> &Listing
        ensures { result.now ≡ self.now.setting.catalog }
    {
        &self.listing
    }

    /// The table of the newest generation, with its index.
    pub fn indexed(&self) -> &Arc<Indexed>
        ensures { ShowsNewest self.now (arc_value result.now) }
    {
        &self.newest
    }
}
