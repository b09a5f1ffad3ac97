//! The memory that commands take.

ghost use Rattle.std.specs.Prelude.{◌≡◌, ◌++◌, ◌+◌, ◌≤◌, ◌<◌, IfErr, IfNone, IfOk, IfSome, None, OnOk, Some, length, true};
ghost use Rattle.std.specs.Arc.{arc_value};
ghost use Rattle.std.specs.Option.{option_copied, option_map};
ghost use Rattle.pcef_model.specs.Outcomes.{changes};
ghost use Rattle.pcef_model.specs.Commands.{activated, is_table};
ghost use Rattle.pcef_model.specs.Journals.{attached, now};
ghost use Rattle.pcef_model.specs.Reports.{inactive, keys_ended, plan};
ghost use Rattle.pcef_session.specs.Answers.{AcceptsWithin, KeepsPrepared, Refuses, RefusesWithin, binding_now};
ghost use Rattle.pcef_session.specs.Preparing.{GetsBearer, HasKeyPlaces, HasPlacesFor, IsPreparedFor, IsReady, command_of};
ghost use Rattle.pcef_session.specs.private.Entries.{ShowsNext};
ghost use Rattle.pcef_session.specs.private.Keys.{key_switched};
ghost use Rattle.pcef_session.specs.private.Sessions.{Accepts, ActivatesAgain, IsNextTable, MakesActive, Offers};
ghost use Rattle.pcef_session.specs.SessionModel.{HasAtLeast};

use super::SessionState;
use crate::applying::{key_places, rule_key};
use crate::ended_keys::add_ended_keys;
use crate::entries::{bearer_for, entry_of};
use crate::inactive::inactive;
use crate::keys::{level_switched, place_of, switched_key, switches_on};
use crate::next_tables::{drop_rules, switch_key};
use crate::pending_reports::{add_noticed, add_requested};
use crate::prepared::{Activation, Prepared, PreparedChange};
use pcef_bearer::Places;
use pcef_catalog::Listing;
use pcef_index::Indexed;
use pcef_model::{Command, PendingReport, Refusal};
use pcef_rule::{BearerId, KeyName, RuleName, Sums};
use pcef_table::{Source, Table};
use pcef_usage::KeyPlaces;
use std::alloc::{AllocError, Global};
use std::sync::Arc;

/// A table, so that it can be shared, if there is one.
fn share(alloc: Global, table: Option<Indexed>) -> Result<Option<Arc<Indexed>>, AllocError>
    ensures { IfOk result (λ t. option_map (λ x. arc_value x) t ≡ table) }
{
    match table {
        Some(table) => Ok(Some(Arc::new(alloc, table)?)),
        None => Ok(None),
    }
}

impl SessionState {
    /// The predefined rule of a name, if there is one.
    pub(super) fn find_offered(&self, name: &RuleName) -> Option<Activation>
        ensures { Offers self.now name.now result }
    {
        match self.listing.index_of(name) {
            Some(index) => Some(Activation {
                properties: self.listing.offers()[usize::from(index)].properties.copy(),
                source: Source::Predefined(index),
            }),
            None => None,
        }
    }

    /// The rule that a command makes active.
    fn activation(&self, command: &Command) -> Result<Option<Activation>, AllocError>
        ensures { IfOk result (λ x. MakesActive self.now command.now x) }
    {
        match command {
            Command::Install(rule) => Ok(Some(Activation {
                properties: rule.properties().copy(),
                source: Source::Dynamic(rule.copy()?),
            })),
            Command::Activate(name) => Ok(self.find_offered(name)),
            _ => Ok(None),
        }
    }

    /// The bearer of the rule that a command makes active.
    fn bearer_for_rule(&self, command: &Command, rule: Option<&Activation>) -> Option<BearerId>
        requires accepted { Accepts self.now command.now }
        requires changing { changes self.now.setting self.now.journal command.now ≡ true }
        requires rule { MakesActive self.now command.now (option_copied rule) }
        ensures { GetsBearer self.now.setting self.now.journal (option_copied rule.entry) result }
    {
        match rule {
            Some(rule) => Some(bearer_for(&self.bearers, &rule.properties)),
            None => None,
        }
    }

    /// Memory to bind the rule that a command makes active.
    fn places_for(&self, rule: Option<&Activation>) -> Result<Places, AllocError>
        ensures { IfOk result (λ places.
            HasPlacesFor (binding_now self.now) (option_copied rule.entry) places) }
    {
        match rule {
            Some(rule) => self.bearers.places_for(&rule.properties.name),
            None => Ok(Places::none(self.alloc)),
        }
    }

    /// Memory for the key that a command names to get a slot.
    fn key_places_for(
        &self,
        command: &Command,
        rule: Option<&Activation>,
    ) -> Result<KeyPlaces, AllocError>
        requires rule { MakesActive self.now command.now (option_copied rule) }
        ensures { IfOk result (HasKeyPlaces self.now.setting self.now.journal command.now) }
    {
        let key = rule_key(rule);
        key_places(self.alloc, self.counted.usage(), command, key.as_ref())
    }

    /// The table with the rule that a command makes active.
    fn table_with(
        &self,
        command: &Command,
        rule: &Activation,
        bearer: BearerId,
    ) -> Result<Indexed, AllocError>
        requires accepted { Accepts self.now command.now }
        requires changing { changes self.now.setting self.now.journal command.now ≡ true }
        requires rule { MakesActive self.now command.now (Some rule.now) }
        requires bearer { GetsBearer self.now.setting self.now.journal
            (Some rule.now) (Some bearer) }
        ensures { IfOk result (λ t. ShowsNext self.now.setting self.now.journal command.now t) }
    {
        let entry = entry_of(self.counted.usage(), rule, bearer)?;
        let table = self.newest.table().with(&self.listing, entry)?;
        self.newest.after(self.alloc, table)
    }

    /// The table with the key that a command switches, on or off. Its rules are those of the newest table, so it shares
    /// that one's index.
    fn table_after_switch(&self, command: &Command, key: &KeyName) -> Result<Indexed, AllocError>
        requires accepted { Accepts self.now command.now }
        requires switched { key_switched command.now ≡ Some key.now }
        ensures { IfOk result (λ t. ShowsNext self.now.setting self.now.journal command.now t) }
    {
        let slot = place_of(self.counted.usage(), key);
        let level = level_switched(self.counted.usage(), command, key);
        let table = switch_key(self.newest.table(), level, slot, switches_on(command))?;
        self.newest.with_table(table)
    }

    /// The table without the rules that a command takes away.
    fn table_after_removal(&self, command: &Command) -> Result<Indexed, AllocError>
        requires none { activated self.now.setting command.now ≡ None }
        requires table { is_table command.now ≡ true }
        requires switched { key_switched command.now ≡ None }
        ensures { IfOk result (λ t. ShowsNext self.now.setting self.now.journal command.now t) }
    {
        let table = drop_rules(self.alloc, self.newest.table(), &self.listing, command)?;
        self.newest.after(self.alloc, table)
    }

    /// The table that a command makes.
    fn table_after_activation(
        &self,
        command: &Command,
        rule: Option<&Activation>,
        bearer: Option<BearerId>,
    ) -> Result<Indexed, AllocError>
        requires accepted { Accepts self.now command.now }
        requires changing { changes self.now.setting self.now.journal command.now ≡ true }
        requires rule { MakesActive self.now command.now (option_copied rule) }
        requires bearer { GetsBearer self.now.setting self.now.journal (option_copied rule) bearer }
        requires table { is_table command.now ≡ true }
        ensures { IfOk result (λ t. ShowsNext self.now.setting self.now.journal command.now t) }
    {
        match rule {
            Some(rule) => match bearer {
                Some(bearer) => self.table_with(command, rule, bearer),
                None => unreachable!(),
            },
            None => match switched_key(command) {
                Some(key) => self.table_after_switch(command, key),
                None => self.table_after_removal(command),
            },
        }
    }

    /// The table that a command makes, if it makes one.
    fn next_table(
        &self,
        command: &Command,
        rule: Option<&Activation>,
        bearer: Option<BearerId>,
    ) -> Result<Option<Indexed>, AllocError>
        requires accepted { Accepts self.now command.now }
        requires changing { changes self.now.setting self.now.journal command.now ≡ true }
        requires rule { MakesActive self.now command.now (option_copied rule) }
        requires bearer { GetsBearer self.now.setting self.now.journal (option_copied rule) bearer }
        ensures { IfOk result (λ t. IsNextTable self.now command.now t) }
    {
        if command.is_table() {
            Ok(Some(self.table_after_activation(command, rule, bearer)?))
        } else {
            Ok(None)
        }
    }

    /// The reports of the rules that a command takes away with their bearer.
    fn inactive(&self, command: &Command) -> Result<Vec<PendingReport>, AllocError>
        ensures { IfOk result (λ v. v.items
            ≡ inactive (now self.now.setting self.now.journal) command.now) }
    {
        inactive(self.alloc, self.bearers.bound(), command)
    }

    /// Adds the reports of the keys that a command ends.
    fn add_ended(
        &self,
        reports: &mut Vec<PendingReport>,
        command: &Command,
        rule: Option<&Activation>,
    ) -> Result<(), AllocError>
        requires rule { MakesActive self.now command.now (option_copied rule) }
        ensures { OnOk result (reports.new.items
            ≡ reports.old.items ++ keys_ended self.now.setting self.now.journal command.now) }
    {
        add_ended_keys(
            reports,
            self.counted.usage().states(),
            self.newest.table().entries(),
            &self.listing,
            command,
            rule,
        )
    }

    /// What a command reports by itself.
    fn plan(
        &self,
        command: &Command,
        rule: Option<&Activation>,
    ) -> Result<Vec<PendingReport>, AllocError>
        requires rule { MakesActive self.now command.now (option_copied rule) }
        ensures { IfOk result (λ v. v.items ≡ plan self.now.setting self.now.journal command.now) }
    {
        let mut reports = self.inactive(command)?;
        self.add_ended(&mut reports, command, rule)?;
        add_requested(&mut reports, command)?;
        add_noticed(&mut reports, command, self.subscribed)?;
        Ok(reports)
    }

    /// The name of the active rule that a command activates again.
    fn active_already(&self, command: &Command) -> Option<RuleName>
        ensures changing { IfNone result
            (changes self.now.setting self.now.journal command.now ≡ true) }
        ensures active { IfSome result (λ name. ActivatesAgain self.now command.now name) }
    {
        match command {
            Command::Activate(name) => {
                if self.is_active(name) {
                    Some(name.copy())
                } else {
                    None
                }
            }
            _ => None,
        }
    }

    /// Takes room for a rule, and in the journal for a command, these reports, the thresholds of eight keys and the
    /// leaving of each worker.
    fn take_room(&mut self, reports: &[PendingReport]) -> Result<(), AllocError>
        ensures setting { self.new.setting ≡ self.old.setting }
        ensures forgotten { self.new.forgotten ≡ self.old.forgotten }
        ensures journal { self.new.journal ≡ self.old.journal }
        ensures room { HasAtLeast self.old.room self.new.room }
        ensures entries { OnOk result (length reports.now + 9 + length (attached self.old.journal)
            ≤ self.new.room.entries) }
        ensures rules { OnOk result (0 < self.new.room.rules) }
    {
        self.active.reserve(1)?;
        self.counted
            .reserve(reports.len() + 9 + self.lanes.attached_count())
    }

    /// The table that a command makes, with its index, what the command reports by itself, and memory to bind its rule,
    /// once there is room.
    fn ready_with(
        &mut self,
        command: &Command,
        rule: Option<&Activation>,
        bearer: Option<BearerId>,
    ) -> Result<(Option<Arc<Indexed>>, Vec<PendingReport>, Places), AllocError>
        requires accepted { Accepts self.old command.now }
        requires changing { changes self.old.setting self.old.journal command.now ≡ true }
        requires rule { MakesActive self.old command.now (option_copied rule) }
        requires bearer { GetsBearer self.old.setting self.old.journal (option_copied rule) bearer }
        ensures setting { self.new.setting ≡ self.old.setting }
        ensures forgotten { self.new.forgotten ≡ self.old.forgotten }
        ensures journal { self.new.journal ≡ self.old.journal }
        ensures room { HasAtLeast self.old.room self.new.room }
        ensures table { IfOk result (λ r. IsNextTable self.old command.now
            (option_map (λ t. arc_value t) r.0)) }
        ensures reports { IfOk result (λ r. r.1.items
            ≡ plan self.old.setting self.old.journal command.now) }
        ensures entries { IfOk result (λ r.
            length r.1.items + 9 + length (attached self.old.journal) ≤ self.new.room.entries) }
        ensures rules { OnOk result (0 < self.new.room.rules) }
        ensures places { IfOk result (λ r.
            HasPlacesFor (binding_now self.old) (option_copied rule.entry) r.2) }
    {
        let table = self.next_table(command, rule, bearer)?;
        let table = share(self.alloc, table)?;
        let reports = self.plan(command, rule)?;
        let places = self.places_for(rule)?;
        self.take_room(reports.as_slice())?;
        Ok((table, reports, places))
    }

    /// Takes all memory that an accepted command needs, and changes nothing that can be seen but room.
    fn ready(&mut self, command: Command) -> Result<PreparedChange, AllocError>
        requires accepted { Accepts self.old command }
        requires changing { changes self.old.setting self.old.journal command ≡ true }
        ensures setting { self.new.setting ≡ self.old.setting }
        ensures forgotten { self.new.forgotten ≡ self.old.forgotten }
        ensures journal { self.new.journal ≡ self.old.journal }
        ensures room { HasAtLeast self.old.room self.new.room }
        ensures ready { IfOk result (λ d. IsReady self.new d) }
        ensures command { IfOk result (λ d. d.command ≡ command) }
    {
        let rule = self.activation(&command)?;
        let bearer = self.bearer_for_rule(&command, rule.as_ref());
        let key_places = self.key_places_for(&command, rule.as_ref())?;
        let (table, reports, places) = self.ready_with(&command, rule.as_ref(), bearer)?;
        Ok(PreparedChange {
            command,
            table,
            rule,
            bearer,
            places,
            key_places,
            reports,
        })
    }

    /// Prepares a command, in a room where the session has one.
    fn prepare_in(&mut self, command: Command, room: Option<Sums>) -> Result<Prepared, Refusal>
        ensures setting { self.new.setting ≡ self.old.setting }
        ensures forgotten { self.new.forgotten ≡ self.old.forgotten }
        ensures journal { self.new.journal ≡ self.old.journal }
        ensures room { HasAtLeast self.old.room self.new.room }
        ensures refused { IfErr result (RefusesWithin self.old command room) }
        ensures accepted { OnOk result (AcceptsWithin self.old command room) }
        ensures ready { IfOk result (λ d. IsPreparedFor self.new d) }
        ensures command { IfOk result (λ d. command_of d ≡ command) }
        ensures others { KeepsPrepared self.old self.new }
    {
        if let Some(refusal) = self.refusal_within(&command, room) {
            return Err(refusal);
        }
        if let Some(name) = self.active_already(&command) {
            return Ok(Prepared::Unchanged(name));
        }
        match self.ready(command) {
            Ok(change) => Ok(Prepared::Changing(change)),
            Err(_) => Err(Refusal::NoMemory),
        }
    }

    /// Validates a command, and takes all memory that it needs, or answers the first
    /// refusal in the order of [`Refusal`]. Changes nothing that can be seen, and leaves no less room: what
    /// was prepared before can still be settled.
    pub fn prepare(&mut self, command: Command) -> Result<Prepared, Refusal>
        ensures setting { self.new.setting ≡ self.old.setting }
        ensures forgotten { self.new.forgotten ≡ self.old.forgotten }
        ensures journal { self.new.journal ≡ self.old.journal }
        ensures room { HasAtLeast self.old.room self.new.room }
        ensures refused { IfErr result (Refuses self.old command) }
        ensures ready { IfOk result (λ d. IsPreparedFor self.new d) }
        ensures command { IfOk result (λ d. command_of d ≡ command) }
        ensures others { KeepsPrepared self.old self.new }
    {
        self.prepare_in(command, None)
    }

    /// The same for a session whose pool leaves it this room, in bit/s, for the guaranteed rates of all its rules. An
    /// Install or an Activate that would bring them over it is refused: uplink with [`Refusal::PoolUp`], and then
    /// downlink with [`Refusal::PoolDown`], after every other refusal and before out of memory.
    pub fn prepare_within(&mut self, command: Command, room: Sums) -> Result<Prepared, Refusal>
        ensures setting { self.new.setting ≡ self.old.setting }
        ensures forgotten { self.new.forgotten ≡ self.old.forgotten }
        ensures journal { self.new.journal ≡ self.old.journal }
        ensures room { HasAtLeast self.old.room self.new.room }
        ensures refused { IfErr result (RefusesWithin self.old command (Some room)) }
        ensures accepted { OnOk result (AcceptsWithin self.old command (Some room)) }
        ensures ready { IfOk result (λ d. IsPreparedFor self.new d) }
        ensures command { IfOk result (λ d. command_of d ≡ command) }
        ensures others { KeepsPrepared self.old self.new }
    {
        self.prepare_in(command, Some(room))
    }
}
