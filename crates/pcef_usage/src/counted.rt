//! The journal, and the counters that go with it.

ghost use Rattle.std.specs.Prelude.{◌≡◌, ◌<◌, ◌≤◌, ◌+◌, [], ◌∷◌, length, false, true, IsOk, OnOk, Some, All};
ghost use Rattle.std.specs.Option.{option_copied};
ghost use Rattle.pcef_model.specs.Commands.{is_among};
ghost use Rattle.pcef_model.specs.Entries.{reports};
ghost use Rattle.pcef_model.specs.Journals.{ends_grant};
ghost use Rattle.pcef_usage.specs.Counted.{IsEvent};
ghost use Rattle.pcef_usage.specs.Keys.{CanCount, HasPlaceFor, at_place, finds_no_place, keys_of, slot_place, reported_on, started, state_at, stopped, with_octets, with_slot, with_started};
ghost use Rattle.pcef_usage.specs.PendingReports.{Knows, KnowsAll, after_stop, after_report, body_by, states_stopped, after_reports, thresholds_at, after_thresholds, with_report, thresholds_told, appended};

use crate::usage::{KeyPlaces, KeyState, Usage};
use pcef_journal::Journal;
use pcef_model::{Body, Cause, Entry, InactiveCause, Level, PendingReport, Report, Row};
use pcef_rule::{KeyName, Slot};
use std::alloc::{AllocError, Global};
use std::marker::Model;

/// A journal, and the counters of its keys.
pub struct CountedJournal {
    journal: Journal,
    usage: Usage,
}

// Written out, so that an owner proves one call on each return path.
impl Drop for CountedJournal {
    fn drop(self) {
        let CountedJournal {
            journal: _,
            usage: _,
        } = self;
    }
}

impl Model for CountedJournal {
    ghost use Rattle.pcef_usage.specs.Counted.{Counted};

    ghost Value = { Counted };

    ghost use Rattle.pcef_usage.specs.CountedView.{counted_of};

    ghost view = { counted_of };
}

impl CountedJournal {
    /// An empty journal in which no key has a slot. Takes no memory.
    pub fn new(alloc: Global) -> CountedJournal
        ensures journal { result.journal ≡ [] }
        ensures forgotten { result.forgotten ≡ 0 }
        ensures states { result.states ≡ [] }
    {
        CountedJournal {
            journal: Journal::new(alloc),
            usage: Usage::new(alloc),
        }
    }

    /// Takes memory for `additional` more entries. Fails when out of memory.
    pub fn reserve(&mut self, additional: usize) -> Result<(), AllocError>
        ensures journal { self.new.journal ≡ self.old.journal }
        ensures forgotten { self.new.forgotten ≡ self.old.forgotten }
        ensures states { self.new.states ≡ self.old.states }
        ensures room { OnOk result (additional ≤ self.new.room) }
        ensures kept { self.old.room ≤ self.new.room }
        ensures enough { additional ≤ self.old.room → IsOk result }
    {
        self.journal.reserve(additional)
    }

    /// Appends an entry that is neither a report nor a row. Takes no memory.
    pub fn enter(&mut self, entry: Entry)
        requires event { IsEvent entry }
        requires room { 0 < self.old.room }
        ensures journal { self.new.journal ≡ entry ∷ self.old.journal }
        ensures forgotten { self.new.forgotten ≡ self.old.forgotten }
        ensures states { self.new.states ≡ self.old.states }
        ensures room { self.old.room ≤ self.new.room + 1 }
    {
        self.journal.append(entry);
    }

    /// Appends a packet row and counts its octets once for the key of each of these slots. Takes no memory.
    pub fn take_row(&mut self, row: &Row, slots: &[Slot])
        requires fits { CanCount slots.now row.now.header.octets self.old.states }
        requires room { 0 < self.old.room }
        ensures journal { self.new.journal ≡ Entry.Row row.now ∷ self.old.journal }
        ensures forgotten { self.new.forgotten ≡ self.old.forgotten }
        ensures states { self.new.states
            ≡ with_octets slots.now row.now.header.octets self.old.states }
        ensures room { self.old.room ≤ self.new.room + 1 }
    {
        count_for(&mut self.usage, slots, row.header.octets);
        self.journal.append_row(row);
    }

    /// Gives a key a slot at this level, unless it has one. Takes no memory but these places.
    pub fn keep_slot(&mut self, key: Option<&KeyName>, level: Level, places: KeyPlaces)
        requires slot { finds_no_place (option_copied key) self.old.states ≡ false }
        requires places { HasPlaceFor (option_copied key) places (keys_of self.old.states) }
        ensures journal { self.new.journal ≡ self.old.journal }
        ensures forgotten { self.new.forgotten ≡ self.old.forgotten }
        ensures states { self.new.states
            ≡ with_slot (option_copied key.entry) level self.old.states }
        ensures room { self.new.room ≡ self.old.room }
    {
        if let Some(key) = key {
            self.usage.keep_slot(key, level, places);
        }
    }

    /// Switches a key on and sets its grant.
    pub fn start(&mut self, key: &KeyName, amount: u64)
        requires { is_among key.now (keys_of self.old.states) ≡ true }
        ensures journal { self.new.journal ≡ self.old.journal }
        ensures forgotten { self.new.forgotten ≡ self.old.forgotten }
        ensures states { self.new.states ≡ with_started key.now amount self.old.states }
        ensures room { self.new.room ≡ self.old.room }
    {
        start_key(&mut self.usage, key, amount);
    }

    /// Switches the keys off whose grants these reports will end.
    pub fn switch_off_reported(&mut self, all_pending: &[PendingReport])
        requires known { KnowsAll (keys_of self.old.states) all_pending.now }
        ensures journal { self.new.journal ≡ self.old.journal }
        ensures forgotten { self.new.forgotten ≡ self.old.forgotten }
        ensures states { self.new.states ≡ states_stopped all_pending.now self.old.states }
        ensures room { self.new.room ≡ self.old.room }
    {
        for pending in all_pending {
            self.stop_if(pending);
        }
    }

    /// Appends these reports in order, with their numbers and octets. Takes no memory.
    pub fn append_reports(&mut self, all_pending: &[PendingReport])
        requires known { KnowsAll (keys_of self.old.states) all_pending.now }
        requires room { length all_pending.now ≤ self.old.room }
        ensures journal { self.new.journal
            ≡ appended all_pending.now self.old.states self.old.journal }
        ensures forgotten { self.new.forgotten ≡ self.old.forgotten }
        ensures states { self.new.states ≡ after_reports all_pending.now self.old.states }
        ensures room { self.old.room ≤ self.new.room + length all_pending.now }
    {
        for pending in all_pending {
            self.append_report(pending);
        }
    }

    /// At the end of an event, while usage reports are subscribed, appends the reports of the grants that
    /// are reached; these are used up then. Takes no memory.
    pub fn report_thresholds(&mut self, subscribed: bool)
        requires { length self.old.states ≤ self.old.room }
        ensures journal { self.new.journal
            ≡ thresholds_told subscribed self.old.states self.old.journal }
        ensures forgotten { self.new.forgotten ≡ self.old.forgotten }
        ensures states { self.new.states ≡ after_thresholds subscribed self.old.states }
        ensures room { self.old.room ≤ self.new.room + length self.old.states }
    {
        let reached = self.usage.settle(subscribed);
        self.append_reached(reached.as_slice());
    }

    /// Forgets all reports, which are still counted. Room stays.
    pub fn forget(&mut self)
        ensures journal { self.new.journal ≡ self.old.journal }
        ensures forgotten { self.new.forgotten ≡ length (reports self.old.journal) }
        ensures states { self.new.states ≡ self.old.states }
        ensures room { self.old.room ≤ self.new.room }
    {
        self.journal.forget();
    }

    /// The journal.
    pub fn journal(&self) -> &Journal
        ensures entries { result.now.entries ≡ self.now.journal }
        ensures forgotten { result.now.forgotten ≡ self.now.forgotten }
    {
        &self.journal
    }

    /// The counters.
    pub fn usage(&self) -> &Usage
        ensures { result.now ≡ self.now.states }
    {
        &self.usage
    }

    fn append_report(&mut self, pending: &PendingReport)
        requires known { Knows (keys_of self.old.states) pending.now }
        requires room { 0 < self.old.room }
        ensures journal { self.new.journal
            ≡ with_report pending.now self.old.states self.old.journal }
        ensures forgotten { self.new.forgotten ≡ self.old.forgotten }
        ensures states { self.new.states ≡ after_report pending.now self.old.states }
        ensures room { self.old.room ≤ self.new.room + 1 }
    {
        let number = self.journal.reports_len();
        let body = fill_in(&mut self.usage, pending);
        self.journal.append(Entry::Report(Report { number, body }));
    }

    fn append_reached(&mut self, reached: &[Slot])
        requires known { All (λ s. s.0 < length self.old.states) reached.now }
        requires room { length reached.now ≤ self.old.room }
        ensures journal { self.new.journal ≡ appended
            (thresholds_at reached.now self.old.states) self.old.states self.old.journal }
        ensures forgotten { self.new.forgotten ≡ self.old.forgotten }
        ensures states { self.new.states
            ≡ after_reports (thresholds_at reached.now self.old.states) self.old.states }
        ensures room { self.old.room ≤ self.new.room + length reached.now }
    {
        for slot in reached {
            let key = self.usage.key(*slot).copy();
            self.append_report(&PendingReport::Usage(key, Cause::Threshold));
        }
    }

    fn stop_if(&mut self, pending: &PendingReport)
        requires known { Knows (keys_of self.old.states) pending.now }
        ensures journal { self.new.journal ≡ self.old.journal }
        ensures forgotten { self.new.forgotten ≡ self.old.forgotten }
        ensures states { self.new.states ≡ after_stop pending.now self.old.states }
        ensures room { self.new.room ≡ self.old.room }
    {
        if let PendingReport::Usage(key, cause) = pending {
            if ends_grant(*cause) {
                stop_key(&mut self.usage, key);
            }
        }
    }
}

fn count_for(usage: &mut Usage, slots: &[Slot], octets: u32)
    requires { CanCount slots.now octets usage.old }
    ensures { usage.new ≡ with_octets slots.now octets usage.old }
{
    for slot in slots {
        usage.count(*slot, octets);
    }
}

fn ends_grant(cause: Cause) -> bool
    ensures { result ≡ ends_grant cause }
{
    cause != Cause::Requested
}

fn fill_in(usage: &mut Usage, pending: &PendingReport) -> Body
    requires { Knows (keys_of usage.old) pending.now }
    ensures body { result ≡ body_by usage.old pending.now }
    ensures states { usage.new ≡ after_report pending.now usage.old }
{
    match pending {
        PendingReport::Inactive(rule) => Body::Inactive {
            rule: rule.copy(),
            cause: InactiveCause::BearerLost,
        },
        PendingReport::Usage(key, cause) => Body::Usage {
            key: key.copy(),
            octets: take_octets(usage, key),
            cause: *cause,
        },
        PendingReport::Access(kind, value) => Body::Access {
            kind: *kind,
            value: value.copy(),
        },
    }
}

fn take_octets(usage: &mut Usage, key: &KeyName) -> u64
    requires { is_among key.now (keys_of usage.old) ≡ true }
    ensures octets { result ≡ (state_at (slot_place key.now usage.old) usage.old).unreported }
    ensures states { usage.new ≡ at_place (slot_place key.now usage.old) reported_on usage.old }
{
    match usage.find(key) {
        Some(slot) => usage.take_report(slot),
        None => unreachable!(),
    }
}

fn stop_key(usage: &mut Usage, key: &KeyName)
    requires { is_among key.now (keys_of usage.old) ≡ true }
    ensures { usage.new ≡ at_place (slot_place key.now usage.old) stopped usage.old }
{
    match usage.find(key) {
        Some(slot) => usage.stop(slot),
        None => unreachable!(),
    }
}

fn start_key(usage: &mut Usage, key: &KeyName, amount: u64)
    requires { is_among key.now (keys_of usage.old) ≡ true }
    ensures { usage.new ≡ at_place (slot_place key.now usage.old) (started amount) usage.old }
{
    match usage.find(key) {
        Some(slot) => usage.start(slot, amount),
        None => unreachable!(),
    }
}
