//! The journal.

ghost use Rattle.std.specs.Prelude.{◌≡◌, ◌<◌, ◌≤◌, ◌+◌, [], ◌∷◌, drop, length, reverse, IsOk, OnOk};
ghost use Rattle.pcef_model.specs.Entries.{commands, reports, rows};

use crate::history::History;
use crate::walk::Reports;
use pcef_model::{Entry, Report, Row};
use std::alloc::{AllocError, Global};
use std::marker::Model;

/// What happened in a session, entry by entry. Entries are added and never changed.
///
/// The entries themselves are not stored: only how many commands, rows and reports there are, and the reports that
/// weren't forgotten yet. The entries stand in the contracts, as a history that takes no memory.
pub struct Journal {
    history: History<Entry>,
    commands: u64,
    rows: u64,
    report_total: u64,
    forgotten: u64,
    reports: Vec<Report>,
}

// Written out, so that an owner proves one call on each return path.
impl Drop for Journal {
    fn drop(self) {
        let Journal {
            history: _,
            commands: _,
            rows: _,
            report_total: _,
            forgotten: _,
            reports: _,
        } = self;
    }
}

impl Model for Journal {
    ghost use Rattle.pcef_journal.specs.KeptJournal.{KeptJournal};

    ghost Value = { KeptJournal };

    ghost use Rattle.pcef_journal.specs.JournalView.{kept_journal};
    ghost use Rattle.pcef_journal.specs.JournalView.{CountsAgree};

    ghost view = { kept_journal };

    ghost invariant = { CountsAgree };
}

impl Journal {
    /// A journal without entries. Takes no memory.
    pub fn new(alloc: Global) -> Journal
        ensures entries { result.entries ≡ [] }
        ensures forgotten { result.forgotten ≡ 0 }
    {
        Journal {
            history: History::new(),
            commands: 0,
            rows: 0,
            report_total: 0,
            forgotten: 0,
            reports: Vec::new(alloc),
        }
    }

    /// Takes memory for `additional` more entries. When out of memory, nothing has changed but the room. Where there is
    /// room already, none is taken.
    pub fn reserve(&mut self, additional: usize) -> Result<(), AllocError>
        ensures entries { self.new.entries ≡ self.old.entries }
        ensures forgotten { self.new.forgotten ≡ self.old.forgotten }
        ensures room { OnOk result (additional ≤ self.new.room) }
        ensures kept { self.old.room ≤ self.new.room }
        ensures enough { additional ≤ self.old.room → IsOk result }
    {
        let most = self.commands.max(self.rows).max(self.report_total);
        if u64::MAX - most < additional as u64 {
            return Err(AllocError);
        }
        // A session that forgets its reports keeps no more room than it ever asked for at once.
        if self.reports.is_empty() {
            self.reports.reserve_exact(additional)
        } else {
            self.reports.reserve(additional)
        }
    }

    /// Adds an entry. Takes no memory.
    pub fn append(&mut self, entry: Entry)
        requires { 0 < self.old.room }
        ensures entries { self.new.entries ≡ entry ∷ self.old.entries }
        ensures forgotten { self.new.forgotten ≡ self.old.forgotten }
        ensures room { self.old.room ≤ self.new.room + 1 }
    {
        self.history = self.history.then(&entry);
        match entry {
            Entry::Command(_command) => self.commands += 1,
            Entry::Attach(_worker) => {}
            Entry::Leave(_worker) => {}
            Entry::Row(_row) => self.rows += 1,
            Entry::Report(report) => {
                self.report_total += 1;
                self.reports.push_reserved(report);
            }
        }
    }

    /// Adds a packet row, of which nothing is stored: it is counted. Takes no memory.
    pub fn append_row(&mut self, row: &Row)
        requires { 0 < self.old.room }
        ensures entries { self.new.entries ≡ Entry.Row row.now ∷ self.old.entries }
        ensures forgotten { self.new.forgotten ≡ self.old.forgotten }
        ensures room { self.old.room ≤ self.new.room + 1 }
    {
        // The copy is for the proof: nothing reads it, and no code is made for it.
        self.history = self.history.then(&Entry::Row(row.copy()));
        let rows = &mut self.rows;
        *rows += 1;
    }

    /// How many packet rows there are.
    pub fn rows_len(&self) -> u64
        ensures { result ≡ length (rows self.now.entries) }
    {
        self.rows
    }

    /// How many commands there are.
    pub fn commands_len(&self) -> u64
        ensures { result ≡ length (commands self.now.entries) }
    {
        self.commands
    }

    /// How many reports there are, which is the number of the next one.
    pub fn reports_len(&self) -> u64
        ensures { result ≡ length (reports self.now.entries) }
    {
        self.report_total
    }

    /// How many of the oldest reports are forgotten: no more than there are.
    pub fn forgotten(&self) -> u64
        ensures count { result ≡ self.now.forgotten }
        ensures few { self.now.forgotten ≤ length (reports self.now.entries) }
    {
        self.forgotten
    }

    /// The reports from this number on, in order. None of them may be forgotten.
    pub fn reports_from(&self, number: u64) -> Reports<'_>
        requires { self.now.forgotten ≤ number }
        ensures { result ≡ drop number (reverse (reports self.now.entries)) }
    {
        let after = (number - self.forgotten) as usize;
        Reports::new(self.reports.as_slice().get(after..).unwrap_or(&[]))
    }

    /// Forgets all reports, which are still counted. The memory that they took serves for the next ones.
    pub fn forget(&mut self)
        ensures entries { self.new.entries ≡ self.old.entries }
        ensures forgotten { self.new.forgotten ≡ length (reports self.old.entries) }
        ensures room { self.old.room ≤ self.new.room }
    {
        self.forgotten = self.report_total;
        self.reports.clear();
    }
}
