//! Rows that are taken over.

ghost use Rattle.std.specs.Prelude.{◌≡◌, ◌≤◌, ◌+◌, IfOk, OnErr, OnOk, length, map};
ghost use Rattle.pcef_model.specs.Entries.{rows};
ghost use Rattle.pcef_model.specs.Reports.{after_flush};
ghost use Rattle.pcef_model.specs.Outcomes.{flush_answer, flush_answer_of};
ghost use Rattle.pcef_session.specs.Answers.{AnswersFlush, MayComeNext};
ghost use Rattle.pcef_session.specs.Following.{HasFewKeys, HasItsSlots, HasSmallRows, row_of};
ghost use Rattle.pcef_session.specs.SessionModel.{HasAtLeast};
ghost use Rattle.pcef_session.specs.private.Sessions.{AcceptsRows};
ghost use Rattle.pcef_model.specs.Refusals.{first_of, flush_refusals};

use super::SessionState;
use crate::batch::{Batch, Item};
use crate::rows::{lengthen, note_rows, take_all};
use pcef_model::{FlushRefusal, Profile, Verdicts};
use std::alloc::AllocError;

/// How many rows a journal takes.
fn rows_of(profile: &Profile) -> u64
    ensures rows { result ≡ profile.now.rows }
    ensures most { result ≤ 4294967295 }
{
    u64::from(profile.rows)
}

impl SessionState {
    /// Why rows of a worker aren't taken over, out of memory aside.
    pub fn flush_refusal(&self, worker: u8, count: usize) -> Option<FlushRefusal>
        ensures { result
            ≡ first_of (flush_refusals self.now.setting self.now.journal worker count) }
    {
        if !self.is_attached(worker) {
            return Some(FlushRefusal::NotAttached);
        }
        if self
            .counted
            .journal()
            .rows_len()
            .saturating_add(count as u64)
            > rows_of(&self.profile)
        {
            return Some(FlushRefusal::RowsFull);
        }
        None
    }

    /// Adds rows to the journal, counts their octets and reports the thresholds. Where there is no memory for them,
    /// changes nothing that can be seen but room.
    fn take_over(&mut self, worker: u8, items: &[Item]) -> Result<Verdicts, AllocError>
        requires accepted { AcceptsRows self.old worker (length items.now) }
        requires follow { MayComeNext self.old worker items.now }
        requires slots { HasItsSlots self.old.setting self.old.journal items.now }
        requires octets { HasSmallRows items.now }
        ensures flush_answer { IfOk result (λ v. flush_answer_of v
            ≡ flush_answer (map row_of items.now) self.old.journal self.new.journal) }
        ensures taken { OnOk result (self.new.journal
            ≡ after_flush self.old.setting self.old.journal (map row_of items.now)) }
        ensures few_keys { OnOk result (HasFewKeys self.old.setting self.old.journal) }
        ensures kept { OnErr result (self.new.journal ≡ self.old.journal) }
        ensures setting { self.new.setting ≡ self.old.setting }
        ensures forgotten { self.new.forgotten ≡ self.old.forgotten }
        ensures room { OnErr result (HasAtLeast self.old.room self.new.room) }
    {
        let judged = note_rows(self.alloc, items)?;
        self.counted
            .reserve(items.len() + 8 + self.lanes.attached_count())?;
        let first_report = self.counted.journal().reports_len();
        lengthen(&mut self.lanes, worker, items);
        take_all(&mut self.counted, items, self.subscribed.usage_report);
        Ok(Verdicts {
            rows: judged,
            first_report,
            past_last_report: self.counted.journal().reports_len(),
        })
    }

    /// Takes over a worker's waiting rows, all or none. The rows have to be the worker's next ones, each
    /// with the verdict of its own generation and the slots of the keys that it counts for. Takes memory for the
    /// rows, their verdicts and the reports. Refused, in this order, where the worker isn't attached, where the
    /// journal would hold more rows than the profile allows, and when out of memory; a refusal leaves no less room.
    pub fn flush(&mut self, worker: u8, batch: &Batch) -> Result<Verdicts, FlushRefusal>
        requires follow { MayComeNext self.old worker batch.now }
        requires slots { HasItsSlots self.old.setting self.old.journal batch.now }
        ensures answer { AnswersFlush self.old worker batch.now result self.new }
        ensures few_keys { OnOk result (HasFewKeys self.old.setting self.old.journal) }
        ensures setting { self.new.setting ≡ self.old.setting }
        ensures forgotten { self.new.forgotten ≡ self.old.forgotten }
        ensures room { OnErr result (HasAtLeast self.old.room self.new.room) }
    {
        self.flush_items(worker, batch.items())
    }

    /// The same for rows in a list of the caller's.
    pub fn flush_items(&mut self, worker: u8, items: &[Item]) -> Result<Verdicts, FlushRefusal>
        requires follow { MayComeNext self.old worker items.now }
        requires slots { HasItsSlots self.old.setting self.old.journal items.now }
        requires octets { HasSmallRows items.now }
        ensures answer { AnswersFlush self.old worker items.now result self.new }
        ensures few_keys { OnOk result (HasFewKeys self.old.setting self.old.journal) }
        ensures setting { self.new.setting ≡ self.old.setting }
        ensures forgotten { self.new.forgotten ≡ self.old.forgotten }
        ensures room { OnErr result (HasAtLeast self.old.room self.new.room) }
    {
        if let Some(refusal) = self.flush_refusal(worker, items.len()) {
            return Err(refusal);
        }
        match self.take_over(worker, items) {
            Ok(verdicts) => Ok(verdicts),
            Err(_) => Err(FlushRefusal::NoMemory),
        }
    }
}
