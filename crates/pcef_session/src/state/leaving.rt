//! Workers that leave.

ghost use Rattle.std.specs.Prelude.{◌≡◌, ◌≤◌, [], IfNone, OnErr, OnOk, length, true};
ghost use Rattle.pcef_model.specs.Entries.{lane};
ghost use Rattle.pcef_model.specs.Outcomes.{abandon_outcome};
ghost use Rattle.pcef_model.specs.Journals.{attached, lane_len};
ghost use Rattle.pcef_model.specs.Refusals.{is_attached};
ghost use Rattle.pcef_model.specs.Reports.{after_leave};
ghost use Rattle.pcef_session.specs.Answers.{AnswersFinish, IsLaneEnd, MayComeNext};
ghost use Rattle.pcef_session.specs.Following.{HasFewKeys, HasItsSlots, HasSmallRows};
ghost use Rattle.pcef_session.specs.SessionModel.{HasAtLeast};

use super::SessionState;
use crate::batch::{Batch, Item};
use pcef_journal::LaneEnd;
use pcef_model::{Entry, FlushRefusal, Verdicts};

impl SessionState {
    /// Where a worker's lane ends, and whether the worker is attached; or `None` of a worker that was never attached,
    /// which has no rows.
    pub fn lane_end(&self, worker: u8) -> Option<LaneEnd>
        ensures end { IsLaneEnd self.now.journal worker result }
        ensures none { IfNone result (lane self.now.journal worker ≡ []) }
    {
        self.lanes.get(worker).copied()
    }

    /// Whether a worker is attached.
    pub fn is_attached(&self, worker: u8) -> bool
        ensures { result ≡ is_attached self.now.journal worker }
    {
        self.lanes.is_attached(worker)
    }

    /// How many workers are attached, at most 16.
    pub fn attached_count(&self) -> usize
        ensures number { result ≡ length (attached self.now.journal) }
        ensures most { result ≤ 16 }
    {
        self.lanes.attached_count()
    }

    /// How many rows of a worker the journal has.
    pub fn lane_len(&self, worker: u8) -> u64
        ensures { result ≡ lane_len self.now.journal worker }
    {
        self.lanes.rows(worker)
    }

    /// A worker that is attached leaves. Rows that wait with it never reach the journal. Takes no memory.
    pub fn detach(&mut self, worker: u8)
        requires { is_attached self.old.journal worker ≡ true }
        ensures journal { self.new.journal ≡ after_leave worker self.old.journal }
        ensures setting { self.new.setting ≡ self.old.setting }
        ensures forgotten { self.new.forgotten ≡ self.old.forgotten }
    {
        self.lanes.leave(worker);
        self.counted.enter(Entry::Leave(worker));
    }

    /// Takes over a worker's last rows and lets it leave. Gives the length of its lane too. Takes memory, and is
    /// refused, as [`SessionState::flush`]; a refusal changes nothing, and the worker stays attached.
    pub fn finish(&mut self, worker: u8, batch: &Batch) -> Result<(Verdicts, u64), FlushRefusal>
        requires follow { MayComeNext self.old worker batch.now }
        requires slots { HasItsSlots self.old.setting self.old.journal batch.now }
        ensures answer { AnswersFinish self.old worker batch.now result self.new }
        ensures few_keys { OnOk result (HasFewKeys self.old.setting self.old.journal) }
        ensures setting { self.new.setting ≡ self.old.setting }
        ensures forgotten { self.new.forgotten ≡ self.old.forgotten }
        ensures room { OnErr result (HasAtLeast self.old.room self.new.room) }
    {
        self.finish_items(worker, batch.items())
    }

    /// The same for rows in a list of the caller's.
    pub fn finish_items(
        &mut self,
        worker: u8,
        items: &[Item],
    ) -> Result<(Verdicts, u64), FlushRefusal>
        requires follow { MayComeNext self.old worker items.now }
        requires slots { HasItsSlots self.old.setting self.old.journal items.now }
        requires octets { HasSmallRows items.now }
        ensures answer { AnswersFinish self.old worker items.now result self.new }
        ensures few_keys { OnOk result (HasFewKeys self.old.setting self.old.journal) }
        ensures setting { self.new.setting ≡ self.old.setting }
        ensures forgotten { self.new.forgotten ≡ self.old.forgotten }
        ensures room { OnErr result (HasAtLeast self.old.room self.new.room) }
    {
        match self.flush_items(worker, items) {
            Err(refusal) => Err(refusal),
            Ok(verdicts) => {
                let rows = self.lane_len(worker);
                self.detach(worker);
                Ok((verdicts, rows))
            }
        }
    }

    /// Lets a worker leave without its waiting rows, which get no verdict, and returns the length of its lane. One that
    /// isn't attached stays away. Takes no memory.
    pub fn abandon(&mut self, worker: u8) -> u64
        ensures rows { result ≡ (abandon_outcome self.old.journal worker).0 }
        ensures journal { self.new.journal ≡ (abandon_outcome self.old.journal worker).1 }
        ensures setting { self.new.setting ≡ self.old.setting }
        ensures forgotten { self.new.forgotten ≡ self.old.forgotten }
    {
        let rows = self.lane_len(worker);
        if self.is_attached(worker) {
            self.detach(worker);
        }
        rows
    }
}
