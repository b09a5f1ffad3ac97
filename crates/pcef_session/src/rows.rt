//! Rows that are taken over.

ghost use Rattle.std.specs.Prelude.{◌≡◌, ◌≤◌, ◌<◌, ◌+◌, ◌^◌, ◌++◌, ◌∷◌, [], get_or, length, map, vec_capacity, IfOk};
ghost use Rattle.pcef_journal.specs.Lanes.{just_attached};
ghost use Rattle.pcef_model.specs.Reports.{with_rows};
ghost use Rattle.pcef_model.specs.Outcomes.{judged_of};
ghost use Rattle.pcef_session.specs.private.TakenRows.{CanCountAll, IsTaken, with_lane};
ghost use Rattle.pcef_session.specs.Following.{row_of, row_slots};
ghost use Rattle.pcef_usage.specs.Flushes.{rows_counted};

use crate::batch::Item;
use pcef_journal::Lanes;
use pcef_model::{Judged, Row, Verdict};
use pcef_usage::CountedJournal;
use std::alloc::{AllocError, Global};

/// Adds the verdict of a row. Each variant is copied where it is added, or the copy would be copied again.
fn note_row(judged: &mut Vec<Judged>, row: &Row)
    requires { length judged.old.items < vec_capacity judged.old }
    ensures judged { judged.new.items ≡ judged.old.items ++ judged_of row.now ∷ [] }
    ensures capacity { vec_capacity judged.new ≡ vec_capacity judged.old }
{
    let generation = row.generation;
    match &row.verdict {
        Verdict::Stray => judged.push_reserved(Judged {
            generation,
            verdict: Verdict::Stray,
        }),
        Verdict::Unmatched => judged.push_reserved(Judged {
            generation,
            verdict: Verdict::Unmatched,
        }),
        Verdict::Gated { rule } => judged.push_reserved(Judged {
            generation,
            verdict: Verdict::Gated { rule: rule.copy() },
        }),
        Verdict::Passed { rule, bearer } => judged.push_reserved(Judged {
            generation,
            verdict: Verdict::Passed {
                rule: rule.copy(),
                bearer: *bearer,
            },
        }),
    }
}

/// The verdicts of rows.
pub(crate) fn note_rows(alloc: Global, items: &[Item]) -> Result<Vec<Judged>, AllocError>
    ensures { IfOk result (λ v. v.items ≡ map judged_of (map row_of items.now)) }
{
    let mut judged = Vec::with_capacity(alloc, items.len())?;
    for item in items {
        note_row(&mut judged, &item.row);
    }
    Ok(judged)
}

/// Adds rows to the journal and counts their octets. Takes no memory.
pub(crate) fn take_rows(counted: &mut CountedJournal, items: &[Item])
    requires room { length items.now ≤ counted.old.room }
    requires fits { CanCountAll items.now counted.old.states }
    ensures journal { counted.new.journal ≡ with_rows (map row_of items.now) counted.old.journal }
    ensures forgotten { counted.new.forgotten ≡ counted.old.forgotten }
    ensures states { counted.new.states
        ≡ rows_counted row_of row_slots items.now counted.old.states }
    ensures room { counted.old.room ≤ counted.new.room + length items.now }
{
    for item in items {
        counted.take_row(&item.row, item.slots.as_slice());
    }
}

/// A worker's lane grows by its rows. No rows change nothing.
pub(crate) fn lengthen(lanes: &mut Lanes, worker: u8, items: &[Item])
    requires came { worker < length lanes.old }
    requires fits { (get_or lanes.old worker just_attached).rows + length items.now < 2 ^ 64 }
    ensures { lanes.new ≡ with_lane worker (map row_of items.now) lanes.old }
{
    if let Some(newest) = items.last() {
        lanes.lengthen(worker, items.len() as u64, newest.row.generation);
    }
}

/// Adds rows to the journal, counts their octets and reports the thresholds. No rows change nothing. Takes no memory.
pub(crate) fn take_all(counted: &mut CountedJournal, items: &[Item], subscribed: bool)
    requires room { length items.now + 8 ≤ counted.old.room }
    requires few { length counted.old.states ≤ 8 }
    requires fits { CanCountAll items.now counted.old.states }
    ensures taken { IsTaken subscribed items.now counted.old counted.new }
    ensures forgotten { counted.new.forgotten ≡ counted.old.forgotten }
    ensures room { counted.old.room ≤ counted.new.room + length items.now + 8 }
{
    if items.is_empty() {
        return;
    }
    take_rows(counted, items);
    counted.report_thresholds(subscribed);
}
