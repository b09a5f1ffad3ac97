//! Rows as a journal keeps them: the name of a row's rule stands elsewhere, once for all rows.

ghost use Rattle.std.specs.Prelude.{◌≡◌, ◌<◌, ◌≤◌, ◌+◌, length};
ghost use Rattle.pcef_journaled.specs.KeptNames.{NamesGoOn};
ghost use Rattle.pcef_journaled.specs.KeptRows.{HasPlaceBelow, kept_name, row_of_kept, verdict_of_kept};

use crate::names::Names;
use pcef_model::{Row, Verdict};
use pcef_packet::PackedHeader;
use pcef_rule::{BearerId, RuleName};
use std::mem::size_of;

/// What a generation decided of a packet, without the name of the rule.
#[derive(Clone, Copy)]
pub(crate) enum KeptVerdict {
    /// The address isn't the session's.
    Stray,
    /// No active rule fits.
    Unmatched,
    /// The rule's gate is closed.
    Gated,
    /// The rule's gate is open, and it is bound to this bearer.
    Passed(BearerId),
}

/// A row without the name of its rule.
#[derive(Drop)]
pub(crate) struct KeptRow {
    seq: u64,
    generation: u32,
    // The place of the rule's name, if the verdict speaks of a rule.
    rule: u32,
    header: PackedHeader,
    verdict: KeptVerdict,
    worker: u8,
}

const _: () = prove!(size_of::<KeptRow>() == 72);

/// The name at a place.
fn name_at(names: &[RuleName], place: u32) -> RuleName
    requires { place < length names.now }
    ensures { result ≡ kept_name names.now place }
{
    names[place as usize].copy()
}

/// What is kept of a verdict, and the place of its rule's name, which is added where it is new.
fn keep_verdict(verdict: &Verdict, names: &mut Names) -> (u32, KeptVerdict)
    requires { 0 < names.old.room }
    ensures verdict { verdict_of_kept names.new.names result.0 result.1 ≡ verdict.now }
    ensures place { HasPlaceBelow (length names.new.names) result.0 result.1 }
    ensures names { NamesGoOn names.old.names names.new.names }
    ensures room { names.old.room ≤ names.new.room + 1 }
{
    match verdict {
        Verdict::Stray => (0, KeptVerdict::Stray),
        Verdict::Unmatched => (0, KeptVerdict::Unmatched),
        Verdict::Gated { rule } => (names.place_of(rule), KeptVerdict::Gated),
        Verdict::Passed { rule, bearer } => (names.place_of(rule), KeptVerdict::Passed(*bearer)),
    }
}

impl KeptRow {
    /// What is kept of a row. The name of its rule is added where it is new. Takes no memory.
    pub(crate) fn new(row: &Row, names: &mut Names) -> KeptRow
        requires { 0 < names.old.room }
        ensures row { row_of_kept names.new.names result ≡ row.now }
        ensures place { HasPlaceBelow (length names.new.names) result.rule result.verdict }
        ensures names { NamesGoOn names.old.names names.new.names }
        ensures room { names.old.room ≤ names.new.room + 1 }
    {
        let (rule, verdict) = keep_verdict(&row.verdict, names);
        KeptRow {
            seq: row.seq,
            generation: row.generation,
            rule,
            header: PackedHeader::new(&row.header),
            verdict,
            worker: row.worker,
        }
    }

    /// The worker.
    pub(crate) fn worker(&self) -> u8
        ensures { result ≡ self.now.worker }
    {
        self.worker
    }

    /// The verdict, with the name of its rule.
    fn verdict(&self, names: &[RuleName]) -> Verdict
        requires { HasPlaceBelow (length names.now) self.now.rule self.now.verdict }
        ensures { result ≡ verdict_of_kept names.now self.now.rule self.now.verdict }
    {
        match self.verdict {
            KeptVerdict::Stray => Verdict::Stray,
            KeptVerdict::Unmatched => Verdict::Unmatched,
            KeptVerdict::Gated => Verdict::Gated {
                rule: name_at(names, self.rule),
            },
            KeptVerdict::Passed(bearer) => Verdict::Passed {
                rule: name_at(names, self.rule),
                bearer,
            },
        }
    }

    /// The row, with the name of its rule. Takes no memory.
    pub(crate) fn row(&self, names: &[RuleName]) -> Row
        requires { HasPlaceBelow (length names.now) self.now.rule self.now.verdict }
        ensures { result ≡ row_of_kept names.now self.now }
    {
        Row {
            seq: self.seq,
            generation: self.generation,
            worker: self.worker,
            header: self.header.header(),
            verdict: self.verdict(names),
        }
    }
}
