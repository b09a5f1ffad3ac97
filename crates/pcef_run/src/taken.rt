//! What reporters take.

ghost use Rattle.std.specs.Prelude.{◌≡◌, []};

use pcef_journal::History;
use pcef_model::Report;
use pcef_trigger::{Answer, ReportKind, Reporter};
use std::alloc::Global;
use std::marker::Model;
use std::sync::Arc;
use std::sync::atomic::{AtomicU64, Ordering};

/// How many reports of each kind were taken.
#[derive(Clone, Copy, Debug, PartialEq, Eq)]
pub struct Counts {
    /// Of usage.
    pub usage: u64,
    /// Of access events.
    pub access: u64,
    /// Of rules that became inactive.
    pub inactive: u64,
}

/// How many reports of each kind the reporters [`Storing`] took so far.
#[derive(Drop)]
pub struct Taken {
    /// Of usage.
    pub usage: AtomicU64,
    /// Of access events.
    pub access: AtomicU64,
    /// Of rules that became inactive.
    pub inactive: AtomicU64,
}

impl Taken {
    /// None was taken yet.
    pub fn new() -> Taken {
        Taken {
            usage: AtomicU64::new(0),
            access: AtomicU64::new(0),
            inactive: AtomicU64::new(0),
        }
    }

    /// How many these are.
    pub fn counts(&self) -> Counts {
        Counts {
            usage: self.usage.load(Ordering::SeqCst),
            access: self.access.load(Ordering::SeqCst),
            inactive: self.inactive.load(Ordering::SeqCst),
        }
    }

    fn count_of(&self, kind: ReportKind) -> &AtomicU64 {
        match kind {
            ReportKind::Usage => &self.usage,
            ReportKind::Access => &self.access,
            ReportKind::Inactive => &self.inactive,
        }
    }
}

/// Keeps the reports of a kind that it takes, and counts them. It refuses one for which it finds no memory. Contracts
/// see its kind and its lists, which they alone read; `pcef` prints the counts.
#[derive(Drop)]
pub struct Storing {
    asked: History<Report>,
    reports: Vec<Report>,
    kind: ReportKind,
    taken: Arc<Taken>,
}

impl Model for Storing {
    ghost use Rattle.std.specs.Prelude.{reverse};
    ghost use Rattle.pcef_run.specs.Reporters.{StoringModel};

    ghost Value = { StoringModel };

    ghost view = { λ s. record {
      kind = s.kind;
      asked = reverse s.asked.items;
      taken = s.reports.items;
    } };
}

impl Storing {
    /// A reporter of this kind that took none yet. Takes no memory.
    pub fn new(alloc: Global, kind: ReportKind, taken: Arc<Taken>) -> Storing
        ensures { result ≡ record { kind = kind; asked = []; taken = [] } }
    {
        Storing {
            asked: History::new(),
            reports: Vec::new(alloc),
            kind,
            taken,
        }
    }
}

impl Reporter for Storing {
    ghost asked = { λ s. s.asked };

    ghost taken = { λ s. s.taken };

    fn report(&mut self, report: &Report) -> Answer {
        self.asked = self.asked.then(report);
        match self.reports.push(report.copy()) {
            Ok(()) => {
                self.taken
                    .count_of(self.kind)
                    .fetch_add(1, Ordering::SeqCst);
                Answer::Taken
            }
            Err(_) => Answer::Refused,
        }
    }
}
