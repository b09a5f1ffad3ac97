//! The outlet.

ghost use Rattle.std.specs.Prelude.{◌≡◌, ◌∷◌, [], ◌↔◌, ◌≤◌, IfErr, IfOk, IsOk, false, length, take};
ghost use Rattle.pcef_trigger.specs.Kinds.{repeats};
ghost use Rattle.pcef_trigger.specs.Deliveries.{Keeps, RefusesReports, Sends, asked_for};
ghost use Rattle.pcef_trigger.specs.private.Taking.{TakesOne};

use crate::kind::{ReportKind, kind_of, repeats};
use crate::offering::offer;
use crate::reporter::{Answer, Reporter};
use pcef_model::Report;

/// Hands reports on, each to the reporter of its kind: there is at most one for each kind. What contracts see of it is
/// what each of its reporters was asked for, and what it has taken.
pub struct Outlet {
    usage: Option<Box<dyn Reporter + Send>>,
    access: Option<Box<dyn Reporter + Send>>,
    inactive: Option<Box<dyn Reporter + Send>>,
}

// Written out, so that an owner proves one call on each return path.
impl Drop for Outlet {
    fn drop(self) {
        let Outlet {
            usage: _,
            access: _,
            inactive: _,
        } = self;
    }
}

/// How far a delivery came.
#[derive(Clone, Copy, Debug, PartialEq, Eq)]
pub struct Delivered {
    /// How many reports were taken, or have a kind without a reporter. At most as many as there are.
    pub sent: usize,
    /// The number of the report after those, where its reporter refused it. None where all were sent.
    pub refused: Option<u64>,
}

/// Two reporters have one kind. The list is given back.
#[derive(Drop)]
pub struct SameKind {
    /// The list, as it was.
    pub reporters: Vec<(ReportKind, Box<dyn Reporter + Send>)>,
}

impl Outlet {
    /// The outlet of these reporters, at most one of each kind, with what they were asked for and have taken so far; or
    /// the list again, where two have one kind. Takes no memory.
    pub fn new(reporters: Vec<(ReportKind, Box<dyn Reporter + Send>)>) -> Result<Outlet, SameKind>
        ensures keeps { IfOk result (λ o. Keeps (λ b. taken b) o reporters.items) }
        ensures asked { IfOk result (λ o. Keeps (λ b. asked b) o reporters.items) }
        ensures exact { IsOk result ↔ (repeats reporters.items ≡ false) }
        ensures back { IfErr result (λ e. e.reporters ≡ reporters) }
    {
        if repeats(&reporters) {
            return Err(SameKind { reporters });
        }
        Ok(outlet_of(reporters))
    }

    /// Hands one report on.
    fn one(&mut self, report: &Report) -> Answer
        ensures answer { TakesOne (λ b. taken b) self.old report.now result self.new }
        ensures asked { Sends (λ b. asked b) self.old self.new (report.now ∷ []) }
    {
        match kind_of(report) {
            ReportKind::Usage => offer(&mut self.usage, report),
            ReportKind::Access => offer(&mut self.access, report),
            ReportKind::Inactive => offer(&mut self.inactive, report),
        }
    }

    /// Hands reports on in their order, each once to the reporter of its kind, up to the first that is refused. A
    /// report whose kind has no reporter is passed over, and counts as sent. Who goes on from `sent` hands each report
    /// on once ([`deliveries_join`](crate::deliveries_join)). Takes no memory beside that of the reporters.
    #[tactic(auto, using(crate::proofs::Joined::sent_next))]
    pub fn deliver(&mut self, reports: &[Report]) -> Delivered
        ensures sent { result.sent ≤ length reports.now }
        ensures taken { Sends (λ b. taken b) self.old self.new (take result.sent reports.now) }
        ensures refused { RefusesReports (λ b. taken b) self.new reports.now result }
        ensures asked { Sends (λ b. asked b) self.old self.new (asked_for reports.now result.sent result.refused) }
    {
        let mut sent = 0;
        for report in reports {
            match self.one(report) {
                Answer::Taken => sent += 1,
                Answer::Refused => {
                    return Delivered {
                        sent,
                        refused: Some(report.number),
                    };
                }
            }
        }
        Delivered {
            sent,
            refused: None,
        }
    }
}

/// The outlet of these reporters: of each kind the first.
#[tactic(auto, using(crate::proofs::First::list_in_last, crate::proofs::First::or_else_none, crate::proofs::First::or_else_again))]
fn outlet_of(reporters: Vec<(ReportKind, Box<dyn Reporter + Send>)>) -> Outlet
    ensures keeps { Keeps (λ b. taken b) result reporters.items }
    ensures asked { Keeps (λ b. asked b) result reporters.items }
{
    let mut reporters = reporters;
    let mut outlet = Outlet {
        usage: None,
        access: None,
        inactive: None,
    };
    while let Some((kind, to)) = reporters.pop() {
        match kind {
            ReportKind::Usage => outlet.usage = Some(to),
            ReportKind::Access => outlet.access = Some(to),
            ReportKind::Inactive => outlet.inactive = Some(to),
        }
    }
    outlet
}
