//! Reporters that keep what they take, on outlets.

ghost use Rattle.std.specs.Prelude.{reverse};

use crate::tests::expect_equal;
use pcef_journal::History;
use pcef_model::{AccessKind, Body, Cause, InactiveCause, NoticeValue, Report};
use pcef_rule::{KeyName, RuleName};
use pcef_trigger::{Answer, Delivered, Outlet, ReportKind, Reporter, SameKind, deliveries_join};
use std::alloc::{AllocError, Global};
use std::sync::Arc;
use std::sync::atomic::{AtomicU64, Ordering};
use std::test::Fail;

/// What the reporters of each kind wrote down: a 7, and behind it the number of each report that they took, as decimal
/// digits.
#[derive(Drop)]
struct Written {
    usage: AtomicU64,
    access: AtomicU64,
    inactive: AtomicU64,
}

impl Written {
    fn new() -> Written {
        Written {
            usage: AtomicU64::new(7),
            access: AtomicU64::new(7),
            inactive: AtomicU64::new(7),
        }
    }

    fn of(&self, kind: ReportKind) -> &AtomicU64 {
        match kind {
            ReportKind::Usage => &self.usage,
            ReportKind::Access => &self.access,
            ReportKind::Inactive => &self.inactive,
        }
    }

    fn write(&self, kind: ReportKind, number: u64) {
        let digits = self.of(kind).load(Ordering::SeqCst);
        self.of(kind).store(
            digits.saturating_mul(10).saturating_add(number),
            Ordering::SeqCst,
        );
    }

    /// The digits of usage, of access events and of inactive rules.
    fn digits(&self) -> [u64; 3] {
        [
            self.usage.load(Ordering::SeqCst),
            self.access.load(Ordering::SeqCst),
            self.inactive.load(Ordering::SeqCst),
        ]
    }
}

/// Keeps what it takes, and writes the numbers down. Its call of a certain number is refused.
#[derive(Drop)]
struct Keeper {
    asked: History<Report>,
    reports: Vec<Report>,
    written: Arc<Written>,
    kind: ReportKind,
    calls: u64,
    refuses_at: u64,
}

impl Reporter for Keeper {
    ghost asked = { λ k. reverse k.asked.items };

    ghost taken = { λ k. k.reports.items };

    fn report(&mut self, report: &Report) -> Answer {
        self.asked = self.asked.then(report);
        self.calls = self.calls.saturating_add(1);
        if self.calls == self.refuses_at {
            return Answer::Refused;
        }
        match self.reports.push(report.copy()) {
            Ok(()) => {
                self.written.write(self.kind, report.number);
                Answer::Taken
            }
            Err(_) => Answer::Refused,
        }
    }
}

/// A kind of reporters, and which of its reporter's calls is refused (0: none).
type Row = (ReportKind, u64);

/// Appends a reporter.
fn add_keeper(
    alloc: Global,
    written: &Arc<Written>,
    row: Row,
    reporters: &mut Vec<(ReportKind, Box<dyn Reporter + Send>)>,
) -> Result<(), AllocError> {
    let (kind, refuses_at) = row;
    let keeper = Keeper {
        asked: History::new(),
        reports: Vec::new(alloc),
        written: Arc::try_clone(written)?,
        kind,
        calls: 0,
        refuses_at,
    };
    let keeper: Box<dyn Reporter + Send> = Box::new(alloc, keeper)?;
    reporters.push((kind, keeper))?;
    Ok(())
}

/// The outlet of these reporters, or the list again.
fn outlet_of(
    alloc: Global,
    written: &Arc<Written>,
    rows: &[Row],
) -> Result<Result<Outlet, SameKind>, AllocError> {
    let mut reporters = Vec::new(alloc);
    for row in rows {
        add_keeper(alloc, written, *row, &mut reporters)?;
    }
    Ok(Outlet::new(reporters))
}

fn body_of(kind: ReportKind) -> Option<Body> {
    match kind {
        ReportKind::Usage => Some(Body::Usage {
            key: KeyName::new("vid").ok()?,
            octets: 28,
            cause: Cause::Requested,
        }),
        ReportKind::Access => Some(Body::Access {
            kind: AccessKind::RatChange,
            value: NoticeValue::new("eutran").ok()?,
        }),
        ReportKind::Inactive => Some(Body::Inactive {
            rule: RuleName::new("voice").ok()?,
            cause: InactiveCause::BearerLost,
        }),
    }
}

/// A report of each of these kinds, numbered from a number on.
fn reports_of(alloc: Global, first: u64, kinds: &[ReportKind]) -> Option<Vec<Report>> {
    let mut reports = Vec::new(alloc);
    let mut number = first;
    for kind in kinds {
        let body = body_of(*kind)?;
        reports.push(Report { number, body }).ok()?;
        number = number.saturating_add(1);
    }
    Some(reports)
}

/// How far a delivery came, and what the reporters have written after it.
type Seen = (Delivered, [u64; 3]);

fn seen(sent: usize, refused: Option<u64>, digits: [u64; 3]) -> Seen {
    (Delivered { sent, refused }, digits)
}

/// Delivers reports, and then those that the first delivery left.
fn delivered_twice(outlet: &mut Outlet, written: &Written, reports: &[Report]) -> [Seen; 2] {
    let first = outlet.deliver(reports);
    let after_first = written.digits();
    let again = outlet.deliver(&reports[first.sent..]);
    [(first, after_first), (again, written.digits())]
}

/// What is seen of two deliveries to these reporters. The reports are of these kinds, and are numbered from a number
/// on.
fn deliveries(alloc: Global, rows: &[Row], first: u64, kinds: &[ReportKind]) -> Option<[Seen; 2]> {
    let reports = reports_of(alloc, first, kinds)?;
    let written = Arc::new(alloc, Written::new()).ok()?;
    let mut outlet = outlet_of(alloc, &written, rows).ok()?.ok()?;
    Some(delivered_twice(&mut outlet, &written, &reports))
}

#[test]
fn a_refused_report_is_delivered_again(rt: HostRuntime) {
    let reporters = [(ReportKind::Usage, 2), (ReportKind::Access, 0)];
    let kinds = [ReportKind::Usage, ReportKind::Usage, ReportKind::Access];
    expect_equal(
        &rt,
        &deliveries(rt.alloc(), &reporters, 0, &kinds),
        &Some([seen(1, Some(1), [70, 7, 7]), seen(2, None, [701, 72, 7])]),
    );
    deliveries_join();
}

#[test]
fn each_kind_goes_to_its_reporter(rt: HostRuntime) {
    let reporters = [
        (ReportKind::Inactive, 0),
        (ReportKind::Usage, 0),
        (ReportKind::Access, 0),
    ];
    let kinds = [
        ReportKind::Inactive,
        ReportKind::Usage,
        ReportKind::Access,
        ReportKind::Usage,
        ReportKind::Inactive,
    ];
    expect_equal(
        &rt,
        &deliveries(rt.alloc(), &reporters, 0, &kinds),
        &Some([seen(5, None, [713, 72, 704]), seen(0, None, [713, 72, 704])]),
    );
}

#[test]
fn a_kind_without_a_reporter_is_passed_over(rt: HostRuntime) {
    let reporters = [(ReportKind::Inactive, 1)];
    let kinds = [
        ReportKind::Usage,
        ReportKind::Access,
        ReportKind::Inactive,
        ReportKind::Usage,
    ];
    expect_equal(
        &rt,
        &deliveries(rt.alloc(), &reporters, 5, &kinds),
        &Some([seen(2, Some(7), [7, 7, 7]), seen(2, None, [7, 7, 77])]),
    );
}
