//! The kinds of reports.

ghost use Rattle.std.specs.Prelude.{◌≡◌};
ghost use Rattle.pcef_trigger.specs.Kinds.{has_kind, report_kind, repeats, same_kind};

use pcef_model::{Body, Report};

/// The kinds of reports.
#[derive(Clone, Copy, Debug, PartialEq, Eq)]
pub enum ReportKind {
    /// The usage of a monitoring key.
    Usage,
    /// An access event.
    Access,
    /// A rule that became inactive.
    Inactive,
}

/// The kind of a report.
pub(crate) fn kind_of(report: &Report) -> ReportKind
    ensures { result ≡ report_kind report.now }
{
    match &report.body {
        Body::Usage { .. } => ReportKind::Usage,
        Body::Access { .. } => ReportKind::Access,
        Body::Inactive { .. } => ReportKind::Inactive,
    }
}

fn same_kind(a: ReportKind, b: ReportKind) -> bool
    ensures { result ≡ same_kind a b }
{
    a == b
}

/// Whether some of these has the kind.
fn has_kind<B>(kind: ReportKind, reporters: &[(ReportKind, B)]) -> bool
    ensures { result ≡ has_kind kind reporters.now }
{
    reporters.iter().any(|reporter| same_kind(kind, reporter.0))
}

/// Whether two of these have one kind.
pub(crate) fn repeats<B>(reporters: &[(ReportKind, B)]) -> bool
    ensures { result ≡ repeats reporters.now }
{
    let mut rest = reporters;
    while let Some((first, others)) = rest.split_first() {
        if has_kind(first.0, others) {
            return true;
        }
        rest = others;
    }
    false
}
