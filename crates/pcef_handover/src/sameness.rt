//! Rows and commands that are the same.

ghost use Rattle.std.specs.Prelude.{◌≡◌, ◌↔◌, IsTrue};

use pcef_model::{Command, Row, TriggerSet, Verdict};
use pcef_packet::Header;

fn is_same_header(a: &Header, b: &Header) -> bool
    ensures { IsTrue result ↔ (a.now ≡ b.now) }
{
    a.dir == b.dir
        && a.src == b.src
        && a.dst == b.dst
        && a.proto == b.proto
        && a.ports == b.ports
        && a.octets == b.octets
        && a.dscp == b.dscp
}

fn is_same_verdict(a: &Verdict, b: &Verdict) -> bool
    ensures { IsTrue result ↔ (a.now ≡ b.now) }
{
    match (a, b) {
        (Verdict::Stray, Verdict::Stray) => true,
        (Verdict::Unmatched, Verdict::Unmatched) => true,
        (Verdict::Gated { rule: a }, Verdict::Gated { rule: b }) => *a == *b,
        (Verdict::Passed { rule: a, bearer: c }, Verdict::Passed { rule: b, bearer: d }) => {
            *a == *b && *c == *d
        }
        _ => false,
    }
}

/// Whether two rows are the same.
pub(crate) fn is_same_row(a: &Row, b: &Row) -> bool
    ensures { IsTrue result ↔ (a.now ≡ b.now) }
{
    a.worker == b.worker
        && a.seq == b.seq
        && a.generation == b.generation
        && is_same_header(&a.header, &b.header)
        && is_same_verdict(&a.verdict, &b.verdict)
}

fn is_same_set(a: TriggerSet, b: TriggerSet) -> bool
    ensures { IsTrue result ↔ (a ≡ b) }
{
    a.usage_report == b.usage_report
        && a.rat_change == b.rat_change
        && a.plmn_change == b.plmn_change
        && a.user_location_change == b.user_location_change
        && a.ue_time_zone_change == b.ue_time_zone_change
}

/// Whether two commands are the same.
pub(crate) fn is_same_command(a: &Command, b: &Command) -> bool
    ensures { IsTrue result ↔ (a.now ≡ b.now) }
{
    match (a, b) {
        (Command::Install(a), Command::Install(b)) => a.is_equal(b),
        (Command::Activate(a), Command::Activate(b)) => *a == *b,
        (Command::Remove(a), Command::Remove(b)) => *a == *b,
        (
            Command::Monitor {
                key: a,
                grant: c,
                level: e,
            },
            Command::Monitor {
                key: b,
                grant: d,
                level: f,
            },
        ) => *a == *b && *c == *d && *e == *f,
        (Command::Stop(a), Command::Stop(b)) => *a == *b,
        (Command::ReportNow(a), Command::ReportNow(b)) => *a == *b,
        (Command::Triggers(a), Command::Triggers(b)) => is_same_set(*a, *b),
        (Command::Notice { kind: a, value: c }, Command::Notice { kind: b, value: d }) => *a == *b
            && *c == *d,
        (Command::LoseBearer(a), Command::LoseBearer(b)) => *a == *b,
        (Command::Close, Command::Close) => true,
        (Command::Terminate, Command::Terminate) => true,
        _ => false,
    }
}
