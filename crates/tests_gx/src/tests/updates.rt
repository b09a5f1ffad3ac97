//! What CCRs tell of reports.

use super::hexadecimal::{is_hexadecimal_of, put};
use super::report_octets::{
    ALL, ALL_WITH_LOSS, AT_THE_END, LAST_THREE_WITH_LOSS, LAST_TWO, NETWORK, PLMN_CHANGE,
};
use super::{Case, expect_equal, first_wrong};
use pcef_gx_updates::next_update;
use pcef_journal::Journal;
use pcef_model::{AccessKind, Body, Cause, Entry, InactiveCause, NoticeValue, Report};
use pcef_rule::{KeyName, RuleName};
use std::alloc::Global;

/// What a report says.
enum Said {
    Usage(&'static str, u64, Cause),
    Access(AccessKind, &'static str),
    Gone(&'static str),
}

/// One report of each kind, and usage that was asked for at last.
static REPORTS: [Said; 8] = [
    Said::Usage("vid", 5_000_000_000, Cause::Threshold),
    Said::Access(AccessKind::RatChange, "%00%00%03%EC"),
    Said::Access(AccessKind::UserLocationChange, "%82b%F2%10%00%01"),
    Said::Access(AccessKind::UeTimeZoneChange, "@%01"),
    Said::Access(AccessKind::PlmnChange, "26201"),
    Said::Gone("voice%20one"),
    Said::Usage("all", 7, Cause::Terminated),
    Said::Usage("%E8%08", u64::MAX, Cause::Requested),
];

/// Usage at the end of a session.
static LAST: Said = Said::Usage("all", 7, Cause::Terminated);

/// Another network.
static NETWORK_CHANGE: Said = Said::Access(AccessKind::PlmnChange, "26201");

/// Which reports there are.
enum Reports {
    /// All of [`REPORTS`].
    All,
    /// Usage at the end of a session.
    AtTheEnd,
    /// 101 changes of the network.
    Networks,
}

/// What a CCR tells of reports.
struct Update {
    reports: Reports,
    /// How many are told already.
    told: u64,
    /// Whether the PCRF asked for LOSS_OF_BEARER.
    asks_for_loss: bool,
    count: usize,
    /// Its AVPs in hexadecimal, and so many times the one of another network.
    avps: (&'static str, usize),
}

static UPDATES: [Update; 11] = [
    Update {
        reports: Reports::All,
        told: 0,
        asks_for_loss: true,
        count: 8,
        avps: (ALL_WITH_LOSS, 0),
    },
    Update {
        reports: Reports::All,
        told: 0,
        asks_for_loss: false,
        count: 8,
        avps: (ALL, 0),
    },
    Update {
        reports: Reports::All,
        told: 5,
        asks_for_loss: true,
        count: 3,
        avps: (LAST_THREE_WITH_LOSS, 0),
    },
    Update {
        reports: Reports::All,
        told: 6,
        asks_for_loss: true,
        count: 2,
        avps: (LAST_TWO, 0),
    },
    Update {
        reports: Reports::All,
        told: 8,
        asks_for_loss: true,
        count: 0,
        avps: ("", 0),
    },
    Update {
        reports: Reports::AtTheEnd,
        told: 0,
        asks_for_loss: true,
        count: 1,
        avps: (AT_THE_END, 0),
    },
    Update {
        reports: Reports::Networks,
        told: 0,
        asks_for_loss: true,
        count: 100,
        avps: (PLMN_CHANGE, 100),
    },
    Update {
        reports: Reports::Networks,
        told: 1,
        asks_for_loss: true,
        count: 100,
        avps: (PLMN_CHANGE, 100),
    },
    Update {
        reports: Reports::Networks,
        told: 2,
        asks_for_loss: true,
        count: 99,
        avps: (PLMN_CHANGE, 99),
    },
    Update {
        reports: Reports::Networks,
        told: 100,
        asks_for_loss: true,
        count: 1,
        avps: (PLMN_CHANGE, 1),
    },
    Update {
        reports: Reports::Networks,
        told: 101,
        asks_for_loss: true,
        count: 0,
        avps: ("", 0),
    },
];

fn body(said: &Said) -> Option<Body> {
    match said {
        Said::Usage(key, octets, cause) => Some(Body::Usage {
            key: KeyName::new(key).ok()?,
            octets: *octets,
            cause: *cause,
        }),
        Said::Access(kind, value) => Some(Body::Access {
            kind: *kind,
            value: NoticeValue::new(value).ok()?,
        }),
        Said::Gone(rule) => Some(Body::Inactive {
            rule: RuleName::new(rule).ok()?,
            cause: InactiveCause::BearerLost,
        }),
    }
}

/// Whether a report could be added.
fn is_added(journal: &mut Journal, said: &Said) -> bool {
    let Some(body) = body(said) else {
        return false;
    };
    if journal.reserve(1).is_err() {
        return false;
    }
    let number = journal.reports_len();
    journal.append(Entry::Report(Report { number, body }));
    true
}

/// Whether reports could be added.
fn are_added(journal: &mut Journal, reports: &[Said]) -> bool {
    for said in reports {
        if !is_added(journal, said) {
            return false;
        }
    }
    true
}

/// Whether 101 changes of the network could be added.
fn are_networks_added(journal: &mut Journal) -> bool {
    for _ in 0..101 {
        if !is_added(journal, &NETWORK_CHANGE) {
            return false;
        }
    }
    true
}

/// AVPs, and so many changes of the network, in hexadecimal.
fn text(alloc: Global, avps: &str, networks: usize) -> String {
    let mut text = String::new(alloc);
    put(&mut text, avps);
    for _ in 0..networks {
        put(&mut text, NETWORK);
    }
    text
}

/// Whether the next CCR tells what is due of a journal.
fn is_told(alloc: Global, journal: &Journal, due: &Update) -> bool {
    if due.told < journal.forgotten() {
        return false;
    }
    let (avps, networks) = due.avps;
    match next_update(alloc, journal, due.told, due.asks_for_loss) {
        Ok(update) => {
            update.count == due.count
                && is_hexadecimal_of(&update.avps, &text(alloc, avps, networks))
        }
        Err(_) => false,
    }
}

impl Case for Update {
    fn is_due(&self, alloc: Global) -> bool {
        let mut journal = Journal::new(alloc);
        let is_made = match self.reports {
            Reports::All => are_added(&mut journal, &REPORTS),
            Reports::AtTheEnd => is_added(&mut journal, &LAST),
            Reports::Networks => are_networks_added(&mut journal),
        };
        is_made && is_told(alloc, &journal, self)
    }
}

#[test]
fn reports_are_told_by_one_avp_each(rt: HostRuntime) {
    expect_equal(&rt, &first_wrong(rt.alloc(), &UPDATES), &None);
}
