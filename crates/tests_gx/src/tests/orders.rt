//! RARs on a session: orders that are done, rules that are told, and RARs that are refused as a whole.

use super::expect_equal;
use super::playing::{Exchange, Step, first_wrong_on_one, is_answered, totals};
use super::rars::{
    GATE_ALONE, GROUP_OF_RULES, GUARANTEED_RATES, INSTALL_TWO, NINE_KEYS, REMOVE_FIVE,
    RULES_REFUSED,
};
use super::refused_rars::{
    ANOTHER_APPLICATION, ANOTHER_AUTH_APPLICATION, ANOTHER_COMMAND, ANOTHER_SESSION,
    ANOTHER_VERSION, AVP_BEYOND, ERROR_BIT, FAULT_BEHIND_A_RULE, GRANT_OF_TIME, LATE_RULE,
    LENGTH_BEYOND, LENGTH_OF_NO_WORDS, NO_ORIGIN_HOST, OUT_OF_RANGE, RESERVED_BIT, SIX_OCTETS,
    TWO_SESSION_IDS, UNKNOWN_MANDATORY,
};
use pcef_built_in::ShapedCatalog;
use pcef_gx_dialogue::Responder;
use pcef_model::Command;
use pcef_rule::{Gate, Rule, RuleName};
use pcef_session::SessionState;
use pcef_table::Source;
use pcef_world::WorldState;
use std::alloc::Global;

/// A RAR, and what the session has behind it.
struct Played {
    exchange: Exchange,
    /// Whether the session is closed before.
    is_closed: bool,
    totals: [u64; 6],
    /// What [`voice`] tells.
    voice: Option<[u64; 6]>,
}

static DONE: [Played; 5] = [
    Played {
        exchange: INSTALL_TWO,
        is_closed: false,
        totals: [2, 2, 64_000, 48_000, 0, 0],
        voice: Some([10, 2, 2, 6, 64_000, 48_000]),
    },
    Played {
        exchange: RULES_REFUSED,
        is_closed: false,
        totals: [2, 2, 64_000, 48_000, 0, 0],
        voice: Some([10, 2, 2, 6, 64_000, 48_000]),
    },
    Played {
        exchange: GATE_ALONE,
        is_closed: false,
        totals: [3, 2, 64_000, 48_000, 0, 0],
        voice: Some([10, 2, 3, 6, 64_000, 48_000]),
    },
    Played {
        exchange: GROUP_OF_RULES,
        is_closed: false,
        totals: [5, 2, 64_000, 48_000, 0, 0],
        voice: Some([10, 2, 3, 6, 64_000, 48_000]),
    },
    Played {
        exchange: NINE_KEYS,
        is_closed: false,
        totals: [13, 2, 64_000, 48_000, 8, 0],
        voice: Some([10, 2, 3, 6, 64_000, 48_000]),
    },
];

/// RARs by freeDiameter, each of a session of its own.
static REMOVED: [Played; 1] = [Played {
    exchange: REMOVE_FIVE,
    is_closed: false,
    totals: [0; 6],
    voice: None,
}];

static INSTALLED: [Played; 1] = [Played {
    exchange: GUARANTEED_RATES,
    is_closed: false,
    totals: [1, 1, 990_350, 1_030_386, 1, 0],
    voice: None,
}];

/// RARs that are refused as a whole by a session that has two rules, and one behind its close.
static REFUSED: [Played; 19] = [
    Played {
        exchange: INSTALL_TWO,
        is_closed: false,
        totals: [2, 2, 64_000, 48_000, 0, 0],
        voice: Some([10, 2, 2, 6, 64_000, 48_000]),
    },
    Played {
        exchange: ANOTHER_SESSION,
        is_closed: false,
        totals: [2, 2, 64_000, 48_000, 0, 0],
        voice: Some([10, 2, 2, 6, 64_000, 48_000]),
    },
    Played {
        exchange: ANOTHER_APPLICATION,
        is_closed: false,
        totals: [2, 2, 64_000, 48_000, 0, 0],
        voice: Some([10, 2, 2, 6, 64_000, 48_000]),
    },
    Played {
        exchange: ANOTHER_AUTH_APPLICATION,
        is_closed: false,
        totals: [2, 2, 64_000, 48_000, 0, 0],
        voice: Some([10, 2, 2, 6, 64_000, 48_000]),
    },
    Played {
        exchange: ANOTHER_COMMAND,
        is_closed: false,
        totals: [2, 2, 64_000, 48_000, 0, 0],
        voice: Some([10, 2, 2, 6, 64_000, 48_000]),
    },
    Played {
        exchange: ANOTHER_VERSION,
        is_closed: false,
        totals: [2, 2, 64_000, 48_000, 0, 0],
        voice: Some([10, 2, 2, 6, 64_000, 48_000]),
    },
    Played {
        exchange: LENGTH_BEYOND,
        is_closed: false,
        totals: [2, 2, 64_000, 48_000, 0, 0],
        voice: Some([10, 2, 2, 6, 64_000, 48_000]),
    },
    Played {
        exchange: LENGTH_OF_NO_WORDS,
        is_closed: false,
        totals: [2, 2, 64_000, 48_000, 0, 0],
        voice: Some([10, 2, 2, 6, 64_000, 48_000]),
    },
    Played {
        exchange: ERROR_BIT,
        is_closed: false,
        totals: [2, 2, 64_000, 48_000, 0, 0],
        voice: Some([10, 2, 2, 6, 64_000, 48_000]),
    },
    Played {
        exchange: NO_ORIGIN_HOST,
        is_closed: false,
        totals: [2, 2, 64_000, 48_000, 0, 0],
        voice: Some([10, 2, 2, 6, 64_000, 48_000]),
    },
    Played {
        exchange: UNKNOWN_MANDATORY,
        is_closed: false,
        totals: [2, 2, 64_000, 48_000, 0, 0],
        voice: Some([10, 2, 2, 6, 64_000, 48_000]),
    },
    Played {
        exchange: FAULT_BEHIND_A_RULE,
        is_closed: false,
        totals: [2, 2, 64_000, 48_000, 0, 0],
        voice: Some([10, 2, 2, 6, 64_000, 48_000]),
    },
    Played {
        exchange: AVP_BEYOND,
        is_closed: false,
        totals: [2, 2, 64_000, 48_000, 0, 0],
        voice: Some([10, 2, 2, 6, 64_000, 48_000]),
    },
    Played {
        exchange: RESERVED_BIT,
        is_closed: false,
        totals: [2, 2, 64_000, 48_000, 0, 0],
        voice: Some([10, 2, 2, 6, 64_000, 48_000]),
    },
    Played {
        exchange: TWO_SESSION_IDS,
        is_closed: false,
        totals: [2, 2, 64_000, 48_000, 0, 0],
        voice: Some([10, 2, 2, 6, 64_000, 48_000]),
    },
    Played {
        exchange: OUT_OF_RANGE,
        is_closed: false,
        totals: [2, 2, 64_000, 48_000, 0, 0],
        voice: Some([10, 2, 2, 6, 64_000, 48_000]),
    },
    Played {
        exchange: SIX_OCTETS,
        is_closed: false,
        totals: [2, 2, 64_000, 48_000, 0, 0],
        voice: Some([10, 2, 2, 6, 64_000, 48_000]),
    },
    Played {
        exchange: GRANT_OF_TIME,
        is_closed: false,
        totals: [2, 2, 64_000, 48_000, 0, 0],
        voice: Some([10, 2, 2, 6, 64_000, 48_000]),
    },
    Played {
        exchange: LATE_RULE,
        is_closed: true,
        totals: [3, 0, 0, 0, 0, 0],
        voice: None,
    },
];

/// The number that a gate has as Flow-Status (TS 29.214, clause 5.3.11).
fn flow_status(gate: Gate) -> u64 {
    match gate {
        Gate::EnabledUplink => 0,
        Gate::EnabledDownlink => 1,
        Gate::Enabled => 2,
        Gate::Disabled => 3,
    }
}

/// The precedence of a rule, how many filters, its gate, and its guaranteed rates uplink and downlink.
fn of_rule(rule: &Rule) -> [u64; 5] {
    let has = rule.properties();
    let (up, down) = match has.rates {
        Some(rates) => (u64::from(rates.up), u64::from(rates.down)),
        None => (0, 0),
    };
    let filters = rule.filters().len() as u64;
    [
        u64::from(has.precedence),
        filters,
        flow_status(has.gate),
        up,
        down,
    ]
}

/// Of the rule `voice one`: its precedence, how many filters, its gate, its bearer, and its guaranteed rates uplink and
/// downlink. The space stands as `%20` in a name here.
fn voice(session: &SessionState) -> Option<[u64; 6]> {
    let name = RuleName::known("voice%20one");
    let bearer = session.bearers().bearer_of(&name)?;
    for place in 0..session.active().len() {
        if let Some((kept, Source::Dynamic(rule))) = session.active().get_index(place) {
            if *kept == name {
                let [precedence, filters, gate, up, down] = of_rule(rule);
                return Some([precedence, filters, gate, u64::from(bearer.0), up, down]);
            }
        }
    }
    None
}

impl Step for Played {
    fn is_due(
        &self,
        alloc: Global,
        catalog: &ShapedCatalog,
        world: &mut WorldState,
        _responder: &mut Responder,
    ) -> bool {
        if self.is_closed
            && world
                .step(catalog, pcef_model::Step::Command(Command::Close))
                .is_err()
        {
            return false;
        }
        is_answered(alloc, catalog, world, &self.exchange)
            && totals(world.session()) == self.totals
            && voice(world.session()) == self.voice
    }
}

#[test]
fn orders_are_done_one_after_the_other(rt: HostRuntime) {
    expect_equal(&rt, &first_wrong_on_one(rt.alloc(), &DONE), &Some(None));
}

#[test]
fn messages_of_another_program_are_answered(rt: HostRuntime) {
    let wrong = [
        first_wrong_on_one(rt.alloc(), &REMOVED),
        first_wrong_on_one(rt.alloc(), &INSTALLED),
    ];
    expect_equal(&rt, &wrong, &[Some(None), Some(None)]);
}

#[test]
fn a_message_that_is_refused_changes_nothing(rt: HostRuntime) {
    expect_equal(&rt, &first_wrong_on_one(rt.alloc(), &REFUSED), &Some(None));
}
