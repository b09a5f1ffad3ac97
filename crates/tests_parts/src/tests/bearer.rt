//! Bindings that were worked out by hand from TS 23.203, clauses 6.1.1.4 and 6.2.2.2.

ghost use Rattle.pcef_rule.specs.Priority.{IsLevel};

use crate::tests::expect_equal;
use pcef_bearer::{Bearers, MAX_BOUND, Released};
use pcef_model::Refusal;
use pcef_rule::{Arp, BearerId, Kind, Qci, QciTable, Qos, Rates, RuleName, Sums};
use std::alloc::Global;
use std::test::Fail;

fn pair(qci: u8, level: u8) -> Qos
    requires { IsLevel level }
{
    Qos {
        qci: Qci(qci),
        arp: Arp::known(level, false, true),
    }
}

/// Bearers whose default pair has QCI 9 and level 15.
fn bearers(alloc: Global, capacity: Sums) -> Result<Bearers, Fail> {
    let qcis = QciTable::new(&[(128, Kind::Gbr)])?;
    Ok(Bearers::new(alloc, pair(9, 15), capacity, qcis)?)
}

/// The bearer of a rule that was to be bound, or why it wasn't; none where there is no place for a rule more.
type Answer = Option<Result<BearerId, Refusal>>;

/// Binds a rule, or binds it anew.
fn set(bearers: &mut Bearers, name: RuleName, qos: Qos, rates: Option<Rates>) -> Answer {
    if bearers.is_bound(&name) {
        return Some(bearers.rebind(name, qos, rates));
    }
    if bearers.bound().len() < MAX_BOUND {
        return Some(bearers.bind(name, qos, rates));
    }
    None
}

/// What a rule leaves: a bearer, which ended with it or not.
fn released(bearer: u8, ended: bool) -> Option<Released> {
    Some(Released {
        bearer: BearerId(bearer),
        ended,
    })
}

fn sums(up: u64, down: u64) -> Option<Sums> {
    Some(Sums { up, down })
}

/// What is answered where a rule with rates is to be bound, and the sums on bearer 6 afterwards.
type Rated = (Answer, Option<Sums>);

/// Binds a rule with rates and a pair of level 2.
fn set_rated(bearers: &mut Bearers, name: RuleName, qci: u8, up: u32, down: u32) -> Rated {
    let answer = set(bearers, name, pair(qci, 2), Some(Rates { up, down }));
    (answer, bearers.guaranteed(BearerId(6)))
}

/// Two rules fill the capacity, and a third one finds room on bearer 7 alone, without rates.
fn filled(bearers: &mut Bearers) -> [Rated; 6] {
    [
        set_rated(bearers, RuleName::known("v1"), 128, 100, 200),
        set_rated(bearers, RuleName::known("v2"), 128, 200, 300),
        set_rated(bearers, RuleName::known("v3"), 128, 1, 0),
        set_rated(bearers, RuleName::known("v3"), 128, 0, 1),
        set_rated(bearers, RuleName::known("v3"), 128, 1, 1),
        set_rated(bearers, RuleName::known("v3"), 1, 0, 0),
    ]
}

/// The second rule is bound anew. Its old rates don't count, and a refusal keeps them.
fn bound_anew(bearers: &mut Bearers) -> [Rated; 3] {
    [
        set_rated(bearers, RuleName::known("v2"), 128, 200, 300),
        set_rated(bearers, RuleName::known("v2"), 128, 200, 301),
        set_rated(bearers, RuleName::known("v2"), 1, 1, 2),
    ]
}

/// What the second rule leaves, what it leaves once more, and what the third one leaves, by which bearer 7 ends.
fn unbound(bearers: &mut Bearers) -> [Option<Released>; 3] {
    [
        bearers.unbind(&RuleName::known("v2")),
        bearers.unbind(&RuleName::known("v2")),
        bearers.unbind(&RuleName::known("v3")),
    ]
}

/// The answers and sums of all these steps, the sums on bearer 7 then, and what the rules leave.
fn rated(bearers: &mut Bearers) -> ([Rated; 6], [Rated; 3], Option<Sums>, [Option<Released>; 3]) {
    (
        filled(bearers),
        bound_anew(bearers),
        bearers.guaranteed(BearerId(7)),
        unbound(bearers),
    )
}

// A session doesn't bind and rebind by these calls: it looks for a refusal and a bearer first.
#[test]
fn rates_at_the_capacity(rt: HostRuntime) -> Result<(), Fail> {
    let mut bearers = bearers(rt.alloc(), Sums { up: 300, down: 500 })?;
    let found = rated(&mut bearers);
    let six = Some(Ok(BearerId(6)));
    let seven = Some(Ok(BearerId(7)));
    let over_up = Some(Err(Refusal::OverCapacityUp));
    let over_down = Some(Err(Refusal::OverCapacityDown));
    let full = sums(300, 500);
    let filled = [
        (six, sums(100, 200)),
        (six, full),
        (over_up, full),
        (over_down, full),
        (over_up, full),
        (seven, full),
    ];
    let anew = [(six, full), (over_down, full), (seven, sums(100, 200))];
    let left = [released(7, false), None, released(7, true)];
    expect_equal(&rt, &found, &(filled, anew, sums(1, 2), left));
    Ok(())
}
