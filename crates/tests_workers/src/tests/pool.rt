//! Two sessions behind locks of their own, on one pool: each has a desk, the rule `voice`, and the rule `radio` that it
//! offers.

mod desks;

use crate::tests::expect_equal;
use arrayvec::ArrayVec;
use desks::{Task, play_desks};
use pcef_catalog::{Listing, Offer, Shape};
use pcef_filter::read_filter;
use pcef_model::{Accepted, Command, Profile, Refusal};
use pcef_packet::Addr;
use pcef_rule::{Arp, Gate, Properties, Qci, QciTable, Qos, Rates, Rule, RuleName, Sums};
use std::alloc::Global;
use std::sync::Wait;
use std::test::Fail;
use std::thread::Threads;

/// A command of one of two sessions.
#[derive(Clone, Copy)]
enum Step {
    /// The session of this number installs `voice` with these uplink and downlink rates.
    Install(usize, u32, u32),
    /// The session of this number removes `voice`.
    Remove(usize),
    /// The session of this number activates `radio`, of 70,000 bit/s in each direction.
    Activate(usize),
    /// The session of this number removes `radio`.
    Deactivate(usize),
}

/// A session that offers `radio`, or nothing when out of memory.
fn asked(alloc: Global) -> Option<(Profile, Listing)> {
    let radio = Offer {
        properties: properties_of(RuleName::known("radio"), 70_000, 70_000),
        shape: Shape::new(ArrayVec::new()),
    };
    let profile = Profile {
        ue: Addr::V4(0x0a00_0002),
        default_qos: Qos {
            qci: Qci(9),
            arp: Arp::known(8, false, true),
        },
        capacity: Sums {
            up: 1_000_000,
            down: 2_000_000,
        },
        qcis: QciTable::new(&[]).ok()?,
        rows: 1000,
        commands: 2000,
    };
    let mut offers = Vec::new(alloc);
    offers.push(radio).ok()?;
    Some((profile, Listing::new(alloc, offers).ok()?))
}

/// What a rule of this name and these rates has, on a bearer apart from the default one.
fn properties_of(name: RuleName, up: u32, down: u32) -> Properties {
    Properties {
        name,
        precedence: 50,
        qos: Qos {
            qci: Qci(1),
            arp: Arp::known(2, false, false),
        },
        rates: Some(Rates { up, down }),
        gate: Gate::Enabled,
        key: None,
    }
}

/// The rule `voice` with these rates, or nothing when out of memory.
fn voice(alloc: Global, up: u32, down: u32) -> Option<Rule> {
    let properties = properties_of(RuleName::known("voice"), up, down);
    let filter = read_filter("permit out ip from any to any", None).ok()?;
    Rule::new(alloc, properties, &[filter]).ok()
}

/// The session of a step, and its command, or nothing when out of memory.
fn command_of(alloc: Global, step: Step) -> Option<(usize, Command)> {
    match step {
        Step::Install(session, up, down) => {
            Some((session, Command::Install(voice(alloc, up, down)?)))
        }
        Step::Remove(session) => Some((session, Command::Remove(RuleName::known("voice")))),
        Step::Activate(session) => Some((session, Command::Activate(RuleName::known("radio")))),
        Step::Deactivate(session) => Some((session, Command::Remove(RuleName::known("radio")))),
    }
}

/// The bearer of an accepted command without reports, and the generation that it leads to; or the refusal.
type Answer = Result<(Option<u8>, u32), Refusal>;

fn answer_of(answer: &Result<Accepted, Refusal>) -> Option<Answer> {
    match answer {
        Ok(accepted) if accepted.past_last_report == 0 && !accepted.unchanged => {
            let bearer = accepted.bearer.map(|bearer| bearer.0);
            Some(Ok((bearer, accepted.generation)))
        }
        Ok(_) => None,
        Err(refusal) => Some(Err(*refusal)),
    }
}

/// Whether the answers are those that are due.
fn are_due(answers: &[Result<Accepted, Refusal>], due: &[Answer]) -> bool {
    answers.len() == due.len()
        && answers
            .iter()
            .zip(due)
            .all(|(answer, due)| answer_of(answer) == Some(*due))
}

/// Steps on a pool of so much uplink and downlink capacity; and what is due: the answers, the number of each session's
/// newest generation at the end, and what is granted then in each direction.
#[derive(Clone, Copy)]
struct Row {
    capacity: (u64, u64),
    steps: &'static [Step],
    answers: &'static [Answer],
    generations: (u32, u32),
    granted: (u64, u64),
}

static ROWS: [Row; 9] = [
    // What a removed rule leaves is the other session's.
    Row {
        capacity: (100_000, 100_000),
        steps: &[
            Step::Install(0, 64_000, 64_000),
            Step::Install(1, 64_000, 64_000),
            Step::Remove(0),
            Step::Install(1, 64_000, 64_000),
        ],
        answers: &[
            Ok((Some(6), 1)),
            Err(Refusal::PoolUp),
            Ok((None, 2)),
            Ok((Some(6), 1)),
        ],
        generations: (2, 1),
        granted: (64_000, 64_000),
    },
    // Downlink rates are looked at after uplink rates.
    Row {
        capacity: (64_000, 63_999),
        steps: &[Step::Install(0, 64_000, 64_000)],
        answers: &[Err(Refusal::PoolDown)],
        generations: (0, 0),
        granted: (0, 0),
    },
    Row {
        capacity: (63_999, 63_999),
        steps: &[Step::Install(0, 64_000, 64_000)],
        answers: &[Err(Refusal::PoolUp)],
        generations: (0, 0),
        granted: (0, 0),
    },
    // A modified rule may take all that is there.
    Row {
        capacity: (100_000, 100_000),
        steps: &[
            Step::Install(0, 60_000, 60_000),
            Step::Install(0, 100_000, 100_000),
            Step::Install(0, 100_001, 100_001),
        ],
        answers: &[Ok((Some(6), 1)), Ok((Some(6), 2)), Err(Refusal::PoolUp)],
        generations: (2, 0),
        granted: (100_000, 100_000),
    },
    // The session's own capacity is looked at first.
    Row {
        capacity: (1_000_000, 1_000_000),
        steps: &[Step::Install(0, 1_000_001, 1)],
        answers: &[Err(Refusal::OverCapacityUp)],
        generations: (0, 0),
        granted: (0, 0),
    },
    // An offered rule takes its rates from the pool.
    Row {
        capacity: (100_000, 100_000),
        steps: &[
            Step::Activate(0),
            Step::Install(0, 30_001, 30_001),
            Step::Install(0, 30_000, 30_000),
            Step::Activate(1),
            Step::Deactivate(0),
            Step::Activate(1),
        ],
        answers: &[
            Ok((Some(6), 1)),
            Err(Refusal::PoolUp),
            Ok((Some(6), 2)),
            Err(Refusal::PoolUp),
            Ok((None, 3)),
            Ok((Some(6), 1)),
        ],
        generations: (3, 1),
        granted: (100_000, 100_000),
    },
    Row {
        capacity: (70_000, 69_999),
        steps: &[Step::Activate(0)],
        answers: &[Err(Refusal::PoolDown)],
        generations: (0, 0),
        granted: (0, 0),
    },
    // Each direction has a capacity of its own.
    Row {
        capacity: (90_000, 300_000),
        steps: &[
            Step::Install(0, 50_000, 200_000),
            Step::Install(1, 40_001, 1),
            Step::Install(1, 1, 100_001),
            Step::Install(1, 40_000, 100_000),
        ],
        answers: &[
            Ok((Some(6), 1)),
            Err(Refusal::PoolUp),
            Err(Refusal::PoolDown),
            Ok((Some(6), 1)),
        ],
        generations: (1, 1),
        granted: (90_000, 300_000),
    },
    // Both sessions have a rule at last.
    Row {
        capacity: (100_000, 100_000),
        steps: &[
            Step::Install(0, 60_000, 60_000),
            Step::Remove(0),
            Step::Install(1, 40_000, 40_000),
            Step::Install(0, 60_000, 60_000),
        ],
        answers: &[
            Ok((Some(6), 1)),
            Ok((None, 2)),
            Ok((Some(6), 1)),
            Ok((Some(6), 3)),
        ],
        generations: (3, 1),
        granted: (100_000, 100_000),
    },
];

/// Whether the steps of a row come to what is due, made once more where there was no memory for the sessions.
fn comes<R: Threads + Wait + Sync>(rt: &R, alloc: Global, row: &Row) -> bool {
    let (up, down) = row.capacity;
    let capacity = Sums { up, down };
    let task = Task::InTurn(row.steps);
    let outcome = match play_desks(rt, alloc, capacity, task) {
        Some(outcome) => Some(outcome),
        None => play_desks(rt, alloc, capacity, task),
    };
    let (up, down) = row.granted;
    let granted = Sums { up, down };
    match outcome {
        Some((seen, generations, sums)) => {
            are_due(seen.answers.as_slice(), row.answers)
                && generations == row.generations
                && sums == granted
        }
        None => false,
    }
}

/// The number of the first row that comes to something else.
fn first_other<R: Threads + Wait + Sync>(rt: &R, alloc: Global) -> Option<usize> {
    for number in 0..ROWS.len() {
        if !comes(rt, alloc, &ROWS[number]) {
            return Some(number);
        }
    }
    None
}

// A desk makes a step once more where it finds no memory: `.ci/refused-memory` refuses each allocation in turn.
#[test]
fn two_desks_answer_as_is_due(rt: HostRuntime) {
    expect_equal(&rt, &first_other(&rt, rt.alloc()), &None);
}

#[test]
fn two_desks_in_threads_leave_nothing_granted(rt: HostRuntime) -> Result<(), Fail> {
    let capacity = Sums {
        up: 64_000,
        down: 64_000,
    };
    let Some((seen, _, granted)) = play_desks(&rt, rt.alloc(), capacity, Task::AtOnce(1000)) else {
        return Err("there is no memory for two desks")?;
    };
    expect_equal(&rt, &(seen.odd, granted), &(0, Sums { up: 0, down: 0 }));
    Ok(())
}
