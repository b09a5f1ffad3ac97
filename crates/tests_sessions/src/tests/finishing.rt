//! A worker that finishes on a session, by the session's own call.

ghost use Rattle.std.specs.Prelude.{◌≡◌, ◌≤◌, ◌∷◌, [], IfOk};
ghost use Rattle.tests_sessions.specs.UnmatchedRows.{ue, unmatched_item};

use crate::tests::expect_equal;
use crate::tests::scripts::PROFILE;
use arrayvec::ArrayVec;
use pcef_catalog::Catalog;
use pcef_core::Session;
use pcef_journaled::{Commands, Lane};
use pcef_model::{Command, FlushRefusal, Judged, Profile, Row, Verdict, Verdicts};
use pcef_packet::{Addr, Dir, Header};
use pcef_profile::read_profile;
use pcef_session::{Batch, Item};
use std::alloc::{AllocError, Global};
use std::sync::Arc;
use std::test::Fail;

/// A profile of 10.0.0.2 that takes `rows` rows.
fn profile(alloc: Global, rows: u32) -> Result<Profile, Fail>
    requires { (1 ≤ rows) × (rows ≤ 1000) }
    ensures { IfOk result (λ p. p.ue ≡ ue) }
{
    let profile = read_profile(alloc, PROFILE)?;
    Ok(Profile {
        ue: Addr::V4(0x0a00_0002),
        default_qos: profile.default_qos,
        capacity: profile.capacity,
        qcis: profile.qcis,
        rows,
        commands: profile.commands,
    })
}

/// The row of worker 0 with this number: an uplink packet of 100 octets, which matches no rule of generation 0.
fn unmatched_item(number: u64) -> Item
    ensures { result ≡ unmatched_item number }
{
    Item {
        row: Row {
            worker: 0,
            seq: number,
            generation: 0,
            header: Header {
                dir: Dir::Up,
                src: Addr::V4(0x0a00_0002),
                dst: Addr::V4(0xc633_6407),
                proto: 1,
                ports: None,
                octets: 100,
                dscp: 0,
            },
            verdict: Verdict::Unmatched,
        },
        slots: ArrayVec::new(),
    }
}

/// The first two rows of worker 0.
fn two_rows(alloc: Global) -> Result<Batch, AllocError>
    ensures { IfOk result (λ b. b ≡ unmatched_item 0 ∷ unmatched_item 1 ∷ []) }
{
    let mut batch = Batch::new(alloc)?;
    batch.push(unmatched_item(0));
    batch.push(unmatched_item(1));
    Ok(batch)
}

/// How many verdicts were given, whether each is of an unmatched packet by the first table, and the numbers of the
/// first report and of the one past the last.
fn figures_of(verdicts: &Verdicts) -> (usize, bool, u64, u64) {
    let unmatched = Judged {
        generation: 0,
        verdict: Verdict::Unmatched,
    };
    let are_unmatched = verdicts.rows.as_slice().iter().all(|row| *row == unmatched);
    (
        verdicts.rows.len(),
        are_unmatched,
        verdicts.first_report,
        verdicts.past_last_report,
    )
}

/// The outcome of a worker that finishes with two rows: its number, the verdicts and the length of its lane; why it
/// can't finish once more; how many rows there are; the numbers of the first three rows that are kept of it; whether
/// the session can then be terminated, and whether this is then the one command that is kept.
#[derive(Debug, PartialEq, Eq, Drop)]
struct Ending {
    worker: u8,
    verdicts: (usize, bool, u64, u64),
    lane: u64,
    again: Option<FlushRefusal>,
    rows: u64,
    kept: [Option<u64>; 3],
    ends: bool,
    is_kept: bool,
}

fn next_number(lane: &mut Lane<'_>) -> Option<u64> {
    lane.next().map(|row| row.seq)
}

/// The numbers of the first three rows of a lane.
fn numbers_in(mut lane: Lane<'_>) -> [Option<u64>; 3] {
    [
        next_number(&mut lane),
        next_number(&mut lane),
        next_number(&mut lane),
    ]
}

/// Whether a Terminate is the only command.
fn is_terminate_alone(mut commands: Commands<'_>) -> bool {
    matches!(commands.next(), Some(Command::Terminate)) && commands.next().is_none()
}

fn finished(
    alloc: Global,
    profile: Profile,
    catalog: Arc<Catalog>,
    two: &Batch,
    none: &Batch,
) -> Result<Ending, Fail>
    requires profile { profile.ue ≡ ue }
    requires two { two.now ≡ unmatched_item 0 ∷ unmatched_item 1 ∷ [] }
    requires none { none.now ≡ [] }
{
    let mut session = Session::open(alloc, profile, catalog)?;
    let worker = session.attach()?;
    let (verdicts, lane) = session.finish(0, two)?;
    let again = session.finish(0, none).err();
    Ok(Ending {
        worker,
        verdicts: figures_of(&verdicts),
        lane,
        again,
        rows: session.journal().rows_len(),
        kept: numbers_in(session.lane(0)),
        ends: session.command(Command::Terminate).is_ok(),
        is_kept: is_terminate_alone(session.commands()),
    })
}

#[test]
fn a_worker_finishes_with_as_many_rows_as_there_may_be(rt: HostRuntime) -> Result<(), Fail> {
    let two = two_rows(rt.alloc())?;
    let none = Batch::new(rt.alloc())?;
    let profile = profile(rt.alloc(), 2)?;
    let catalog = Arc::new(rt.alloc(), Catalog::new(rt.alloc(), Vec::new(rt.alloc()))?)?;
    let finished = finished(rt.alloc(), profile, catalog, &two, &none)?;
    expect_equal(
        &rt,
        &finished,
        &Ending {
            worker: 0,
            verdicts: (2, true, 0, 0),
            lane: 2,
            again: Some(FlushRefusal::NotAttached),
            rows: 2,
            kept: [Some(0), Some(1), None],
            ends: true,
            is_kept: true,
        },
    );
    Ok(())
}
