//! A desk that collects more reports at once than a session has rules.

ghost use Rattle.std.specs.Prelude.{◌≡◌, []};
ghost use Rattle.std.specs.Arc.{arc_value};
ghost use Rattle.pcef_lock.specs.Opening.{GoesBy};

use crate::tests::expect_equal;
use crate::tests::sessions::session;
use pcef_catalog::{Catalog, Offers};
use pcef_lock::{Desk, Opening, Shared, open_history};
use pcef_model::{AccessKind, Command, NoticeValue, Report, TriggerSet};
use pcef_publish::{Board, Cell};
use pcef_share::{Blanks, Naming};
use std::alloc::Global;
use std::marker::Brand;
use std::sync::{Arc, Wait};
use std::test::Fail;

/// How many notices come before each collection.
const NOTICES: [u32; 4] = [65, 0, 129, 1];

/// How many reports a desk collects, and the numbers of the first and of the last.
type Collected = (usize, Option<u64>, Option<u64>);

/// The subscription to the one kind of event that is noticed.
fn subscription() -> Command {
    Command::Triggers(TriggerSet {
        rat_change: true,
        ..TriggerSet::default()
    })
}

fn notice() -> Command {
    Command::Notice {
        kind: AccessKind::RatChange,
        value: NoticeValue::known("eutran"),
    }
}

fn numbers_of(reports: &[Report]) -> Collected {
    let number_of = |report: &Report| report.number;
    (
        reports.len(),
        reports.first().map(number_of),
        reports.last().map(number_of),
    )
}

/// What the desk collects behind so many notices.
fn collected<C: Offers + Drop, N: Naming, W: Board<Cell<N>> + Drop, R: Wait>(
    rt: &R,
    shared: &Shared<C, N, W>,
    desk: &mut Desk<N>,
    notices: u32,
) -> Option<Collected> {
    for _ in 0..notices {
        desk.command(rt, shared, notice()).ok()?;
    }
    let reports = desk.collect(rt, shared).ok()?;
    Some(numbers_of(&reports))
}

/// What the desk collects each time.
fn all_collected<C: Offers + Drop, N: Naming, W: Board<Cell<N>> + Drop, R: Wait>(
    rt: &R,
    shared: &Shared<C, N, W>,
    desk: Desk<N>,
) -> [Option<Collected>; 4] {
    let mut desk = desk;
    let mut all = [None; 4];
    if desk.command(rt, shared, subscription()).is_ok() {
        for place in 0..4usize {
            all[place] = collected(rt, shared, &mut desk, NOTICES[place]);
        }
    }
    all
}

/// The session comes behind its lock by this name.
fn behind_its_lock<C: Offers + Drop, N: Naming, R: Wait>(
    rt: &R,
    alloc: Global,
    catalog: Arc<C>,
    opening: Opening,
) -> [Option<Collected>; 4]
    requires named { GoesBy N.ledger N.setting N.first N.book N.root
        opening.session.session opening.opened opening.blanks }
    requires fresh { opening.session.session.journal ≡ [] }
    requires offers { C.offers (arc_value catalog) ≡ opening.session.session.setting.catalog }
{
    match Shared::<C, N, _>::open(rt, alloc, catalog, opening) {
        Ok((shared, desk)) => all_collected(rt, &shared, desk),
        Err(_) => [None; 4],
    }
}

fn play<R: Wait>(rt: &R, alloc: Global) -> Result<[Option<Collected>; 4], Fail> {
    let session = session(alloc, 1000)?;
    let opened = open_history(&session)?;
    let catalog = Arc::new(alloc, Catalog::new(alloc, Vec::new(alloc))?)?;
    let opening = Opening {
        session,
        opened,
        blanks: Blanks::new(),
        places: 1,
    };
    Ok(behind_its_lock::<Catalog, Brand, _>(rt, alloc, catalog, opening))
}

// No report is left behind for the next time, however many there are.
#[test]
fn all_reports_since_the_last_time_are_collected(rt: HostRuntime) -> Result<(), Fail> {
    let due = [
        Some((65, Some(0), Some(64))),
        Some((0, None, None)),
        Some((129, Some(65), Some(193))),
        Some((1, Some(194), Some(194))),
    ];
    expect_equal(&rt, &play(&rt, rt.alloc())?, &due);
    Ok(())
}
