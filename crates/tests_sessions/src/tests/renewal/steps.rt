//! From an old session to a new one.

use crate::tests::expect_equal;
use crate::tests::renewal::worked::{install, opened, take_all};
use pcef_built_in::ShapedCatalog;
use pcef_renewal::{BearerNumbers, ListFault, RenewRefusal, renew, renewal};
use pcef_session::SessionState;
use std::alloc::Global;
use std::test::Fail;

/// Of a renewed session: how many commands the old and the new one took, how many reports each made, how many rules are
/// active in the new one, the numbers of their bearers, and the old and the new numbers that are answered.
#[derive(Debug, PartialEq, Eq, Drop)]
struct Outcome {
    commands: (u64, u64),
    reports: (u64, u64),
    rules: usize,
    bearers: [Option<u8>; 2],
    renumbered: [Option<(u8, u8)>; 3],
}

/// The numbers of the bearers of the first two rules.
fn bearers_of(session: &SessionState) -> [Option<u8>; 2] {
    let bound = session.bearers().bound();
    [
        bound.get(0).map(|rule| rule.bearer.0),
        bound.get(1).map(|rule| rule.bearer.0),
    ]
}

/// The old and the new number of the bearer at a place.
fn numbers_at(bearers: &[BearerNumbers], place: usize) -> Option<(u8, u8)> {
    bearers.get(place).map(|pair| (pair.old.0, pair.new.0))
}

/// Those of the first three bearers.
fn numbers_of(bearers: &[BearerNumbers]) -> [Option<(u8, u8)>; 3] {
    [
        numbers_at(bearers, 0),
        numbers_at(bearers, 1),
        numbers_at(bearers, 2),
    ]
}

fn renewed_outcome(alloc: Global, lines: &[&str]) -> Result<Outcome, Fail> {
    let catalog = ShapedCatalog::built_in(alloc)?;
    let mut session = opened(alloc, &catalog)?;
    take_all(alloc, &mut session, lines)?;
    let renewed = renew(alloc, &mut session)?;
    Ok(Outcome {
        commands: (
            session.journal().commands_len(),
            renewed.session.journal().commands_len(),
        ),
        reports: (
            renewed.ended.past_last_report,
            renewed.session.journal().reports_len(),
        ),
        rules: renewed.session.active().len(),
        bearers: bearers_of(&renewed.session),
        renumbered: numbers_of(&renewed.bearers),
    })
}

/// Bearers 7 and 8 become 7 and 6. The key that is on is reported as the old session ends, and by the new one not at all.
#[test]
fn an_old_session_ends_and_a_new_one_goes_on(rt: HostRuntime) -> Result<(), Fail> {
    let a = install(rt.alloc(), "a", 8, 1, "")?;
    let b = install(rt.alloc(), "b", 8, 2, "")?;
    let c = install(rt.alloc(), "c", 8, 3, "")?;
    let lines = [
        a.as_str(),
        b.as_str(),
        c.as_str(),
        "{\"do\":\"remove\",\"name\":\"a\"}",
        "{\"do\":\"monitor\",\"key\":\"k\",\"grant\":50}",
    ];
    let found = renewed_outcome(rt.alloc(), &lines)?;
    expect_equal(
        &rt,
        &found,
        &Outcome {
            commands: (6, 3),
            reports: (1, 0),
            rules: 2,
            bearers: [Some(6), Some(7)],
            renumbered: [Some((8, 6)), Some((7, 7)), None],
        },
    );
    Ok(())
}

/// Why a session isn't renewed after its end, and why it has no list then.
fn refusals(alloc: Global) -> Result<(Option<RenewRefusal>, Option<ListFault>), Fail> {
    let catalog = ShapedCatalog::built_in(alloc)?;
    let mut session = opened(alloc, &catalog)?;
    take_all(alloc, &mut session, &["{\"do\":\"terminate\"}"])?;
    let list = renewal(alloc, &session).err();
    Ok((renew(alloc, &mut session).err(), list))
}

#[test]
fn a_session_behind_its_end_is_not_renewed(rt: HostRuntime) -> Result<(), Fail> {
    let found = refusals(rt.alloc())?;
    expect_equal(
        &rt,
        &found,
        &(Some(RenewRefusal::Terminated), Some(ListFault::Terminated)),
    );
    Ok(())
}
