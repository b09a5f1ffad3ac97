//! Sessions with workers that are renewed, and the answers to that.

use crate::tests::expect_equal;
use crate::tests::renewal::worked::{install, make_all, opened_world};
use pcef_built_in::ShapedCatalog;
use pcef_renewal::{RenewRefusal, renew_world};
use pcef_renewal_answer::answer_renew;
use std::alloc::Global;
use std::test::Fail;

/// Of a session that was renewed with its place for workers: how many commands the new one took, the old and the new number
/// of its first bearer, and the number of the next report of each.
#[derive(Debug, PartialEq, Eq, Drop)]
struct Outcome {
    list: usize,
    bearer: Option<(u8, u8)>,
    reports: (u64, u64),
}

fn outcome_behind(alloc: Global, lines: &[&str]) -> Result<Outcome, Fail> {
    let catalog = ShapedCatalog::built_in(alloc)?;
    let mut world = opened_world(alloc, &catalog)?;
    make_all(alloc, &mut world, &catalog, lines)?;
    let renewed = renew_world(alloc, &mut world, &catalog)?;
    Ok(Outcome {
        list: renewed.list.len(),
        bearer: renewed.bearers.first().map(|pair| (pair.old.0, pair.new.0)),
        reports: (
            renewed.ended.past_last_report,
            renewed.world.session().journal().reports_len(),
        ),
    })
}

fn refusal_behind(alloc: Global, lines: &[&str]) -> Result<Option<RenewRefusal>, Fail> {
    let catalog = ShapedCatalog::built_in(alloc)?;
    let mut world = opened_world(alloc, &catalog)?;
    make_all(alloc, &mut world, &catalog, lines)?;
    Ok(renew_world(alloc, &mut world, &catalog).err())
}

/// Whether a session is renewed, and the answer.
fn answer_behind(alloc: Global, lines: &[&str]) -> Result<(bool, String), Fail> {
    let catalog = ShapedCatalog::built_in(alloc)?;
    let mut world = opened_world(alloc, &catalog)?;
    make_all(alloc, &mut world, &catalog, lines)?;
    let answer = answer_renew(alloc, &mut world, &catalog);
    Ok((answer.renewed, answer.text?))
}

const MONITOR: &str = "{\"do\":\"monitor\",\"key\":\"k\",\"grant\":50}";

const ATTACH: &str = "{\"do\":\"attach\"}";

const FINISH: &str = "{\"do\":\"finish\",\"worker\":0}";

/// The worker has left. The rule is on bearer 7, and on 6 then; the key is reported at the end.
#[test]
fn a_session_whose_worker_left_is_renewed(rt: HostRuntime) -> Result<(), Fail> {
    let a = install(rt.alloc(), "a", 8, 1, "")?;
    let b = install(rt.alloc(), "b", 8, 2, "k")?;
    let lines = [
        a.as_str(),
        b.as_str(),
        "{\"do\":\"remove\",\"name\":\"a\"}",
        MONITOR,
        ATTACH,
        FINISH,
    ];
    expect_equal(
        &rt,
        &outcome_behind(rt.alloc(), &lines)?,
        &Outcome {
            list: 2,
            bearer: Some((7, 6)),
            reports: (1, 0),
        },
    );
    let (renewed, text) = answer_behind(rt.alloc(), &lines)?;
    expect_equal(&rt, &renewed, &true);
    expect_equal(
        &rt,
        &text.as_str(),
        &"{\"bearers\":[{\"new\":6,\"old\":7}],\"ok\":true,\"reports\":[{\"cause\":\"Terminated\",\"key\":\"k\",\"number\":0,\"octets\":0}]}",
    );
    Ok(())
}

#[test]
fn a_session_with_a_worker_is_not_renewed(rt: HostRuntime) -> Result<(), Fail> {
    let lines = [MONITOR, ATTACH];
    expect_equal(
        &rt,
        &refusal_behind(rt.alloc(), &lines)?,
        &Some(RenewRefusal::WorkersAttached(1)),
    );
    let (renewed, text) = answer_behind(rt.alloc(), &lines)?;
    expect_equal(&rt, &renewed, &false);
    expect_equal(
        &rt,
        &text.as_str(),
        &"{\"count\":1,\"name\":\"WorkersAttached\",\"refused\":10}",
    );
    Ok(())
}
