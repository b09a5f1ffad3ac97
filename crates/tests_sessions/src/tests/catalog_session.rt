//! A session with its catalog: each of its calls once.

ghost use Rattle.std.specs.Prelude.{◌≡◌, []};

use super::monitor;
use crate::tests::expect_equal;
use crate::tests::scripts::PROFILE;
use pcef_catalog::{Catalog, Offers};
use pcef_core::Session;
use pcef_model::{Command, FlushRefusal, Profile, Refusal};
use pcef_profile::read_profile;
use pcef_rule::RuleName;
use pcef_session::Batch;
use std::alloc::Global;
use std::sync::Arc;
use std::test::Fail;

/// After a Monitor: the generation that it is answered, that of the session, how many keys have a slot, and how many
/// commands there are; and why an Activate of a rule that isn't offered is refused.
fn after_monitor(
    alloc: Global,
    profile: Profile,
    catalog: Arc<Catalog>,
) -> Option<([u64; 4], Option<Refusal>)> {
    let mut session = Session::open(alloc, profile, catalog).ok()?;
    let accepted = session.command(monitor()).ok()?;
    let outcome = [
        u64::from(accepted.generation),
        u64::from(session.generation()),
        session.usage().states().len() as u64,
        session.journal().commands_len(),
    ];
    let unknown = session.command(Command::Activate(RuleName::known("pre-dns")));
    Some((outcome, unknown.err()))
}

#[test]
fn commands_of_a_session(rt: HostRuntime) -> Result<(), Fail> {
    let profile = read_profile(rt.alloc(), PROFILE)?;
    let catalog = Arc::new(rt.alloc(), Catalog::new(rt.alloc(), Vec::new(rt.alloc()))?)?;
    let outcome = after_monitor(rt.alloc(), profile, catalog);
    expect_equal(&rt, &outcome, &Some(([1; 4], Some(Refusal::UnknownRule))));
    Ok(())
}

/// The generation after a Monitor was prepared, the one that it is answered when it is settled, and that of the session
/// then.
fn around_settling(alloc: Global, profile: Profile, catalog: Arc<Catalog>) -> Option<[u32; 3]> {
    let mut session = Session::open(alloc, profile, catalog).ok()?;
    let prepared = session.prepare(monitor()).ok()?;
    let before = session.generation();
    let accepted = session.settle(prepared);
    Some([before, accepted.generation, session.generation()])
}

#[test]
fn a_prepared_command_of_a_session(rt: HostRuntime) -> Result<(), Fail> {
    let profile = read_profile(rt.alloc(), PROFILE)?;
    let catalog = Arc::new(rt.alloc(), Catalog::new(rt.alloc(), Vec::new(rt.alloc()))?)?;
    let generations = around_settling(rt.alloc(), profile, catalog);
    expect_equal(&rt, &generations, &Some([0, 1, 1]));
    Ok(())
}

/// Why a flush is refused before a worker is attached, the numbers of two workers, and how many verdicts an empty flush
/// of the second one gets.
fn with_two_workers(
    alloc: Global,
    profile: Profile,
    catalog: Arc<Catalog>,
    none: &Batch,
) -> Option<(Option<FlushRefusal>, u8, u8, usize)>
    requires { none.now ≡ [] }
{
    let mut session = Session::open(alloc, profile, catalog).ok()?;
    let early = session.flush(0, none).err();
    let first = session.attach().ok()?;
    let second = session.attach().ok()?;
    let verdicts = session.flush(1, none).ok()?;
    Some((early, first, second, verdicts.rows.len()))
}

#[test]
fn workers_of_a_session(rt: HostRuntime) -> Result<(), Fail> {
    let none = Batch::new(rt.alloc())?;
    let profile = read_profile(rt.alloc(), PROFILE)?;
    let catalog = Arc::new(rt.alloc(), Catalog::new(rt.alloc(), Vec::new(rt.alloc()))?)?;
    let outcome = with_two_workers(rt.alloc(), profile, catalog, &none);
    expect_equal(
        &rt,
        &outcome,
        &Some((Some(FlushRefusal::NotAttached), 0, 1, 0)),
    );
    Ok(())
}

/// How many rules an opened session is offered, stand in its table, are active and are bound, and how many rows it
/// takes.
fn shown_when_opened(alloc: Global, profile: Profile, catalog: Arc<Catalog>) -> Option<[usize; 5]> {
    let session = Session::open(alloc, profile, catalog).ok()?;
    Some([
        session.catalog().listing().offers().len(),
        session.indexed().table().entries().len(),
        session.active().len(),
        session.bearers().bound().len(),
        session.profile().rows as usize,
    ])
}

#[test]
fn what_an_opened_session_shows(rt: HostRuntime) -> Result<(), Fail> {
    let profile = read_profile(rt.alloc(), PROFILE)?;
    let catalog = Arc::new(rt.alloc(), Catalog::new(rt.alloc(), Vec::new(rt.alloc()))?)?;
    let shown = shown_when_opened(rt.alloc(), profile, catalog);
    expect_equal(&rt, &shown, &Some([0, 0, 0, 0, 1000]));
    Ok(())
}
