//! A session and its workers are renewed.

ghost use Rattle.std.specs.Prelude.{◌≡◌, IfErr, IfOk, OnErr, OnOk};
ghost use Rattle.pcef_model.specs.declared.command.Command.TheVariants as of;
ghost use Rattle.pcef_session.specs.Answers.{DoesCommand};
ghost use Rattle.pcef_world.specs.Steps.{standing_of};
ghost use Rattle.pcef_world.specs.Worlds.{IsOpenedWorld};
ghost use Rattle.pcef_renewal.specs.Accepting.{AreTaken, entered};
ghost use Rattle.pcef_renewal.specs.Likeness.{Like};
ghost use Rattle.pcef_renewal.specs.Maps.{bearers_again};
ghost use Rattle.pcef_renewal.specs.Renewal.{renewal};
ghost use Rattle.pcef_renewal.specs.Renewing.{IsRenewed, RefusesRenewal, Renews};
ghost use Rattle.pcef_renewal.specs.private.Answering.{IsAnswered, accepted_of};

use crate::places::BearerNumbers;
use crate::renewing::{Plan, RenewRefusal, copy_profile, plan_for};
use pcef_catalog::Detects;
use pcef_model::{Accepted, Command, Step};
use pcef_world::{StepAnswer, WorldState};
use std::alloc::{AllocError, Global};

/// A session that was renewed, with a place for workers.
#[derive(Drop)]
pub struct RenewedWorld {
    /// The new session. It has no worker yet.
    pub world: WorldState,
    /// The commands that it took: the renewal.
    pub list: Vec<Command>,
    /// The bearers beside the default one, as those of [`crate::Renewed`].
    pub bearers: Vec<BearerNumbers>,
    /// What the old session answered to its Terminate: which of its reports this made.
    pub ended: Accepted,
}

/// A new session with the same profile and catalog.
fn open_like(alloc: Global, world: &WorldState) -> Result<WorldState, AllocError>
    ensures { IfOk result (IsOpenedWorld world.now.session.setting) }
{
    let session = world.session();
    // For its contract: the default bearer is one that a session may open with.
    let _bound = session.bearers().bound();
    let profile = copy_profile(session.profile());
    let listing = session.listing().share()?;
    match WorldState::open(alloc, profile, listing) {
        Ok(world) => Ok(world),
        Err(_) => Err(AllocError),
    }
}

/// What was answered to a command, where it was accepted.
fn accepted_of(answer: StepAnswer) -> Result<Accepted, AllocError>
    ensures { result ≡ accepted_of answer }
{
    match answer {
        StepAnswer::Command(Ok(accepted)) => Ok(accepted),
        _ => Err(AllocError),
    }
}

/// Does a command that isn't refused.
fn command<C: Detects>(
    world: &mut WorldState,
    catalog: &C,
    command: Command,
) -> Result<Accepted, AllocError>
    requires { C.offers catalog.now ≡ world.old.session.setting.catalog }
    ensures answer { IsAnswered world.old command result world.new }
    ensures setting { world.new.session.setting ≡ world.old.session.setting }
    ensures forgotten { world.new.session.forgotten ≡ world.old.session.forgotten }
{
    match world.step(catalog, Step::Command(command)) {
        Ok(answer) => accepted_of(answer),
        Err(lack) => Err(lack),
    }
}

/// Plays commands of which none is refused.
fn play<C: Detects>(world: &mut WorldState, catalog: &C, list: &[Command]) -> Result<(), AllocError>
    requires taken { AreTaken world.old.session.setting world.old.session.journal list.now }
    requires catalog { C.offers catalog.now ≡ world.old.session.setting.catalog }
    ensures journal { OnOk result
        (world.new.session.journal ≡ entered list.now world.old.session.journal) }
    ensures setting { world.new.session.setting ≡ world.old.session.setting }
    ensures forgotten { world.new.session.forgotten ≡ world.old.session.forgotten }
{
    for next in list {
        let copy = next.copy()?;
        match command(world, catalog, copy) {
            Ok(_) => {}
            Err(lack) => return Err(lack),
        }
    }
    Ok(())
}

/// The new session, on which the renewal was played.
fn begin<C: Detects>(
    alloc: Global,
    world: &WorldState,
    catalog: &C,
    list: &[Command],
) -> Result<WorldState, AllocError>
    requires list { list.now ≡ renewal world.now.session.setting world.now.session.journal }
    requires catalog { C.offers catalog.now ≡ world.now.session.setting.catalog }
    ensures { IfOk result (λ new. IsRenewed world.now.session new.session) }
{
    // For its contract: the journal is lawful.
    let _journal = world.session().journal();
    let mut new = open_like(alloc, world)?;
    play(&mut new, catalog, list)?;
    Ok(new)
}

/// Renews a session that has a place for workers, as [`crate::renew`] does. A session with a worker is refused.
pub fn renew_world<C: Detects>(
    alloc: Global,
    world: &mut WorldState,
    catalog: &C,
) -> Result<RenewedWorld, RenewRefusal>
    requires { C.offers catalog.now ≡ world.old.session.setting.catalog }
    ensures refused { IfErr result (RefusesRenewal world.old.session) }
    ensures accepted { OnOk result (Renews world.old.session) }
    ensures unchanged { OnErr result (standing_of world.new ≡ standing_of world.old) }
    ensures ended { IfOk result
        (λ r. DoesCommand world.old.session of.Terminate r.ended world.new.session) }
    ensures renewed { IfOk result (λ r. IsRenewed world.old.session r.world.session) }
    ensures like { IfOk result
        (λ r. Like world.old.session.setting world.old.session.journal r.world.session.journal) }
    ensures bearers { IfOk result (λ r. r.bearers.items
        ≡ bearers_again world.old.session.setting world.old.session.journal) }
    ensures setting { world.new.session.setting ≡ world.old.session.setting }
    ensures forgotten { world.new.session.forgotten ≡ world.old.session.forgotten }
{
    let Plan { list, bearers } = match plan_for(alloc, world.session()) {
        Ok(plan) => plan,
        Err(refusal) => return Err(refusal),
    };
    let Ok(new) = begin(alloc, world, catalog, &list) else {
        return Err(RenewRefusal::NoMemory);
    };
    match command(world, catalog, Command::Terminate) {
        Ok(ended) => Ok(RenewedWorld {
            world: new,
            list,
            bearers,
            ended,
        }),
        Err(_) => Err(RenewRefusal::NoMemory),
    }
}
