//! Commands of a session that stands with its workers.

ghost use Rattle.std.specs.Prelude.{◌≡◌};
ghost use Rattle.pcef_gx_orders.specs.Carrying.{Answers, Between, FatedBy};
ghost use Rattle.pcef_gx_orders.specs.Fates.{command_answer, key_fate, rule_fate, setting_fate};

use crate::fate::{Fate, key_fate, rule_fate, setting_fate};
use pcef_catalog::Detects;
use pcef_model::{Accepted, Command, Refusal, Step};
use pcef_world::{StepAnswer, WorldState};
use std::alloc::AllocError;

/// The answer to a command, among all that a step is answered. Its want of memory is a refusal, too.
fn command_answer(answer: Result<StepAnswer, AllocError>) -> Result<Accepted, Refusal>
    ensures { result ≡ command_answer answer }
{
    match answer {
        Ok(StepAnswer::Command(answer)) => answer,
        _ => Err(Refusal::NoMemory),
    }
}

/// Does a command of a session that stands with its workers, and answers it, as [`WorldState::step`]; want of memory is
/// [`Refusal::NoMemory`]. Takes memory.
pub fn command<C: Detects>(
    catalog: &C,
    world: &mut WorldState,
    asked: Command,
) -> Result<Accepted, Refusal>
    requires { C.offers catalog.now ≡ world.old.session.setting.catalog }
    ensures answer { Answers world.old asked result world.new }
    ensures workers { world.new.workers ≡ world.old.workers }
    ensures setting { world.new.session.setting ≡ world.old.session.setting }
    ensures forgotten { world.new.session.forgotten ≡ world.old.session.forgotten }
{
    command_answer(world.step(catalog, Step::Command(asked)))
}

/// A command about a rule.
pub(crate) fn for_rule<C: Detects>(catalog: &C, world: &mut WorldState, asked: Command) -> Fate
    requires { C.offers catalog.now ≡ world.old.session.setting.catalog }
    ensures fate { Between (λ p j k. FatedBy rule_fate p j asked result k) world.old world.new }
    ensures workers { world.new.workers ≡ world.old.workers }
    ensures setting { world.new.session.setting ≡ world.old.session.setting }
    ensures forgotten { world.new.session.forgotten ≡ world.old.session.forgotten }
{
    rule_fate(command(catalog, world, asked))
}

/// A subscription, or the switching on of a key.
pub(crate) fn for_setting<C: Detects>(catalog: &C, world: &mut WorldState, asked: Command) -> Fate
    requires { C.offers catalog.now ≡ world.old.session.setting.catalog }
    ensures fate { Between (λ p j k. FatedBy setting_fate p j asked result k) world.old world.new }
    ensures workers { world.new.workers ≡ world.old.workers }
    ensures setting { world.new.session.setting ≡ world.old.session.setting }
    ensures forgotten { world.new.session.forgotten ≡ world.old.session.forgotten }
{
    setting_fate(command(catalog, world, asked))
}

/// The switching off of a key, or a report of one.
pub(crate) fn for_key<C: Detects>(catalog: &C, world: &mut WorldState, asked: Command) -> Fate
    requires { C.offers catalog.now ≡ world.old.session.setting.catalog }
    ensures fate { Between (λ p j k. FatedBy key_fate p j asked result k) world.old world.new }
    ensures workers { world.new.workers ≡ world.old.workers }
    ensures setting { world.new.session.setting ≡ world.old.session.setting }
    ensures forgotten { world.new.session.forgotten ≡ world.old.session.forgotten }
{
    key_fate(command(catalog, world, asked))
}
