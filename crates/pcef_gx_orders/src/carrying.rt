//! Orders, done one after the other.

ghost use Rattle.std.specs.Prelude.{◌≡◌, ◌⊎◌, Err, IfErr, IfOk};
ghost use Rattle.pcef_gx.specs.declared.failure.RuleFailure.TheVariants.{GatewayMalfunction};
ghost use Rattle.pcef_gx_orders.specs.Carrying.{Between, Carries, DoesOrders, Installs, IsReport, ReportsAll, ReportsOn, completed_now, status_now};
ghost use Rattle.pcef_gx_orders.specs.Naming.{kind_given, rule_named};

use crate::commanding::{for_key, for_rule, for_setting};
use crate::fate::Fate;
use crate::finding::{active_definition, is_active, keys_on};
use crate::naming::NamedOrder;
use pcef_catalog::Detects;
use pcef_gx::{NameOf, Order, RuleChange, RuleFailure, RuleReport, RuleStatus, complete, name_of};
use pcef_model::Command;
use pcef_rule::{KeyName, Rule, RuleName};
use pcef_session::SessionState;
use pcef_world::WorldState;
use std::alloc::{AllocError, Global};

/// What came of the orders of a message.
#[derive(Drop)]
pub struct CarriedOut<'a, 'm> {
    /// The rules that couldn't be had, in the order of the message.
    pub reports: Vec<RuleReport<'a>>,
    /// The order that was refused and names no rule, where there is one: those behind it weren't done.
    pub refused: Option<&'a NamedOrder<'m>>,
}

/// The rule that a definition makes of the active one of its name, or why it can't be had. Want of memory is a reason,
/// too.
fn completed_now(
    alloc: Global,
    session: &SessionState,
    change: &RuleChange,
) -> Result<Rule, RuleFailure>
    ensures { (result ≡ completed_now session.now.setting session.now.journal change.now)
        ⊎ (result ≡ Err GatewayMalfunction) }
{
    let active = active_definition(session, &change.name);
    match complete(alloc, session.profile().ue, change, active) {
        Ok(completed) => completed,
        Err(_) => Err(RuleFailure::GatewayMalfunction),
    }
}

/// Makes a rule active, or changes it.
fn install<C: Detects>(
    alloc: Global,
    catalog: &C,
    world: &mut WorldState,
    change: &RuleChange,
) -> Fate
    requires { C.offers catalog.now ≡ world.old.session.setting.catalog }
    ensures fate { Between (λ p j k. Installs p j change.now result k) world.old world.new }
    ensures workers { world.new.workers ≡ world.old.workers }
    ensures setting { world.new.session.setting ≡ world.old.session.setting }
    ensures forgotten { world.new.session.forgotten ≡ world.old.session.forgotten }
{
    match completed_now(alloc, world.session(), change) {
        Ok(rule) => for_rule(catalog, world, Command::Install(rule)),
        Err(failure) => Fate::NoRule(failure),
    }
}

/// Asks for a report of each of these keys, up to the first that is refused.
fn report_all<C: Detects>(catalog: &C, world: &mut WorldState, keys: &[KeyName]) -> Fate
    requires { C.offers catalog.now ≡ world.old.session.setting.catalog }
    ensures fate { Between (λ p j k. ReportsAll p j keys.now result k) world.old world.new }
    ensures workers { world.new.workers ≡ world.old.workers }
    ensures setting { world.new.session.setting ≡ world.old.session.setting }
    ensures forgotten { world.new.session.forgotten ≡ world.old.session.forgotten }
{
    for key in keys {
        match for_key(catalog, world, Command::ReportNow(key.copy())) {
            Fate::Done => {}
            refused => return refused,
        }
    }
    Fate::Done
}

/// Asks for a report of each key that is on. Want of memory is a refusal, too.
fn report_on<C: Detects>(alloc: Global, catalog: &C, world: &mut WorldState) -> Fate
    requires { C.offers catalog.now ≡ world.old.session.setting.catalog }
    ensures fate { Between (λ p j k. ReportsOn p j result k) world.old world.new }
    ensures workers { world.new.workers ≡ world.old.workers }
    ensures setting { world.new.session.setting ≡ world.old.session.setting }
    ensures forgotten { world.new.session.forgotten ≡ world.old.session.forgotten }
{
    match keys_on(alloc, world.session()) {
        Ok(keys) => report_all(catalog, world, &keys),
        Err(_) => Fate::Refused,
    }
}

/// Does an order.
fn carry<C: Detects>(alloc: Global, catalog: &C, world: &mut WorldState, order: &Order) -> Fate
    requires { C.offers catalog.now ≡ world.old.session.setting.catalog }
    ensures fate { Between (λ p j k. Carries p j order.now result k) world.old world.new }
    ensures workers { world.new.workers ≡ world.old.workers }
    ensures setting { world.new.session.setting ≡ world.old.session.setting }
    ensures forgotten { world.new.session.forgotten ≡ world.old.session.forgotten }
{
    match order {
        Order::Remove(name) => for_rule(catalog, world, Command::Remove(name.copy())),
        Order::Activate(name) => for_rule(catalog, world, Command::Activate(name.copy())),
        Order::Install(change) => install(alloc, catalog, world, change),
        Order::Unable { failure, .. } => Fate::NoRule(*failure),
        Order::Triggers(set) => for_setting(catalog, world, Command::Triggers(*set)),
        Order::Monitor { key, grant, level } => {
            let monitor = Command::Monitor {
                key: key.copy(),
                grant: *grant,
                level: *level,
            };
            for_setting(catalog, world, monitor)
        }
        Order::Stop(key) => for_key(catalog, world, Command::Stop(key.copy())),
        Order::ReportNow(key) => for_key(catalog, world, Command::ReportNow(key.copy())),
        Order::ReportAll => report_on(alloc, catalog, world),
    }
}

/// The name of the rule in an order, as a session may have it.
fn rule_named(order: &Order) -> Option<RuleName>
    ensures { result ≡ rule_named order.now }
{
    match order {
        Order::Remove(name) => Some(name.copy()),
        Order::Activate(name) => Some(name.copy()),
        Order::Install(change) => Some(change.name.copy()),
        Order::Unable {
            name,
            of: NameOf::Rule,
            ..
        } => name_of(name.octets()),
        _ => None,
    }
}

/// What the name in an order is the name of.
fn kind_given(order: &Order) -> NameOf
    ensures { result ≡ kind_given order.now }
{
    match order {
        Order::Unable { of, .. } => *of,
        _ => NameOf::Rule,
    }
}

/// Whether the rule of this name is active.
fn status_now(session: &SessionState, name: &Option<RuleName>) -> RuleStatus
    ensures { result ≡ status_now session.now.setting session.now.journal name.now }
{
    match name {
        Some(name) if is_active(session, name) => RuleStatus::Active,
        _ => RuleStatus::Inactive,
    }
}

/// The report of a rule that couldn't be had.
fn report<'a>(session: &SessionState, named: &'a NamedOrder, failure: RuleFailure) -> RuleReport<'a>
    ensures { IsReport session.now.setting session.now.journal named.now failure result }
{
    RuleReport {
        name: named.name(),
        of: kind_given(named.order()),
        status: status_now(session, &rule_named(named.order())),
        failure,
    }
}

/// Does the orders of a message, one after the other. A rule that couldn't be had is told with its name as it stood,
/// whether it is active then, and why (TS 29.212, clauses 4.5.12 and 5.3.18); the others are done. An order that names
/// no rule and is refused leaves those behind it undone. Takes memory for the reports before anything is done: an `Err`
/// is its want, and nothing has changed. Where memory is wanting for a rule, the rule can't be had, by
/// [`RuleFailure::GatewayMalfunction`].
pub fn carry_out<'a, 'm, C: Detects>(
    alloc: Global,
    catalog: &C,
    world: &mut WorldState,
    orders: &'a [NamedOrder<'m>],
) -> Result<CarriedOut<'a, 'm>, AllocError>
    requires { C.offers catalog.now ≡ world.old.session.setting.catalog }
    ensures done { IfOk result (λ c. DoesOrders world.old orders.now c world.new) }
    ensures lacks { IfErr result (λ _. world.new ≡ world.old) }
    ensures workers { world.new.workers ≡ world.old.workers }
    ensures setting { world.new.session.setting ≡ world.old.session.setting }
    ensures forgotten { world.new.session.forgotten ≡ world.old.session.forgotten }
{
    let mut reports = Vec::with_capacity(alloc, orders.len())?;
    for named in orders {
        match carry(alloc, catalog, world, named.order()) {
            Fate::Done => {}
            Fate::NoRule(failure) => {
                reports.push_reserved(report(world.session(), named, failure));
            }
            Fate::Refused => {
                return Ok(CarriedOut {
                    reports,
                    refused: Some(named),
                });
            }
        }
    }
    Ok(CarriedOut {
        reports,
        refused: None,
    })
}
