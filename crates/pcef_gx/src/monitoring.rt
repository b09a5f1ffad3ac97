//! Usage monitoring.

ghost use Rattle.std.specs.Prelude.{◌≡◌, OnOk, map, option_map};
ghost use Rattle.pcef_diameter.specs.Avps.{shown};
ghost use Rattle.pcef_gx.specs.Monitors.{by_key, grant_of, key_of, level_of, monitor_after, monitors_after, of_key, total_granted, wish_of};
ghost use Rattle.pcef_gx.specs.Readings.{Gives};

use crate::code::{
    CC_TOTAL_OCTETS, GRANTED_SERVICE_UNIT, MONITORING_KEY, USAGE_MONITORING_INFORMATION,
    USAGE_MONITORING_LEVEL, USAGE_MONITORING_REPORT, USAGE_MONITORING_SUPPORT, is,
};
use crate::fault::{Problem, Stop, fault};
use crate::looking::{group, long_number, only, only_word};
use crate::name::name_of;
use crate::order::Order;
use crate::quality::is_word;
use pcef_diameter::Avp;
use pcef_model::Level;
use pcef_rule::KeyName;
use std::alloc::{AllocError, Global};

/// What a Usage-Monitoring-Information asks for.
#[derive(Clone, Copy)]
struct Wish {
    report: bool,
    stop: bool,
    level: Level,
    grant: Option<u64>,
}

/// The octets of a unit of so many parts: units of time, and octets of one direction, can't be granted.
fn total_granted<'a>(unit: Avp<'a>, count: usize, total: Option<Avp<'a>>) -> Result<u64, Stop<'a>>
    ensures { Gives (λ n. n) result (total_granted (shown unit.entry) count (option_map shown total.entry)) }
{
    let Some(total) = total else {
        return fault(Problem::UnableToComply, unit);
    };
    if count != 1 {
        return fault(Problem::UnableToComply, unit);
    }
    let octets = long_number(total)?;
    if octets == 0 {
        return fault(Problem::InvalidAvpValue, total);
    }
    Ok(octets)
}

/// The octets of a Granted-Service-Unit.
#[tactic(auto, unfolding(crate::specs::Monitors::grant_of))]
fn grant<'a>(alloc: Global, unit: Avp<'a>) -> Result<u64, Stop<'a>>
    ensures { Gives (λ n. n) result (grant_of (shown unit.entry)) }
{
    let parts = group(alloc, unit.octets)?;
    let total = only(&parts, CC_TOTAL_OCTETS)?;
    total_granted(unit, parts.len(), total)
}

/// The level of a Usage-Monitoring-Level: without one a key counts for rules.
fn level_of(word: Option<u32>) -> Level
    ensures { result ≡ level_of word }
{
    if is_word(word, 0) {
        Level::Session
    } else {
        Level::Rule
    }
}

/// The key of a Monitoring-Key.
#[tactic(auto, unfolding(crate::specs::Monitors::key_of))]
fn key<'a>(avp: Avp<'a>) -> Result<KeyName, Stop<'a>>
    ensures { Gives (λ key. key) result (key_of (shown avp.entry)) }
{
    match name_of(avp.octets) {
        Some(key) => Ok(key),
        None => fault(Problem::UnableToComply, avp),
    }
}

/// What a Usage-Monitoring-Information with these parts asks for.
#[tactic(auto, unfolding(crate::specs::Monitors::wish_of))]
fn make_wish<'a>(alloc: Global, parts: &[Avp<'a>]) -> Result<Wish, Stop<'a>>
    ensures { Gives (λ wish. wish) result (wish_of (map shown parts.now)) }
{
    let report = only_word(parts, USAGE_MONITORING_REPORT, 0)?;
    let support = only_word(parts, USAGE_MONITORING_SUPPORT, 0)?;
    let word = only_word(parts, USAGE_MONITORING_LEVEL, 1)?;
    let grant = match only(parts, GRANTED_SERVICE_UNIT)? {
        Some(unit) => Some(grant(alloc, unit)?),
        None => None,
    };
    Ok(Wish {
        report: report.is_some(),
        stop: support.is_some(),
        level: level_of(word),
        grant,
    })
}

/// The orders for a key, behind others: a report is made before a new grant is set. Takes memory.
fn push_key<'a>(orders: &mut Vec<Order<'a>>, key: KeyName, wish: Wish) -> Result<(), AllocError>
    ensures { OnOk result (orders.new.items ≡ of_key orders.old.items key wish) }
{
    if wish.report {
        orders.push(Order::ReportNow(key.copy()))?;
    }
    if wish.stop {
        orders.push(Order::Stop(key))?;
    } else if let Some(grant) = wish.grant {
        orders.push(Order::Monitor {
            key,
            grant,
            level: wish.level,
        })?;
    }
    Ok(())
}

/// The orders for a key, or for all keys, behind others. Without a key only a report may be asked for.
fn push_wish<'a>(
    avp: Avp<'a>,
    orders: &mut Vec<Order<'a>>,
    wish: Wish,
    key: Option<KeyName>,
) -> Result<(), Stop<'a>>
    ensures { Gives (λ _. orders.new.items) result (by_key (shown avp.entry) orders.old.items wish key) }
{
    if let Some(key) = key {
        push_key(orders, key, wish)?;
        return Ok(());
    }
    match wish {
        Wish {
            report: true,
            stop: false,
            grant: None,
            ..
        } => {
            orders.push(Order::ReportAll)?;
            Ok(())
        }
        _ => fault(Problem::UnableToComply, avp),
    }
}

/// The orders of a Usage-Monitoring-Information, behind others.
#[tactic(auto, unfolding(crate::specs::Monitors::monitor_after))]
fn monitor<'a>(alloc: Global, avp: Avp<'a>, orders: &mut Vec<Order<'a>>) -> Result<(), Stop<'a>>
    ensures { Gives (λ _. orders.new.items) result (monitor_after orders.old.items (shown avp.entry)) }
{
    let parts = group(alloc, avp.octets)?;
    let wish = make_wish(alloc, &parts)?;
    let key = match only(&parts, MONITORING_KEY)? {
        Some(named) => Some(key(named)?),
        None => None,
    };
    push_wish(avp, orders, wish, key)
}

/// The orders of all Usage-Monitoring-Informations of a message, behind others.
pub(crate) fn monitors<'a>(
    alloc: Global,
    avps: &[Avp<'a>],
    orders: &mut Vec<Order<'a>>,
) -> Result<(), Stop<'a>>
    ensures { Gives (λ _. orders.new.items) result (monitors_after orders.old.items (map shown avps.now)) }
{
    for avp in avps {
        if is(avp, USAGE_MONITORING_INFORMATION) {
            monitor(alloc, *avp, orders)?;
        }
    }
    Ok(())
}
