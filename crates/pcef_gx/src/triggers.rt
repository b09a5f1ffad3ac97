//! Event triggers.

ghost use Rattle.std.specs.Prelude.{◌≡◌, ◌++◌, IfOk, [], drop, map};
ghost use Rattle.std.specs.List.{filter};
ghost use Rattle.pcef_diameter.specs.Avps.{shown};
ghost use Rattle.pcef_gx.specs.Readings.{Gives};
ghost use Rattle.pcef_gx.specs.Triggers.{is_trigger, others_of, set_of, trigger_of, triggers_after};

use crate::code::{EVENT_TRIGGER, is};
use crate::fault::{Problem, Stop, fault};
use crate::known::is_one_of;
use crate::looking::number;
use pcef_diameter::Avp;
use pcef_model::TriggerSet;
use std::alloc::{AllocError, Global};

/// Whether a number is that of an event trigger (TS 29.212, clause 5.3.7).
fn is_trigger(number: u32) -> bool
    ensures { result ≡ is_trigger number }
{
    number <= 60 && !is_one_of(&[8, 9, 10, 31, 32, 38, 41], number)
}

/// The number of an Event-Trigger.
#[tactic(auto, unfolding(crate::specs::Triggers::trigger_of))]
fn trigger(avp: Avp<'_>) -> Result<u32, Stop<'_>>
    ensures { Gives (λ n. n) result (trigger_of (shown avp.entry)) }
{
    let number = number(avp)?;
    if !is_trigger(number) {
        return fault(Problem::InvalidAvpValue, avp);
    }
    Ok(number)
}

/// The numbers of all Event-Triggers of a message.
pub(crate) fn triggers<'a>(alloc: Global, avps: &[Avp<'a>]) -> Result<Vec<u32>, Stop<'a>>
    ensures { Gives (λ numbers. numbers.items) result (triggers_after [] (map shown avps.now)) }
{
    let mut numbers = Vec::new(alloc);
    for avp in avps {
        if is(avp, EVENT_TRIGGER) {
            numbers.push(trigger(*avp)?)?;
        }
    }
    Ok(numbers)
}

/// The event triggers of a session among these: none where NO_EVENT_TRIGGERS is among them.
#[tactic(auto, unfolding(crate::specs::Triggers::set_of))]
pub(crate) fn set_of(numbers: &[u32]) -> TriggerSet
    ensures { result ≡ set_of numbers.now }
{
    if is_one_of(numbers, 14) {
        return TriggerSet::default();
    }
    TriggerSet {
        usage_report: is_one_of(numbers, 33),
        rat_change: is_one_of(numbers, 2),
        plmn_change: is_one_of(numbers, 4),
        user_location_change: is_one_of(numbers, 13),
        ue_time_zone_change: is_one_of(numbers, 25),
    }
}

/// The numbers of the other event triggers among these: the gateway watches for them.
pub(crate) fn others_of(alloc: Global, numbers: &[u32]) -> Result<Vec<u32>, AllocError>
    ensures { IfOk result (λ others. others.items ≡ others_of numbers.now) }
{
    let mut others = Vec::new(alloc);
    for number in numbers {
        if !is_one_of(&[2, 4, 13, 14, 25, 33], *number) {
            others.push(*number)?;
        }
    }
    Ok(others)
}
