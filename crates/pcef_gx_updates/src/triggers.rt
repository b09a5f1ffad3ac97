//! The event triggers of reports.

ghost use Rattle.std.specs.Prelude.{◌≡◌, ◌++◌, ◌&&◌, OnOk};
ghost use Rattle.pcef_diameter.specs.Spellings.{avps_octets};
ghost use Rattle.pcef_gx_updates.specs.Updates.{access_triggers, any_of, is_access, is_gone, is_usage, other_triggers, same_kind, trigger_if};

use pcef_gx::code::EVENT_TRIGGER;
use pcef_gx::put_number;
use pcef_model::{AccessKind, Body, Cause, Report};
use std::alloc::AllocError;

/// Whether a report is one of usage, and not of the end.
fn is_usage(body: &Body) -> bool
    ensures { result ≡ is_usage body.now }
{
    matches!(
        body,
        Body::Usage {
            cause: Cause::Threshold | Cause::Requested | Cause::Disabled | Cause::RulesGone,
            ..
        }
    )
}

/// Whether a report is one of this access event.
fn is_access(kind: AccessKind, body: &Body) -> bool
    ensures { result ≡ is_access kind body.now }
{
    match (kind, body) {
        (
            AccessKind::RatChange,
            Body::Access {
                kind: AccessKind::RatChange,
                ..
            },
        ) => true,
        (
            AccessKind::PlmnChange,
            Body::Access {
                kind: AccessKind::PlmnChange,
                ..
            },
        ) => true,
        (
            AccessKind::UserLocationChange,
            Body::Access {
                kind: AccessKind::UserLocationChange,
                ..
            },
        ) => true,
        (
            AccessKind::UeTimeZoneChange,
            Body::Access {
                kind: AccessKind::UeTimeZoneChange,
                ..
            },
        ) => true,
        _ => false,
    }
}

fn any_usage(reports: &[Report]) -> bool
    ensures { result ≡ any_of is_usage reports.now }
{
    for report in reports {
        if is_usage(&report.body) {
            return true;
        }
    }
    false
}

fn any_access(kind: AccessKind, reports: &[Report]) -> bool
    ensures { result ≡ any_of (is_access kind) reports.now }
{
    for report in reports {
        if is_access(kind, &report.body) {
            return true;
        }
    }
    false
}

fn any_gone(reports: &[Report]) -> bool
    ensures { result ≡ any_of is_gone reports.now }
{
    for report in reports {
        if matches!(report.body, Body::Inactive { .. }) {
            return true;
        }
    }
    false
}

/// Writes an Event-Trigger, where its event is among the reports.
fn put_trigger_if(out: &mut Vec<u8>, is: bool, number: u32) -> Result<(), AllocError>
    ensures { OnOk result (out.new.items ≡ out.old.items ++ avps_octets (trigger_if is number)) }
{
    if is {
        put_number(out, EVENT_TRIGGER, number)?;
    }
    Ok(())
}

/// Writes the Event-Triggers of access events.
#[tactic(auto, using(pcef_diameter::proofs::Parts::parts_octets))]
pub(crate) fn put_access_triggers(out: &mut Vec<u8>, reports: &[Report]) -> Result<(), AllocError>
    ensures { OnOk result (out.new.items
        ≡ out.old.items ++ avps_octets (access_triggers reports.now)) }
{
    put_trigger_if(out, any_access(AccessKind::RatChange, reports), 2)?;
    put_trigger_if(out, any_access(AccessKind::PlmnChange, reports), 4)?;
    put_trigger_if(out, any_access(AccessKind::UserLocationChange, reports), 13)?;
    put_trigger_if(out, any_access(AccessKind::UeTimeZoneChange, reports), 25)
}

/// Writes the Event-Triggers of usage, and of a lost bearer where the PCRF asked for it.
#[tactic(auto, using(pcef_diameter::proofs::Parts::parts_octets))]
pub(crate) fn put_other_triggers(
    out: &mut Vec<u8>,
    asks_for_loss: bool,
    reports: &[Report],
) -> Result<(), AllocError>
    ensures { OnOk result (out.new.items
        ≡ out.old.items ++ avps_octets (other_triggers asks_for_loss reports.now)) }
{
    put_trigger_if(out, any_usage(reports), 33)?;
    put_trigger_if(out, asks_for_loss && any_gone(reports), 5)
}
