//! What commands ask to be reported.

ghost use Rattle.std.specs.Prelude.{◌≡◌, ◌++◌, ◌∷◌, [], OnOk};
ghost use Rattle.pcef_model.specs.Reports.{requested, is_subscribed, noticed_by};

use pcef_model::{AccessKind, Cause, Command, PendingReport, TriggerSet};
use std::alloc::AllocError;

/// Whether an access event is subscribed.
fn is_subscribed(set: TriggerSet, kind: AccessKind) -> bool
    ensures { result ≡ is_subscribed set kind }
{
    match kind {
        AccessKind::RatChange => set.rat_change,
        AccessKind::PlmnChange => set.plmn_change,
        AccessKind::UserLocationChange => set.user_location_change,
        AccessKind::UeTimeZoneChange => set.ue_time_zone_change,
    }
}

/// Adds the report that a command asks for.
pub(crate) fn add_requested(
    reports: &mut Vec<PendingReport>,
    command: &Command,
) -> Result<(), AllocError>
    ensures { OnOk result (reports.new.items ≡ reports.old.items ++ requested command.now) }
{
    match command {
        Command::Stop(key) => {
            reports.push(PendingReport::Usage(key.copy(), Cause::Disabled))?;
            Ok(())
        }
        Command::ReportNow(key) => {
            reports.push(PendingReport::Usage(key.copy(), Cause::Requested))?;
            Ok(())
        }
        _ => Ok(()),
    }
}

/// Adds the report of an access event that is noticed, where it is subscribed.
pub(crate) fn add_noticed(
    reports: &mut Vec<PendingReport>,
    command: &Command,
    subscribed: TriggerSet,
) -> Result<(), AllocError>
    ensures { OnOk result (reports.new.items
        ≡ reports.old.items ++ noticed_by subscribed command.now) }
{
    if let Command::Notice { kind, value } = command {
        if is_subscribed(subscribed, *kind) {
            reports.push(PendingReport::Access(*kind, value.copy()))?;
            return Ok(());
        }
    }
    Ok(())
}
