//! What a session has counted, and what is left of its limits, as numbers.

ghost use Rattle.std.specs.Prelude.{◌≡◌};
ghost use Rattle.pcef_c.specs.Counts.{CommandsLeftReturns, ReportedReturns, RowsLeftReturns, UnreportedReturns, WorkersLeftReturns, left_number, usage_refusal};

use pcef_handle::{Handle, UsageRefusal};

/// In place of a number: the handle has no session.
const NO_SESSION: u64 = 18_446_744_073_709_551_615;

/// In place of octets: no key has this slot.
const NO_KEY: u64 = 18_446_744_073_709_551_608;

/// What is left of a limit, or that there is no session.
fn left_number(left: Option<u64>) -> u64
    ensures { result ≡ left_number left }
{
    match left {
        Some(left) => left,
        None => NO_SESSION,
    }
}

/// Why there is no usage.
fn usage_refusal(refusal: UsageRefusal) -> u64
    ensures { result ≡ usage_refusal refusal }
{
    match refusal {
        UsageRefusal::NoSession => NO_SESSION,
        UsageRefusal::NoKey => NO_KEY,
    }
}

/// How many more rows the session takes.
pub(crate) fn rows_left(handle: &mut Handle) -> u64
    ensures { RowsLeftReturns handle.old handle.new result }
{
    left_number(handle.rows_left())
}

/// How many more commands the session's journal takes.
pub(crate) fn commands_left(handle: &mut Handle) -> u64
    ensures { CommandsLeftReturns handle.old handle.new result }
{
    left_number(handle.commands_left())
}

/// How many more workers the session attaches.
pub(crate) fn workers_left(handle: &mut Handle) -> u64
    ensures { WorkersLeftReturns handle.old handle.new result }
{
    left_number(handle.workers_left())
}

/// The reported octets of the key of a slot, or why there are none.
pub(crate) fn reported(handle: &mut Handle, slot: u8) -> u64
    ensures { ReportedReturns handle.old slot handle.new result }
{
    match handle.usage(slot) {
        Ok(usage) => usage.reported,
        Err(refusal) => usage_refusal(refusal),
    }
}

/// The unreported octets of the key of a slot, or why there are none.
pub(crate) fn unreported(handle: &mut Handle, slot: u8) -> u64
    ensures { UnreportedReturns handle.old slot handle.new result }
{
    match handle.usage(slot) {
        Ok(usage) => usage.unreported,
        Err(refusal) => usage_refusal(refusal),
    }
}
