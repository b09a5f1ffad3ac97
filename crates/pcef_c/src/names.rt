//! The names of rules, as C gets them.

ghost use Rattle.std.specs.Prelude.{◌≡◌};
ghost use Rattle.pcef_c.specs.Names.{HeldRuleReturns, RuleReturns, name_number};

use pcef_handle::{Handle, NameRefusal, WorkerHandle};

/// The length of a name, or why there is none.
fn name_number(outcome: Result<usize, NameRefusal>) -> usize
    ensures { result ≡ name_number outcome }
{
    match outcome {
        Ok(length) => length,
        Err(NameRefusal::NoOwner) => 18_446_744_073_709_551_615,
        Err(NameRefusal::NoRule) => 18_446_744_073_709_551_607,
    }
}

/// Writes the name of the rule at a place of the newest generation. Returns its length, or why there is none.
pub(crate) fn rule(handle: &mut Handle, place: u8, name: &mut [u8]) -> usize
    ensures { RuleReturns handle.old place name.old handle.new name.new result }
{
    let outcome = handle.rule_name(place, name);
    name_number(outcome)
}

/// Writes the name of the rule at a place of the generation that a worker holds. Returns its length, or why there is
/// none.
pub(crate) fn worker_rule(worker: &mut WorkerHandle, place: u8, name: &mut [u8]) -> usize
    ensures { HeldRuleReturns worker.old place name.old worker.new name.new result }
{
    let outcome = worker.rule_name(place, name);
    name_number(outcome)
}
