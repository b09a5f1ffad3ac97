//! The functions that C calls for what a session has counted, for what is left of its limits, for its bearers, and for the
//! names of rules: each makes one call of a safe function, by a pointer to a handle. `include/pcef.h` says what the caller owes.

ghost use Rattle.std.specs.Borrow.{sem};
ghost use Rattle.pcef_handle.specs.declared.held.Handle.{Handle};
ghost use Rattle.pcef_c.specs.Bearers.{BearerReturns};
ghost use Rattle.pcef_c.specs.Counts.{CommandsLeftReturns, ReportedReturns, RowsLeftReturns, UnreportedReturns, WorkersLeftReturns};
ghost use Rattle.pcef_handle.specs.declared.worker.WorkerHandle.{WorkerHandle};
ghost use Rattle.pcef_c.specs.Handles.{lies, worker_lies};
ghost use Rattle.pcef_c.specs.Names.{HeldRuleReturns, RuleReturns};

use crate::bearers::{CBearer, bearer};
use crate::counts::{commands_left, reported, rows_left, unreported, workers_left};
use crate::names::{rule, worker_rule};
use pcef_handle::{Handle, WorkerHandle};

/// How many more rows the session takes: those that its profile allows, less those that were handed over; or that there
/// is no session. Takes no memory.
#[unsafe(no_mangle)]
pub unsafe extern "C" fn pcef_rows_left(at: *mut u8) -> u64
    ghost old: { Handle }
    requires* { sem 𝓛 (lies at old) }
    ensures* { ∃ₛ (λ (new : Handle). sem 𝓛 (lies at new) ∗ ⌜ RowsLeftReturns old new result ⌝) }
{
    rows_left(&mut *(at as *mut Handle))
}

/// How many more commands the session's journal takes, or that there is no session. Takes no memory.
#[unsafe(no_mangle)]
pub unsafe extern "C" fn pcef_commands_left(at: *mut u8) -> u64
    ghost old: { Handle }
    requires* { sem 𝓛 (lies at old) }
    ensures* { ∃ₛ (λ (new : Handle). sem 𝓛 (lies at new) ∗ ⌜ CommandsLeftReturns old new result ⌝) }
{
    commands_left(&mut *(at as *mut Handle))
}

/// How many more workers the session attaches: 16 in its life, less those that ever were; or that there is no session.
/// Takes no memory.
#[unsafe(no_mangle)]
pub unsafe extern "C" fn pcef_workers_left(at: *mut u8) -> u64
    ghost old: { Handle }
    requires* { sem 𝓛 (lies at old) }
    ensures* { ∃ₛ (λ (new : Handle). sem 𝓛 (lies at new) ∗ ⌜ WorkersLeftReturns old new result ⌝) }
{
    workers_left(&mut *(at as *mut Handle))
}

/// The octets that usage reports have for the key of a slot, or that there is no session or no such key. Takes no memory.
#[unsafe(no_mangle)]
pub unsafe extern "C" fn pcef_reported(at: *mut u8, slot: u8) -> u64
    ghost old: { Handle }
    requires* { sem 𝓛 (lies at old) }
    ensures* { ∃ₛ (λ (new : Handle). sem 𝓛 (lies at new) ∗ ⌜ ReportedReturns old slot new result ⌝) }
{
    reported(&mut *(at as *mut Handle), slot)
}

/// The octets that rows counted for the key of a slot and no report has, or that there is no session or no such key. Takes
/// no memory.
#[unsafe(no_mangle)]
pub unsafe extern "C" fn pcef_unreported(at: *mut u8, slot: u8) -> u64
    ghost old: { Handle }
    requires* { sem 𝓛 (lies at old) }
    ensures* { ∃ₛ (λ (new : Handle). sem 𝓛 (lies at new) ∗ ⌜ UnreportedReturns old slot new result ⌝) }
{
    unreported(&mut *(at as *mut Handle), slot)
}

/// Writes what the bearer of an id has in the newest generation, and returns 0; or that there is no session or no such
/// bearer, and then nothing is written. Takes no memory.
#[unsafe(no_mangle)]
pub unsafe extern "C" fn pcef_bearer(at: *mut u8, id: u8, state: &mut CBearer) -> u8
    ghost old: { Handle }
    requires* { sem 𝓛 (lies at old) }
    ensures* { ∃ₛ (λ (new : Handle). sem 𝓛 (lies at new)
        ∗ ⌜ BearerReturns old id state.old new state.new result ⌝) }
{
    bearer(&mut *(at as *mut Handle), id, state)
}

/// Writes the name of the rule at a place of the newest generation, as much of it as fits. Returns its length in octets,
/// or that there is no session or no such rule. Takes no memory.
#[unsafe(no_mangle)]
pub unsafe extern "C" fn pcef_rule(at: *mut u8, place: u8, name: &mut [u8]) -> usize
    ghost old: { Handle }
    requires* { sem 𝓛 (lies at old) }
    ensures* { ∃ₛ (λ (new : Handle). sem 𝓛 (lies at new)
        ∗ ⌜ RuleReturns old place name.old new name.new result ⌝) }
{
    rule(&mut *(at as *mut Handle), place, name)
}

/// Writes the name of the rule at a place of the generation that a worker holds, as much of it as fits. Returns its
/// length in octets, or that there is no worker or no such rule. Takes no memory.
#[unsafe(no_mangle)]
pub unsafe extern "C" fn pcef_worker_rule(worker: *mut u8, place: u8, name: &mut [u8]) -> usize
    ghost old: { WorkerHandle }
    requires* { sem 𝓛 (worker_lies worker old) }
    ensures* { ∃ₛ (λ (new : WorkerHandle). sem 𝓛 (worker_lies worker new)
        ∗ ⌜ HeldRuleReturns old place name.old new name.new result ⌝) }
{
    worker_rule(&mut *(worker as *mut WorkerHandle), place, name)
}
