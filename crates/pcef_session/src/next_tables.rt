//! Tables of the next generation.

ghost use Rattle.std.specs.Prelude.{◌≡◌, ◌<◌, ◌+◌, ◌^◌, IfOk};
ghost use Rattle.pcef_table.specs.Tables.{IsTable, without_taken};
ghost use Rattle.pcef_session.specs.private.Keys.{entries_switched, flags_left, flags_switched};

use pcef_catalog::Listing;
use pcef_model::{Command, Level};
use pcef_rule::Slot;
use pcef_table::Table;
use std::alloc::{AllocError, Global};

/// The table where the slot of a key of this level counts, or doesn't.
pub(crate) fn switch_key(
    table: &Table,
    level: Level,
    slot: Slot,
    on: bool,
) -> Result<Table, AllocError>
    requires number { table.now.number + 1 < 2 ^ 32 }
    requires slot { slot.0 < 8 }
    ensures number { IfOk result (λ t. t.number ≡ table.now.number + 1) }
    ensures entries { IfOk result
        (λ t. t.entries ≡ entries_switched level slot on table.now.entries) }
    ensures session { IfOk result
        (λ t. t.session ≡ flags_switched level slot on table.now.session) }
{
    match level {
        Level::Rule => table.counting(slot, on),
        Level::Session => table.counting_session(slot, on),
    }
}

/// The table without the rules that a command takes away, which switches no single key.
pub(crate) fn drop_rules(
    alloc: Global,
    table: &Table,
    listing: &Listing,
    command: &Command,
) -> Result<Table, AllocError>
    requires number { table.now.number + 1 < 2 ^ 32 }
    requires table { IsTable listing.now table.now.entries }
    ensures number { IfOk result (λ t. t.number ≡ table.now.number + 1) }
    ensures entries { IfOk result
        (λ t. t.entries ≡ without_taken listing.now command.now table.now.entries) }
    ensures session { IfOk result
        (λ t. t.session ≡ flags_left command.now table.now.session) }
{
    match command {
        Command::Close => table.cleared(),
        Command::Terminate => Table::empty(alloc, table.generation() + 1),
        _ => table.without_taken(listing, command),
    }
}
