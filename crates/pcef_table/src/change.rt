//! Which entries of a generation go into the next one.

ghost use Rattle.std.specs.Prelude.{◌≡◌, ◌++◌, ◌∷◌, [], All, IfOk, OnOk, filter, map, if◌then◌else◌};
ghost use Rattle.pcef_table.specs.Sides.{stays_beside};
ghost use Rattle.pcef_table.specs.Sources.{IsKnown};
ghost use Rattle.pcef_table.specs.Tables.{is_taken, placed, with_counting, without_taken};

use crate::entry::{Source, TableEntry};
use pcef_catalog::Offers;
use pcef_model::Command;
use pcef_rule::Slot;
use std::alloc::{AllocError, Global};

/// Where an entry stands beside another one.
#[derive(Clone, Copy)]
enum Side {
    Before,
    Behind,
}

/// Whether an entry stands on this side of x and has another name.
fn stays<C: Offers>(catalog: &C, x: &TableEntry, side: Side, entry: &TableEntry) -> bool
    requires x_known { IsKnown (C.offers catalog.now) x.now.source }
    requires known { IsKnown (C.offers catalog.now) entry.now.source }
    ensures { result ≡ stays_beside (C.offers catalog.now) x.now side entry.now }
{
    let order = match side {
        Side::Before => entry.source.compare(catalog, &x.source),
        Side::Behind => x.source.compare(catalog, &entry.source),
    };
    let name = &x.source.properties(catalog).name;
    !entry.source.is_named(catalog, name) && order.is_lt()
}

/// Appends a copy of an entry that stays.
fn keep(kept: &mut Vec<TableEntry>, entry: &TableEntry, stays: bool) -> Result<(), AllocError>
    ensures { OnOk result
        (kept.new.items ≡ kept.old.items ++ (if stays then entry.now ∷ [] else [])) }
{
    if stays {
        kept.push(entry.copy()?)?;
    }
    Ok(())
}

/// Whether a command takes the rule of an entry away.
fn is_taken<C: Offers>(catalog: &C, command: &Command, entry: &TableEntry) -> bool
    requires { IsKnown (C.offers catalog.now) entry.now.source }
    ensures { result ≡ is_taken (C.offers catalog.now) command.now entry.now }
{
    command.takes_away(&entry.source.properties(catalog).name, entry.bearer)
}

/// Copies of the entries without those whose rules a command takes away.
pub(crate) fn copy_without_taken<C: Offers>(
    alloc: Global,
    catalog: &C,
    entries: &[TableEntry],
    command: &Command,
) -> Result<Vec<TableEntry>, AllocError>
    requires { All (λ e. IsKnown (C.offers catalog.now) e.source) entries.now }
    ensures { IfOk result
        (λ v. v.items ≡ without_taken (C.offers catalog.now) command.now entries.now) }
{
    let mut kept = Vec::with_capacity(alloc, entries.len())?;
    for entry in entries {
        let stays = !is_taken(catalog, command, entry);
        keep(&mut kept, entry, stays)?;
    }
    Ok(kept)
}

/// Appends copies of the entries that stand on this side of x and have other names.
fn copy_side<C: Offers>(
    catalog: &C,
    entries: &[TableEntry],
    x: &TableEntry,
    side: Side,
    kept: &mut Vec<TableEntry>,
) -> Result<(), AllocError>
    requires known { All (λ e. IsKnown (C.offers catalog.now) e.source) entries.now }
    requires x_known { IsKnown (C.offers catalog.now) x.now.source }
    ensures { OnOk result (kept.new.items
        ≡ kept.old.items ++ filter (stays_beside (C.offers catalog.now) x.now side) entries.now) }
{
    for entry in entries {
        let stays = stays(catalog, x, side, entry);
        keep(kept, entry, stays)?;
    }
    Ok(())
}

/// Copies of the entries, with x in its place and in the place of the one of its name.
pub(crate) fn copy_with<C: Offers>(
    alloc: Global,
    catalog: &C,
    entries: &[TableEntry],
    x: TableEntry,
) -> Result<Vec<TableEntry>, AllocError>
    requires known { All (λ e. IsKnown (C.offers catalog.now) e.source) entries.now }
    requires x_known { IsKnown (C.offers catalog.now) x.source }
    ensures { IfOk result (λ v. v.items ≡ placed (C.offers catalog.now) x entries.now) }
{
    let mut kept = Vec::with_capacity(alloc, entries.len())?;
    copy_side(catalog, entries, &x, Side::Before, &mut kept)?;
    let mut behind = Vec::new(alloc);
    copy_side(catalog, entries, &x, Side::Behind, &mut behind)?;
    kept.push(x)?;
    kept.append(&mut behind)?;
    Ok(kept)
}

/// Copies of all entries.
pub(crate) fn copy_all(alloc: Global, entries: &[TableEntry]) -> Result<Vec<TableEntry>, AllocError>
    ensures { IfOk result (λ v. v.items ≡ entries.now) }
{
    let mut copies = Vec::with_capacity(alloc, entries.len())?;
    for entry in entries {
        copies.push(entry.copy()?)?;
    }
    Ok(copies)
}

/// A copy of an entry, whose slot is counted or not.
fn copy_counting_one(entry: &TableEntry, slot: Slot, on: bool) -> Result<TableEntry, AllocError>
    ensures { IfOk result (λ e. e ≡ with_counting slot on entry.now) }
{
    let mut copy = entry.copy()?;
    if entry.slot == Some(slot) {
        copy.counted = on;
    }
    Ok(copy)
}

/// Copies of all entries, where a slot is counted or not.
pub(crate) fn copy_counting(
    alloc: Global,
    entries: &[TableEntry],
    slot: Slot,
    on: bool,
) -> Result<Vec<TableEntry>, AllocError>
    ensures { IfOk result (λ v. v.items ≡ map (with_counting slot on) entries.now) }
{
    let mut copies = Vec::with_capacity(alloc, entries.len())?;
    for entry in entries {
        copies.push(copy_counting_one(entry, slot, on)?)?;
    }
    Ok(copies)
}

/// Copies of the rules of entries.
pub(crate) fn copy_sources(alloc: Global, entries: &[TableEntry]) -> Result<Vec<Source>, AllocError>
    ensures { IfOk result (λ v. v.items ≡ map (λ e. e.source) entries.now) }
{
    let mut sources = Vec::with_capacity(alloc, entries.len())?;
    for entry in entries {
        sources.push(entry.source.copy()?)?;
    }
    Ok(sources)
}
