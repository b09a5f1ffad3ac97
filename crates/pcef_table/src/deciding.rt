//! What entries decide of a packet.

ghost use Rattle.std.specs.Prelude.{◌≡◌, ◌≤◌, All, IfSome, find, length, slice_get, Some, None};
ghost use Rattle.std.specs.Option.{option_map, option_map_or};
ghost use Rattle.pcef_packet.specs.Addresses.{is_assigned, ue_side};
ghost use Rattle.pcef_table.specs.Sources.{IsKnown, source_fits, source_is_named};
ghost use Rattle.pcef_table.specs.Verdicts.{counted_slot, gate_verdict, slot_by, verdict_by};

use crate::entry::TableEntry;
use pcef_catalog::{Detects, Offers};
use pcef_model::Verdict;
use pcef_packet::{Addr, Dir, Header};
use pcef_rule::{BearerId, Properties, RuleName, Slot};

/// Whether the address on the user equipment's side is the session's.
pub fn is_own(header: &Header, ue: Addr) -> bool
    ensures { result ≡ is_assigned (ue_side header.now) ue }
{
    header.ue_side().is_assigned(ue)
}

/// The first entry that fits, behind its place. Always inlined: of a table of one rule the call itself would be a good
/// part.
#[inline(always)]
pub(crate) fn first_fitting<'a, C: Detects>(
    catalog: &C,
    entries: &'a [TableEntry],
    ue: &Addr,
    header: &Header,
) -> Option<(u8, &'a TableEntry)>
    requires known { All (λ e. IsKnown (C.offers catalog.now) e.source) entries.now }
    requires few { length entries.now ≤ 64 }
    ensures known { IfSome result (λ found. IsKnown (C.offers catalog.now) found.1.now.source) }
    ensures first { option_map (λ found. found.1.now) result
        ≡ find (λ e. source_fits (C.offers catalog.now) ue.now header.now e.source) entries.now }
    ensures place { IfSome result (λ found. slice_get entries.now found.0 ≡ Some found.1.now) }
{
    for (place, entry) in entries.iter().enumerate() {
        if entry.source.fits(catalog, ue, header) {
            return Some((place as u8, entry));
        }
    }
    None
}

/// What the gate of a rule on this bearer decides of a packet of this direction.
pub fn gate_verdict(properties: &Properties, bearer: BearerId, dir: Dir) -> Verdict
    ensures { result ≡ gate_verdict properties.now bearer dir }
{
    if !properties.gate.opens(dir) {
        return Verdict::Gated {
            rule: properties.name.copy(),
        };
    }
    Verdict::Passed {
        rule: properties.name.copy(),
        bearer,
    }
}

/// The slot of an entry, where it is counted.
pub fn counted_slot(entry: &TableEntry) -> Option<Slot>
    ensures { result ≡ counted_slot entry.now }
{
    if entry.counted { entry.slot } else { None }
}

/// The slot that a packet counts for, where this entry decided so.
fn slot_by(entry: &TableEntry, verdict: &Verdict) -> Option<Slot>
    ensures { result ≡ slot_by entry.now verdict.now }
{
    match verdict {
        Verdict::Passed { .. } => counted_slot(entry),
        _ => None,
    }
}

/// What the gate of an entry's rule decides of a packet of this direction, and the slot that the packet
/// counts for.
pub fn judged_by<C: Offers>(catalog: &C, entry: &TableEntry, dir: Dir) -> (Verdict, Option<Slot>)
    requires { IsKnown (C.offers catalog.now) entry.now.source }
    ensures verdict { verdict_by (C.offers catalog.now) dir entry.now ≡ Some result.0 }
    ensures slot { result.1 ≡ slot_by entry.now result.0 }
{
    let properties = entry.source.properties(catalog);
    let verdict = gate_verdict(properties, entry.bearer, dir);
    let slot = slot_by(entry, &verdict);
    (verdict, slot)
}

/// The slot of the entry of a name, where it is counted.
pub(crate) fn slot_of<C: Offers>(
    catalog: &C,
    entries: &[TableEntry],
    name: &RuleName,
) -> Option<Slot>
    requires { All (λ e. IsKnown (C.offers catalog.now) e.source) entries.now }
    ensures { result ≡ option_map_or counted_slot
        (find (λ e. source_is_named (C.offers catalog.now) name.now e.source) entries.now) None }
{
    for entry in entries {
        if entry.source.is_named(catalog, name) {
            return counted_slot(entry);
        }
    }
    None
}
