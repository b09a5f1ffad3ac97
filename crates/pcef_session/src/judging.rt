//! Rows of packets that are judged. Each verdict is written where its row waits: a row takes 208 octets, and a verdict
//! that several branches of a function hand on is copied by each of them.

ghost use Rattle.std.specs.Prelude.{◌≡◌, ◌<◌, [], length, vec_capacity};
ghost use Rattle.pcef_table.specs.Tables.{IsTable};
ghost use Rattle.pcef_model.specs.declared.verdict.Verdict.TheVariants.{Stray};
ghost use Rattle.pcef_session.specs.Deciding.{Adds, AddsDecided};
ghost use Rattle.pcef_session.specs.Following.{HasSmallRows};

use crate::batch::Item;
use arrayvec::ArrayVec;
use pcef_catalog::Offers;
use pcef_index::Indexed;
use pcef_model::{Row, Verdict};
use pcef_packet::Header;
use pcef_rule::Slot;
use pcef_table::counted_slot;

/// Which row it is.
#[derive(Clone, Copy)]
pub struct RowId {
    /// The worker.
    pub worker: u8,
    /// How many rows the worker had before.
    pub seq: u64,
    /// The generation that judges the packet.
    pub generation: u32,
}

/// Adds the row of a packet with this verdict, and the slots that it counts for.
#[inline(always)]
fn push(
    items: &mut Vec<Item>,
    id: RowId,
    header: Header,
    verdict: Verdict,
    slots: ArrayVec<Slot, 8>,
)
    requires { length items.old.items < vec_capacity items.old }
    ensures added { Adds id header verdict slots.items items.old.items items.new.items }
    ensures small { HasSmallRows items.old.items → HasSmallRows items.new.items }
    ensures capacity { vec_capacity items.new ≡ vec_capacity items.old }
{
    items.push_reserved(Item {
        row: Row {
            worker: id.worker,
            seq: id.seq,
            generation: id.generation,
            header,
            verdict,
        },
        slots,
    });
}

/// Adds the row of a packet that isn't the session's.
#[inline(always)]
pub(crate) fn push_stray(items: &mut Vec<Item>, id: RowId, header: &Header)
    requires { length items.old.items < vec_capacity items.old }
    ensures added { Adds id header.now Stray [] items.old.items items.new.items }
    ensures small { HasSmallRows items.old.items → HasSmallRows items.new.items }
    ensures capacity { vec_capacity items.new ≡ vec_capacity items.old }
{
    push(items, id, *header, Verdict::Stray, ArrayVec::new());
}

/// Adds the row of a packet of the session, as the entry at a place decides, where there is one; and returns the place
/// of the rule that decided.
#[inline(always)]
pub(crate) fn push_decided<C: Offers>(
    items: &mut Vec<Item>,
    id: RowId,
    header: &Header,
    held: &Indexed,
    catalog: &C,
    place: Option<u8>,
) -> Option<u8>
    requires room { length items.old.items < vec_capacity items.old }
    requires table { IsTable (C.offers catalog.now) held.now.entries }
    ensures added { AddsDecided (C.offers catalog.now) held.now place id header.now result
        items.old.items items.new.items }
    ensures small { HasSmallRows items.old.items → HasSmallRows items.new.items }
    ensures capacity { vec_capacity items.new ≡ vec_capacity items.old }
{
    let Some((place, entry)) = held.entry_at(place) else {
        push(items, id, *header, Verdict::Unmatched, ArrayVec::new());
        return None;
    };
    let properties = entry.source.properties(catalog);
    if !properties.gate.opens(header.dir) {
        let rule = properties.name.copy();
        push(items, id, *header, Verdict::Gated { rule }, ArrayVec::new());
        return Some(place);
    }
    let slots = held.table().slots_where_passed(counted_slot(entry));
    let rule = properties.name.copy();
    let bearer = entry.bearer;
    push(items, id, *header, Verdict::Passed { rule, bearer }, slots);
    Some(place)
}
