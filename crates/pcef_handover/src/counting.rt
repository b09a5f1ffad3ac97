//! Commands and rows in the books and in shares.

ghost use Rattle.std.specs.Prelude.{◌≡◌, ◌+◌, ◌*◌, ◌<◌, ◌≤◌, ◌^◌, ℕ, All, length, slice_index};
ghost use Rattle.pcef_model.specs.Slots.{AreSlotsBelow};
ghost use Rattle.pcef_session.specs.Following.{HasSmallRows};
ghost use Rattle.pcef_share.specs.Amounts.{row_ledger};
ghost use Rattle.pcef_handover.specs.Counting.{with_item, with_items, with_slots};

use pcef_rule::Slot;
use pcef_session::Item;
use pcef_share::{Books, Naming, Shares};

/// Adds octets to the book of each of these slots.
fn count_octets<N: Naming>(
    books: &mut Books<N>,
    shares: &mut Shares<N>,
    slots: &[Slot],
    octets: u64,
)
    requires low { AreSlotsBelow 8 slots.now }
    requires fits { (n : ℕ) → n < 8 → slice_index books.old.totals n + octets < 2 ^ 64 }
    ensures books { books.new
        ≡ record books.old { totals = with_slots books.old.totals slots.now octets } }
    ensures shares { shares.new ≡ with_slots shares.old slots.now octets }
{
    // Most rows count for one slot.
    if slots.len() == 1 {
        books.add(shares, slots[0], octets);
        return;
    }
    for slot in slots {
        books.add(shares, *slot, octets);
    }
}

/// Counts a row.
#[tactic(auto, using(crate::proofs::Slots::slots_keep))]
fn count_item<N: Naming>(books: &mut Books<N>, shares: &mut Shares<N>, item: &Item)
    requires low { AreSlotsBelow 8 item.now.slots.items }
    requires fits { (n : ℕ) → n < 8 →
        slice_index books.old.totals n + item.now.row.header.octets < 2 ^ 64 }
    requires row { slice_index books.old.totals row_ledger + 1 < 2 ^ 64 }
    ensures books { books.new ≡ record books.old { totals = with_item books.old.totals item.now } }
    ensures shares { shares.new ≡ with_item shares.old item.now }
{
    count_octets(
        books,
        shares,
        item.slots.as_slice(),
        u64::from(item.row.header.octets),
    );
    books.add_row(shares);
}

/// Counts rows.
pub fn count_items<N: Naming>(books: &mut Books<N>, shares: &mut Shares<N>, items: &[Item])
    requires low { All (λ i. AreSlotsBelow 8 i.slots.items) items.now }
    requires octets { HasSmallRows items.now }
    requires ten { length books.old.totals ≡ 10 }
    requires fits { (n : ℕ) → n < 8 →
        slice_index books.old.totals n + 4294967295 * length items.now < 2 ^ 64 }
    requires rows { slice_index books.old.totals row_ledger + length items.now < 2 ^ 64 }
    ensures books { books.new
        ≡ record books.old { totals = with_items books.old.totals items.now } }
    ensures shares { shares.new ≡ with_items shares.old items.now }
{
    for item in items {
        count_item(books, shares, item);
    }
}
