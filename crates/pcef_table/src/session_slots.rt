//! The slots of keys of session level.

ghost use Rattle.std.specs.Prelude.{◌≡◌, ◌≤◌, ◌<◌, ◌+◌, ◌++◌, ◌∷◌, [], length, set, true, if◌then◌else◌};
ghost use Rattle.std.specs.List.{list_any};
ghost use Rattle.pcef_table.specs.SessionSlots as flag;

use arrayvec::ArrayVec;
use pcef_rule::Slot;

/// Whether each slot is that of a key of session level that is on.
pub(crate) type Flags = [bool; 8];

/// The flags with the one at a place up. Beyond them nothing changes.
fn set_up(flags: Flags, place: usize) -> Flags
    ensures { result ≡ set flags place true }
{
    let mut with = flags;
    if place < 8 {
        with[place] = true;
    }
    with
}

/// The flags with that of this slot up.
fn with_slot(slot: Option<Slot>, flags: Flags) -> Flags
    ensures { result ≡ flag.with_flag_up slot flags }
{
    match slot {
        None => flags,
        Some(slot) => set_up(flags, slot.0 as usize),
    }
}

/// Whether a flag is up. All eight are joined at once: every packet that passes comes here, and none is to branch at
/// each flag.
fn any_up(flags: &Flags) -> bool
    ensures { result ≡ list_any (λ up. up) flags.now }
{
    let [a, b, c, d, e, f, g, h] = *flags;
    a | b | c | d | e | f | g | h
}

/// A slot alone, where it is one of the eight.
fn alone(slot: Option<Slot>) -> ArrayVec<Slot, 8>
    ensures { result.items ≡ flag.slots_up (flag.with_flag_up slot flag.no_slots) }
{
    let mut slots = ArrayVec::new();
    if let Some(slot) = slot {
        if slot.0 < 8 {
            slots.push(slot);
        }
    }
    slots
}

/// The slots whose flags are up where that of this slot is up, too, in order. Most sessions have no key of session
/// level: then no flag is looked at by itself.
pub(crate) fn slots_with(slot: Option<Slot>, flags: &Flags) -> ArrayVec<Slot, 8>
    ensures { result.items ≡ flag.slots_up (flag.with_flag_up slot flags.now) }
{
    if any_up(flags) {
        slots_up(&with_slot(slot, *flags))
    } else {
        alone(slot)
    }
}

/// Adds a slot whose flag is up.
fn note(slots: &mut ArrayVec<Slot, 8>, up: bool, place: u8)
    requires { length slots.old.items < 8 }
    ensures slots { slots.new.items
        ≡ slots.old.items ++ (if up then record { 0 = place } ∷ [] else []) }
    ensures few { length slots.new.items ≤ length slots.old.items + 1 }
{
    if up {
        slots.push(Slot(place));
    }
}

/// The slots whose flags are up, in order.
pub(crate) fn slots_up(flags: &Flags) -> ArrayVec<Slot, 8>
    ensures { result.items ≡ flag.slots_up flags.now }
{
    let mut slots = ArrayVec::new();
    let mut place: u8 = 0;
    for up in flags {
        note(&mut slots, *up, place);
        place += 1;
    }
    slots
}
