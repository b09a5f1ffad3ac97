//! Counters of keys by their own calls, worked out by hand from TS 29.212, clauses 4.5.16 and 4.5.17.

ghost use Rattle.std.specs.Prelude.{◌<◌, length};

use crate::tests::expect_equal;
use pcef_model::Level;
use pcef_rule::{KeyName, Slot};
use pcef_usage::{SlotFault, Usage};
use std::alloc::Global;
use std::process::Abort;
use std::test::Fail;

/// Gives each of these keys a slot.
fn add_keys(usage: &mut Usage, names: &[&str]) -> Result<(), Fail> {
    for name in names {
        let _slot = usage.slot(&KeyName::new(name)?, Level::Rule)?;
    }
    Ok(())
}

/// Counters of these keys.
fn usage_of(alloc: Global, names: &[&str]) -> Result<Usage, Fail> {
    let mut usage = Usage::new(alloc);
    match add_keys(&mut usage, names) {
        Ok(()) => Ok(usage),
        Err(fail) => Err(fail),
    }
}

/// A slot that a key has.
fn known(rt: &impl Abort, usage: &Usage, slot: Slot)
    ensures { slot.0 < length usage.now }
{
    assert!(rt; (slot.0 as usize) < usage.states().len());
}

fn start(rt: &impl Abort, usage: &mut Usage, slot: Slot, amount: u64) {
    known(rt, usage, slot);
    usage.start(slot, amount);
}

fn stop(rt: &impl Abort, usage: &mut Usage, slot: Slot) {
    known(rt, usage, slot);
    usage.stop(slot);
}

fn count(rt: &impl Abort, usage: &mut Usage, slot: Slot, octets: u32) {
    known(rt, usage, slot);
    assert!(rt; usage.reported(slot) < 1000);
    assert!(rt; usage.unreported(slot) < 1000);
    usage.count(slot, octets);
}

fn take_report(rt: &impl Abort, usage: &mut Usage, slot: Slot) -> u64 {
    known(rt, usage, slot);
    usage.take_report(slot)
}

/// Whether the key of a slot is on, and its reported and unreported octets.
fn figures(rt: &impl Abort, usage: &Usage, slot: Slot) -> (bool, u64, u64) {
    known(rt, usage, slot);
    (
        usage.is_on(slot),
        usage.reported(slot),
        usage.unreported(slot),
    )
}

const EIGHT: [&str; 8] = ["k0", "k1", "k2", "k3", "k4", "k5", "k6", "k7"];

/// The slot that a key gets, and the one that is then found, where the text is a name.
fn slots_of(usage: &mut Usage, name: &str) -> Option<(Result<Slot, SlotFault>, Option<Slot>)> {
    let key = KeyName::new(name).ok()?;
    Some((usage.slot(&key, Level::Rule), usage.find(&key)))
}

/// How many of the eight keys have the slot of their place.
fn in_place(usage: &mut Usage) -> u8 {
    let mut found = 0u8;
    for place in 0..8u8 {
        let slot = Slot(place);
        if slots_of(usage, EIGHT[place as usize]) == Some((Ok(slot), Some(slot))) {
            found = found.saturating_add(1);
        }
    }
    found
}

#[test]
fn eight_keys_have_slots(rt: HostRuntime) -> Result<(), Fail> {
    let mut usage = usage_of(rt.alloc(), &EIGHT)?;
    let before = usage.states().len();
    let in_place = in_place(&mut usage);
    let ninth = slots_of(&mut usage, "k8");
    let after = usage.states().len();
    let found = (before, in_place, ninth, after);
    expect_equal(
        &rt,
        &found,
        &(8, 8, Some((Err(SlotFault::KeysFull), None)), 8),
    );
    Ok(())
}

/// The figures of the second key: when it is new, after it was switched on and counted, after a report and three octets
/// more, and after it was switched off; then those of the first key, and the octets of the report.
fn switched_and_counted(
    rt: &impl Abort,
    usage: &mut Usage,
) -> ([(bool, u64, u64); 4], (bool, u64, u64), u64) {
    let new = figures(rt, usage, Slot(1));
    start(rt, usage, Slot(1), 100);
    count(rt, usage, Slot(1), 60);
    count(rt, usage, Slot(1), 7);
    let counted = figures(rt, usage, Slot(1));
    let octets_taken = take_report(rt, usage, Slot(1));
    count(rt, usage, Slot(1), 3);
    let reported = figures(rt, usage, Slot(1));
    stop(rt, usage, Slot(1));
    let off = figures(rt, usage, Slot(1));
    let other = figures(rt, usage, Slot(0));
    ([new, counted, reported, off], other, octets_taken)
}

#[test]
fn a_key_is_switched_and_counts(rt: HostRuntime) -> Result<(), Fail> {
    let mut usage = usage_of(rt.alloc(), &["video", "audio"])?;
    let found = switched_and_counted(&rt, &mut usage);
    let second = [(false, 0, 0), (true, 0, 67), (true, 67, 3), (false, 67, 3)];
    expect_equal(&rt, &found, &(second, (false, 0, 0), 67));
    Ok(())
}
