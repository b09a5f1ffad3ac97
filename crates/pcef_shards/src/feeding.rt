//! What the reading thread does.

ghost use Rattle.std.specs.Prelude.{◌≡◌, ◌≢◌, ◌++◌, ◌<◌, ℕ, [], OnOk, length};
ghost use Rattle.pcef_shards.specs.Leading.{FollowsIn, IfKnown, part_known};
ghost use Rattle.pcef_shards.specs.Sorted.{IsSorted, Stays, waits};
ghost use Rattle.pcef_shards.specs.Ways.{Begins, LeadsAll, led_to};

use crate::lane::{Lane, Stop};
use crate::parcel::Leading;
use crate::signals::Signals;
use crate::sorting::Sorting;
use pcef_script::read_some;
use std::io::Read;
use std::sync::Wait;

/// The most octets that are read at once.
const BLOCK: usize = 65_536;

/// Leads to a thread what waits for it.
fn lead_part<N: Leading, T: Wait>(
    rt: &T,
    signals: &Signals,
    sorting: &mut Sorting,
    lane: &mut Lane<N>,
    thread: usize,
) -> Result<(), Stop>
    requires { IfKnown (N.part thread) (Begins (lane.old ++ waits sorting.old thread)) }
    ensures led { OnOk result (lane.new ≡ lane.old ++ waits sorting.old thread) }
    ensures none { OnOk result (waits sorting.new thread ≡ []) }
    ensures others { (t : ℕ) → t ≢ thread → waits sorting.new t ≡ waits sorting.old t }
    ensures rest { Stays sorting.old sorting.new }
{
    let part = sorting.take(thread);
    if part.is_empty() {
        return Ok(());
    }
    lane.lead(rt, signals, thread, Some(part))
}

/// Leads to each thread what waits for it.
fn lead_parts<N: Leading, T: Wait>(
    rt: &T,
    signals: &Signals,
    sorting: &mut Sorting,
    lanes: &mut [Lane<N>],
) -> Result<(), Stop>
    requires { (t : ℕ) → t < length lanes.old
        → IfKnown (N.part t) (Begins (led_to lanes.old t ++ waits sorting.old t)) }
    ensures many { length lanes.new ≡ length lanes.old }
    ensures led { OnOk result (LeadsAll lanes.old sorting.old lanes.new sorting.new) }
    ensures rest { Stays sorting.old sorting.new }
{
    for thread in 0..lanes.len() {
        lead_part(rt, signals, sorting, &mut lanes[thread], thread)?;
    }
    Ok(())
}

/// Leads the end to each thread, behind its part.
fn lead_ends<N: Leading, T: Wait>(
    rt: &T,
    signals: &Signals,
    lanes: &mut [Lane<N>],
) -> Result<(), Stop>
    requires { (t : ℕ) → t < length lanes.old
        → IfKnown (N.part t) (λ whole. whole ≡ led_to lanes.old t) }
{
    for thread in 0..lanes.len() {
        lanes[thread].lead(rt, signals, thread, None)?;
    }
    Ok(())
}

/// Reads lines to their end, and leads each to its thread.
fn lead<N: Leading, T: Wait, R: Read>(
    rt: &T,
    signals: &Signals,
    reader: &mut R,
    sorting: &mut Sorting,
    lanes: &mut [Lane<N>],
) -> Result<(), Stop>
    requires sorted { IsSorted sorting.old.picking.keys (length lanes.old) (led_to lanes.old)
        sorting.old [] }
    requires parts { N.part ≡ part_known sorting.old.picking.keys (length lanes.old)
        (R.remaining reader.old) }
{
    let mut block = [0u8; BLOCK];
    for _ in 0..u64::MAX {
        match read_some(reader, &mut block, BLOCK) {
            Ok(0) => {
                sorting.end()?;
                lead_parts(rt, signals, sorting, lanes)?;
                return lead_ends(rt, signals, lanes);
            }
            Ok(n) => {
                sorting.sort(&block[..n])?;
                lead_parts(rt, signals, sorting, lanes)?;
            }
            Err(_) => return Err(Stop::Read),
        }
    }
    Err(Stop::Read)
}

/// Reads lines to their end, leads each to its thread, and ends the ways.
pub(crate) fn feed<N: Leading, T: Wait, R: Read>(
    rt: &T,
    signals: &Signals,
    reader: &mut R,
    sorting: Sorting,
    lanes: Vec<Lane<N>>,
)
    requires sorted { IsSorted sorting.picking.keys (length lanes.items) (led_to lanes.items) sorting [] }
    requires parts { N.part ≡ part_known sorting.picking.keys (length lanes.items)
        (R.remaining reader.old) }
{
    let mut sorting = sorting;
    let mut lanes = lanes;
    if let Err(Stop::NoMemory) = lead(rt, signals, reader, &mut sorting, &mut lanes) {
        signals.signal_lack();
    }
    drop(lanes);
    signals.wake_all();
}
