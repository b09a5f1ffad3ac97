//! Workers that judge by the table that they hold, and hand nothing over.

ghost use Rattle.std.specs.Prelude.{◌≡◌};
ghost use Rattle.pcef_lock.specs.Judging.{FollowsLast};
ghost use Rattle.pcef_share.specs.Amounts.{zeros};

use super::opening::packets_of;
use super::working::Left;
use pcef_catalog::Detects;
use pcef_flow::FlowCache;
use pcef_lock::{Departure, Finished, OwnRows, Seat, Shared};
use pcef_packet::Header;
use pcef_publish::{Board, Cell};
use pcef_session::{Batch, MAX_WAITING};
use pcef_share::{Naming, Shares};
use std::alloc::Global;
use std::sync::Wait;

/// What a worker judges with, and the rows that wait.
#[derive(Drop)]
struct Alone<N: Naming> {
    seat: Seat<N>,
    flows: FlowCache,
    batch: Batch,
}

/// Judges a packet, whose row then waits where there is room.
fn judge_one<C: Detects, N: Naming>(catalog: &C, alone: &mut Alone<N>, packet: &Header)
    requires offers { C.offers catalog.now ≡ N.setting.catalog }
    requires ue { alone.old.seat.ue ≡ N.setting.ue }
    requires follows { FollowsLast N.setting alone.old.seat.subscriber alone.old.flows }
    ensures seat { alone.new.seat ≡ alone.old.seat }
    ensures follows { FollowsLast N.setting alone.new.seat.subscriber alone.new.flows }
{
    let waiting = alone.batch.len();
    if waiting >= MAX_WAITING {
        return;
    }
    alone.seat.judge(
        catalog,
        &mut alone.flows,
        waiting as u64,
        packet,
        &mut alone.batch,
    );
}

/// Judges the packets of a batch; their rows then wait.
fn judge_each<C: Detects, N: Naming>(catalog: &C, alone: &mut Alone<N>, packets: &[Header])
    requires offers { C.offers catalog.now ≡ N.setting.catalog }
    requires ue { alone.old.seat.ue ≡ N.setting.ue }
    requires follows { FollowsLast N.setting alone.old.seat.subscriber alone.old.flows }
    ensures seat { alone.new.seat ≡ alone.old.seat }
    ensures follows { FollowsLast N.setting alone.new.seat.subscriber alone.new.flows }
{
    for packet in packets {
        judge_one(catalog, alone, packet);
    }
}

/// Takes the newest table where it refreshes.
fn refresh_if<C: Detects, N: Naming>(catalog: &C, alone: &mut Alone<N>, refreshes: bool)
    requires offers { C.offers catalog.now ≡ N.setting.catalog }
    requires follows { FollowsLast N.setting alone.old.seat.subscriber alone.old.flows }
    ensures ue { alone.new.seat.ue ≡ alone.old.seat.ue }
    ensures shares { alone.new.seat.shares ≡ alone.old.seat.shares }
    ensures follows { FollowsLast N.setting alone.new.seat.subscriber alone.new.flows }
{
    if refreshes {
        alone.seat.refresh(catalog, &mut alone.flows);
    }
}

/// The number of rows that wait if the last one counts for a key, else 0.
fn rows_if_counted(batch: &Batch) -> u64 {
    match batch.items().last() {
        Some(item) if !item.slots.is_empty() => batch.len() as u64,
        _ => 0,
    }
}

/// Judges `batches` batches of packets, each by the newest table if it refreshes, and returns how many rows were
/// judged.
fn judge_batches<C: Detects, N: Naming>(
    catalog: &C,
    alone: &mut Alone<N>,
    packets: &[Header],
    batches: u32,
    refreshes: bool,
) -> u64
    requires offers { C.offers catalog.now ≡ N.setting.catalog }
    requires ue { alone.old.seat.ue ≡ N.setting.ue }
    requires follows { FollowsLast N.setting alone.old.seat.subscriber alone.old.flows }
    ensures shares { alone.new.seat.shares ≡ alone.old.seat.shares }
{
    let mut judged: u64 = 0;
    for number in 0..batches {
        refresh_if(catalog, alone, refreshes);
        judge_each(catalog, alone, packets_of(packets, number));
        judged = judged.saturating_add(rows_if_counted(&alone.batch));
        alone.batch.clear();
    }
    judged
}

/// What a worker hands in without rows.
fn without_rows<N: Naming>(alloc: Global, departure: Departure<N>, shares: Shares<N>) -> Finished<N>
    requires { shares ≡ zeros }
{
    Finished::new(departure, OwnRows::new(alloc), shares)
}

/// A worker attaches, judges packets for itself alone and leaves.
pub fn judged_alone<C: Detects + Drop, N: Naming, W: Board<Cell<N>> + Drop, R: Wait>(
    rt: &R,
    alloc: Global,
    shared: &Shared<C, N, W>,
    packets: &[Header],
    batches: u32,
    refreshes: bool,
) -> Option<Left<N>> {
    let catalog = shared.catalog().ok()?;
    let batch = Batch::new(alloc).ok()?;
    let mut flows = FlowCache::new(alloc, 256).ok()?;
    let Ok(seat) = shared.attach(rt) else {
        return None;
    };
    seat.follow(&*catalog, &mut flows);
    let mut alone = Alone { seat, flows, batch };
    let judged = judge_batches(&*catalog, &mut alone, packets, batches, refreshes);
    alone.batch.clear();
    let departure = shared.abandon(rt, &alone.seat, &alone.batch);
    let Alone {
        seat,
        flows: _,
        batch: _,
    } = alone;
    let Seat {
        worker: _,
        shares,
        subscriber: _,
        ue: _,
    } = seat;
    Some(Left {
        finished: without_rows(alloc, departure, shares),
        judged,
        flushes: Vec::new(alloc),
    })
}
