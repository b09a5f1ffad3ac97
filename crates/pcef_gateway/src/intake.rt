//! What passes between the calling thread and the rings: the packets that it sends, and what the workers hand in as it
//! closes them.

ghost use Rattle.std.specs.Prelude.{◌≡◌, ◌+◌, ◌++◌, ◌∷◌, ◌<◌, ◌≤◌, ℕ, All, IfOk, List, OnOk, [], length, slice_index_or, vec_len};
ghost use Rattle.pcef_packet.specs.declared.header.Header.{Header};
ghost use Rattle.pcef_gateway.specs.Arriving.{headers_for};
ghost use Rattle.pcef_gateway.specs.Sending.{HandInTheirs};
ghost use Rattle.pcef_gateway.specs.Serving.{HandsIn};

use crate::arrivals::Arrival;
use crate::fault::Failure;
use crate::worker_ring::{ClosedRing, WorkerRing};
use pcef_lock::Finished;
use pcef_share::Naming;
use std::alloc::Global;
use std::sync::Wait;
use std::thread::Threads;

/// What the workers handed in, by their numbers, and how many packets they dropped.
#[derive(Drop)]
pub(crate) struct HandIns<N: Naming> {
    pub(crate) finished: Vec<Finished<N>>,
    pub(crate) dropped: u64,
}

/// Appends one more. Fails when out of memory.
pub(crate) fn keep<T: Drop>(all: &mut Vec<T>, one: T) -> Result<(), Failure>
    ensures { OnOk result (all.new.items ≡ all.old.items ++ one ∷ []) }
{
    match all.push(one) {
        Ok(()) => Ok(()),
        Err(_) => Err(Failure::NoMemory),
    }
}

/// Sends each packet to its worker. Waits while that worker's ring is full.
pub(crate) fn dispatch<N: Naming + Send + Sync, R: Wait>(
    rt: &R,
    rings: &mut [WorkerRing<N>],
    arrivals: &[Arrival],
)
    requires known { All (λ a. a.worker < length rings.old) arrivals.now }
    ensures { (w : ℕ) → w < length rings.old → slice_index_or rings.new w []
        ≡ slice_index_or rings.old w [] ++ headers_for w arrivals.now }
{
    for arrival in arrivals {
        rings[usize::from(arrival.worker)].send(rt, arrival.header.header());
    }
}

/// What a worker handed in, if it had memory and has this number.
fn close_ring<N: Naming + Send + Sync, R: Threads>(
    rt: &R,
    ring: WorkerRing<N>,
    worker: u8,
) -> Result<ClosedRing<N>, Failure>
    ensures number { IfOk result (λ c. c.finished.worker ≡ worker) }
    ensures handed { IfOk result (λ c. HandsIn ring c.dropped c.finished) }
{
    let closed = ring.close(rt)?;
    if closed.lacked_memory {
        return Err(Failure::NoMemory);
    }
    if closed.finished.worker() != worker {
        return Err(Failure::Gather);
    }
    Ok(closed)
}

/// Adds what one more worker handed in.
fn add<N: Naming>(handed: &mut HandIns<N>, closed: ClosedRing<N>) -> Result<(), Failure>
    ensures finished { OnOk result (handed.new.finished.items
        ≡ handed.old.finished.items ++ closed.finished ∷ []) }
    ensures dropped { OnOk result (handed.new.dropped ≡ handed.old.dropped + closed.dropped) }
{
    let Some(dropped) = handed.dropped.checked_add(closed.dropped) else {
        return Err(Failure::Ring);
    };
    handed.dropped = dropped;
    keep(&mut handed.finished, closed.finished)
}

/// Ends the next worker's ring, waits for it, and adds what it handed in.
fn close_next<N: Naming + Send + Sync, R: Threads>(
    rt: &R,
    ring: WorkerRing<N>,
    worker: u8,
    handed: &mut HandIns<N>,
) -> Result<(), Failure>
    ensures { (sent : List (List Header))
        → HandInTheirs sent handed.old.dropped handed.old.finished.items → worker ≡ length sent
        → OnOk result (HandInTheirs (sent ++ ring ∷ [])
        handed.new.dropped handed.new.finished.items) }
{
    let closed = close_ring(rt, ring, worker)?;
    add(handed, closed)
}

/// Ends each ring, and waits for each worker.
pub(crate) fn close_all<N: Naming + Send + Sync, R: Threads>(
    rt: &R,
    alloc: Global,
    rings: Vec<WorkerRing<N>>,
) -> Result<HandIns<N>, Failure>
    requires { vec_len rings ≤ 16 }
    ensures { IfOk result (λ h. HandInTheirs rings.items h.dropped h.finished.items) }
{
    let mut handed = HandIns {
        finished: Vec::new(alloc),
        dropped: 0,
    };
    let mut worker = 0u8;
    for ring in rings {
        close_next(rt, ring, worker, &mut handed)?;
        worker += 1;
    }
    Ok(handed)
}
