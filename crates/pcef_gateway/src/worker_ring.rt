//! The ring to a worker, and the worker's thread.

ghost use Rattle.std.specs.Prelude.{◌≡◌, ◌++◌, ◌∷◌, [], IfOk};
ghost use Rattle.rtrb.specs.Ring.{SameConsumer, received};
ghost use Rattle.pcef_gateway.specs.Serving.{HandsIn};
ghost use Rattle.pcef_gateway.specs.Taking.{taken_headers};

use crate::fault::Failure;
use crate::gate_ref::GateRef;
use crate::serving::{WorkerEnd, work};
use pcef_catalog::Detects;
use pcef_lock::{Finished, Shared};
use pcef_packet::Header;
use pcef_publish::{Board, Cell};
use pcef_share::Naming;
use pcef_worker::{Gate, Worker};
use rtrb::{Consumer, Producer, PushError, RingBuffer};
use std::alloc::Global;
use std::marker::Model;
use std::snapshot::Snapshot;
use std::sync::Wait;
use std::thread;
use std::thread::{Promise, PromisedHandle, Scope, Threads};

/// The places of a ring.
const PLACES: usize = 64;

/// A worker's promise to return the end of the ring that it was given.
#[derive(Drop)]
pub(crate) struct SameRing {
    end: Snapshot<Consumer<Header>>,
}

impl<N: Naming> Promise<WorkerEnd<N>> for SameRing {
    ghost kept_by = { λ p r. SameConsumer p.end.value r.consumer };
}

/// A worker in its thread, and the ring to it. Contracts see the packets that were sent.
#[derive(Drop)]
pub(crate) struct WorkerRing<N: Naming> {
    producer: Producer<Header>,
    handle: PromisedHandle<WorkerEnd<N>, SameRing>,
}

impl<N: Naming> Model for WorkerRing<N> {
    ghost use Rattle.std.specs.Prelude.{List};
    ghost use Rattle.rtrb.specs.Ring.{IsPair, sent};
    ghost use Rattle.pcef_packet.specs.declared.header.Header.{Header};

    ghost Value = { List Header };

    ghost view = { λ l. sent l.producer };

    ghost invariant = { λ l. IsPair l.producer l.handle.promise.end.value };
}

/// What a worker that left has handed in, and how many packets it dropped.
#[derive(Drop)]
pub(crate) struct ClosedRing<N: Naming> {
    pub(crate) finished: Finished<N>,
    pub(crate) dropped: u64,
    pub(crate) lacked_memory: bool,
}

/// Starts the thread of a worker, which takes the packets of a ring.
fn thread_of<
    's,
    E,
    C: Detects + Drop + Send + Sync,
    N: Naming + Send + Sync,
    W: Board<Cell<N>> + Drop + Send,
    G: Gate + Sync,
    R: Threads + Wait + Sync,
>(
    rt: &'s R,
    scope: &Scope<'s, E>,
    shared: &'s Shared<C, N, W>,
    worker: Worker<C, N, GateRef<'s, G>>,
    consumer: Consumer<Header>,
) -> Result<PromisedHandle<WorkerEnd<N>, SameRing>, Failure>
    requires new { taken_headers worker ≡ [] }
    requires first { received consumer ≡ [] }
    ensures { IfOk result (λ handle. handle.promise.end.value ≡ consumer) }
{
    let promise = SameRing {
        end: Snapshot::of(&consumer),
    };
    let job = move || -> WorkerEnd<N>
        requires new { taken_headers worker ≡ [] }
        requires first { received consumer ≡ [] }
        ensures { SameConsumer consumer result.consumer }
    { work(rt, shared, worker, consumer) };
    match scope.spawn_with(promise, job) {
        Ok(handle) => Ok(handle),
        Err(_) => Err(Failure::Thread),
    }
}

impl<N: Naming + Send + Sync> WorkerRing<N> {
    /// Starts a worker in a thread of the scope.
    pub(crate) fn start<
        's,
        E,
        C: Detects + Drop + Send + Sync,
        W: Board<Cell<N>> + Drop + Send,
        G: Gate + Sync,
        R: Threads + Wait + Sync,
    >(
        rt: &'s R,
        scope: &Scope<'s, E>,
        alloc: Global,
        shared: &'s Shared<C, N, W>,
        worker: Worker<C, N, GateRef<'s, G>>,
    ) -> Result<WorkerRing<N>, Failure>
        requires { taken_headers worker ≡ [] }
        ensures { IfOk result (λ ring. ring ≡ []) }
    {
        match RingBuffer::new(alloc, PLACES) {
            Ok((producer, consumer)) => match thread_of(rt, scope, shared, worker, consumer) {
                Ok(handle) => Ok(WorkerRing { producer, handle }),
                Err(failure) => Err(failure),
            },
            Err(_) => Err(Failure::Ring),
        }
    }

    /// Sends a packet to the worker. Tries again while the ring is full.
    pub(crate) fn send<R: Wait>(&mut self, rt: &R, header: Header)
        ensures { self.new ≡ self.old ++ header ∷ [] }
    {
        let mut header = header;
        let producer = &mut self.producer;
        for _ in rt.forever() {
            match producer.push(header) {
                Ok(()) => return,
                Err(PushError::Full(back)) => header = back,
            }
            thread::yield_now();
        }
        unreachable!()
    }

    /// Ends the ring, and waits for the worker to leave.
    pub(crate) fn close<R: Threads>(self, rt: &R) -> Result<ClosedRing<N>, Failure>
        ensures { IfOk result (λ c. HandsIn self c.dropped c.finished) }
    {
        let WorkerRing { producer, handle } = self;
        let Some(mut ended) = producer.finish() else {
            return Err(Failure::Ring);
        };
        let WorkerEnd {
            finished,
            mut consumer,
            dropped,
            lacked_memory,
        } = handle.join(rt);
        if consumer.slots_after(&mut ended) > 0 {
            return Err(Failure::Ring);
        }
        Ok(ClosedRing {
            finished,
            dropped,
            lacked_memory,
        })
    }
}
