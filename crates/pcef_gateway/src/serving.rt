//! A worker's part, in its thread.

ghost use Rattle.std.specs.Prelude.{◌≡◌, ◌+◌, ◌++◌, ◌∷◌, ◌<◌, [], OnOk, length};
ghost use mathlib.Core.List.{IsPrefix};
ghost use Rattle.rtrb.specs.Ring.{SameConsumer, received};
ghost use Rattle.pcef_gateway.specs.Serving.{HandsIn};
ghost use Rattle.pcef_gateway.specs.Taking.{taken_headers};

use pcef_catalog::Detects;
use pcef_lock::{Finished, Shared};
use pcef_model::FlushRefusal;
use pcef_packet::Header;
use pcef_publish::{Board, Cell};
use pcef_session::MAX_WAITING;
use pcef_share::Naming;
use pcef_worker::{Gate, Worker};
use rtrb::Consumer;
use std::sync::Wait;
use std::thread;

/// What a worker that left returns: what it hands in, its end of the ring, and how many packets it dropped.
#[derive(Drop)]
pub(crate) struct WorkerEnd<N: Naming> {
    pub(crate) finished: Finished<N>,
    pub(crate) consumer: Consumer<Header>,
    pub(crate) dropped: u64,
    pub(crate) lacked_memory: bool,
    ghost handed: { HandsIn (received consumer) dropped finished },
}

impl<N: Naming> WorkerEnd<N> {
    fn new(
        finished: Finished<N>,
        consumer: Consumer<Header>,
        dropped: u64,
        lacked_memory: bool,
    ) -> WorkerEnd<N>
        requires { HandsIn (received consumer) dropped finished }
        ensures { result.consumer ≡ consumer }
    {
        WorkerEnd {
            finished,
            consumer,
            dropped,
            lacked_memory,
        }
    }
}

/// Hands the waiting rows over.
fn flush<C: Detects + Drop, N: Naming, W: Board<Cell<N>> + Drop, G: Gate + Drop, R: Wait>(
    rt: &R,
    shared: &Shared<C, N, W>,
    worker: &mut Worker<C, N, G>,
) -> Result<(), FlushRefusal>
    ensures taken { taken_headers worker.new ≡ taken_headers worker.old }
    ensures waiting { OnOk result (worker.new.waiting ≡ []) }
{
    match worker.flush(rt, shared) {
        Ok(_) => Ok(()),
        Err(refusal) => Err(refusal),
    }
}

/// Hands the waiting rows over where 32 wait, so that there is room for one more.
fn make_room<C: Detects + Drop, N: Naming, W: Board<Cell<N>> + Drop, G: Gate + Drop, R: Wait>(
    rt: &R,
    shared: &Shared<C, N, W>,
    worker: &mut Worker<C, N, G>,
) -> Result<(), FlushRefusal>
    ensures taken { taken_headers worker.new ≡ taken_headers worker.old }
    ensures room { OnOk result (length worker.new.waiting < 32) }
{
    if worker.waiting().len() < MAX_WAITING {
        return Ok(());
    }
    flush(rt, shared, worker)
}

/// Takes a packet, for which there is room. Where none waits, it takes the newest table first: so a packet that was
/// sent to an idle worker after a command was answered is judged by what that command made.
fn take<C: Detects + Drop, N: Naming, G: Gate + Drop>(worker: &mut Worker<C, N, G>, header: Header)
    requires { length worker.old.waiting < 32 }
    ensures { taken_headers worker.new ≡ taken_headers worker.old ++ header ∷ [] }
{
    if worker.waiting().is_empty() {
        worker.refresh();
    }
    match worker.take(&header) {
        Ok(()) => {}
        Err(_) => unreachable!(),
    }
}

/// Hands the waiting rows over while the ring is empty, or yields where none wait.
fn flush_or_yield<C: Detects + Drop, N: Naming, W: Board<Cell<N>> + Drop, G: Gate + Drop, R: Wait>(
    rt: &R,
    shared: &Shared<C, N, W>,
    worker: &mut Worker<C, N, G>,
) -> Result<(), FlushRefusal>
    ensures { taken_headers worker.new ≡ taken_headers worker.old }
{
    if worker.waiting().is_empty() {
        thread::yield_now();
        return Ok(());
    }
    flush(rt, shared, worker)
}

/// Takes the next packet of the ring, and hands rows over where 32 wait or the ring is empty. Returns whether the ring
/// goes on, or the refusal where the rows are refused.
fn serve_next<C: Detects + Drop, N: Naming, W: Board<Cell<N>> + Drop, G: Gate + Drop, R: Wait>(
    rt: &R,
    shared: &Shared<C, N, W>,
    worker: &mut Worker<C, N, G>,
    consumer: &mut Consumer<Header>,
) -> Result<bool, FlushRefusal>
    requires { taken_headers worker.old ≡ received consumer.old }
    ensures ring { SameConsumer consumer.old consumer.new }
    ensures taken { taken_headers worker.new ≡ received consumer.new }
{
    make_room(rt, shared, worker)?;
    let gone = consumer.is_abandoned();
    match consumer.pop() {
        Ok(header) => take(worker, header),
        Err(_) => {
            if gone {
                return Ok(false);
            }
            flush_or_yield(rt, shared, worker)?;
        }
    }
    Ok(true)
}

/// Takes packets till the ring ends, or returns the refusal where the rows are refused.
fn serve<C: Detects + Drop, N: Naming, W: Board<Cell<N>> + Drop, G: Gate + Drop, R: Wait>(
    rt: &R,
    shared: &Shared<C, N, W>,
    worker: &mut Worker<C, N, G>,
    consumer: &mut Consumer<Header>,
) -> Result<(), FlushRefusal>
    requires { taken_headers worker.old ≡ received consumer.old }
    ensures ring { SameConsumer consumer.old consumer.new }
    ensures taken { taken_headers worker.new ≡ received consumer.new }
{
    for _ in rt.forever() {
        if !serve_next(rt, shared, worker, consumer)? {
            return Ok(());
        }
    }
    unreachable!()
}

/// Drops packets till the ring ends, and returns how many.
fn drain<R: Wait>(rt: &R, consumer: &mut Consumer<Header>) -> u64
    ensures ring { SameConsumer consumer.old consumer.new }
    ensures more { IsPrefix (received consumer.old) (received consumer.new) }
    ensures many { length (received consumer.new) ≡ length (received consumer.old) + result }
{
    let mut dropped = 0u64;
    for _ in rt.forever() {
        if dropped == u64::MAX {
            break;
        }
        let gone = consumer.is_abandoned();
        match consumer.pop() {
            Ok(_) => dropped += 1,
            Err(_) => {
                if gone {
                    break;
                }
                thread::yield_now();
            }
        }
    }
    dropped
}

/// Leaves with the last flush; where that is refused, abandons the rows that wait. Returns also whether there was no
/// memory for it.
fn leave<C: Detects + Drop, N: Naming, W: Board<Cell<N>> + Drop, G: Gate + Drop, R: Wait>(
    rt: &R,
    shared: &Shared<C, N, W>,
    worker: Worker<C, N, G>,
) -> (Finished<N>, bool)
    ensures { HandsIn (taken_headers worker) 0 result.0 }
{
    match worker.finish(rt, shared) {
        Ok((finished, _)) => (finished, false),
        Err((worker, refusal)) => {
            let lacks_memory = lacks_memory(refusal);
            (worker.abandon(rt, shared), lacks_memory)
        }
    }
}

fn lacks_memory(refusal: FlushRefusal) -> bool {
    matches!(refusal, FlushRefusal::NoMemory)
}

/// What a worker that left returns. The packets that arrive after that are dropped.
fn drain_and_depart<N: Naming, R: Wait>(
    rt: &R,
    finished: Finished<N>,
    consumer: Consumer<Header>,
    lacked_memory: bool,
) -> WorkerEnd<N>
    requires { HandsIn (received consumer) 0 finished }
    ensures { SameConsumer consumer result.consumer }
{
    let mut consumer = consumer;
    let dropped = drain(rt, &mut consumer);
    WorkerEnd::new(finished, consumer, dropped, lacked_memory)
}

/// A worker's work: it takes the packets of its ring till that ends, and leaves. After a refused flush it leaves at
/// once, and the packets that arrive after that are dropped.
pub(crate) fn work<C: Detects + Drop, N: Naming, W: Board<Cell<N>> + Drop, G: Gate + Drop, R: Wait>(
    rt: &R,
    shared: &Shared<C, N, W>,
    worker: Worker<C, N, G>,
    consumer: Consumer<Header>,
) -> WorkerEnd<N>
    requires new { taken_headers worker ≡ [] }
    requires first { received consumer ≡ [] }
    ensures { SameConsumer consumer result.consumer }
{
    let mut worker = worker;
    let mut consumer = consumer;
    match serve(rt, shared, &mut worker, &mut consumer) {
        Ok(()) => {
            let (finished, lacked_memory) = leave(rt, shared, worker);
            drain_and_depart(rt, finished, consumer, lacked_memory)
        }
        Err(refusal) => {
            let finished = worker.abandon(rt, shared);
            drain_and_depart(rt, finished, consumer, lacks_memory(refusal))
        }
    }
}
