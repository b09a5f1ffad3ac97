//! A desk and workers behind a lock, which make the steps of a script.

ghost use Rattle.std.specs.Prelude.{◌≤◌, ◌<◌, IfSome, length};
ghost use Rattle.std.specs.Vec.{vec_len};

use pcef_catalog::{Detects, Offers};
use pcef_lock::{Desk, Finished, Shared};
use pcef_model::{AttachFault, Report, Step};
use pcef_packet::Header;
use pcef_publish::{Board, Cell};
use pcef_share::Naming;
use pcef_worker::{OpenGate, Worker};
use pcef_world::{Abandoned, StepAnswer};
use std::alloc::{AllocError, Global};
use std::sync::Wait;

/// A desk, the attached workers, and what the others handed in as they left.
#[derive(Drop)]
pub struct Crew<C: Offers + Drop, N: Naming> {
    desk: Desk<N>,
    attached: Vec<Worker<C, N, OpenGate>>,
    left: Vec<Finished<N>>,
}

// Puts one more into a list that has room for all workers.
fn keep<T: Drop>(list: &mut Vec<T>, one: T) {
    let _ = list.push(one).ok();
}

// A worker takes a packet: how many rows wait then.
fn take_packet<C: Detects + Drop, N: Naming>(
    worker: &mut Worker<C, N, OpenGate>,
    header: &Header,
) -> StepAnswer {
    match worker.take(header) {
        Ok(()) => StepAnswer::Take(Ok(worker.waiting().len() as u8)),
        Err(full) => StepAnswer::Take(Err(full)),
    }
}

// Attaches a worker. Where there was no memory, no place was taken, so that it is made once more.
fn attached<C: Detects + Drop, N: Naming, W: Board<Cell<N>> + Drop, R: Wait>(
    rt: &R,
    alloc: Global,
    shared: &Shared<C, N, W>,
) -> Result<Worker<C, N, OpenGate>, AttachFault> {
    match Worker::attach(rt, alloc, shared, OpenGate) {
        Err(AttachFault::NoMemory) => Worker::attach(rt, alloc, shared, OpenGate),
        came => came,
    }
}

impl<C: Detects + Drop, N: Naming> Crew<C, N> {
    /// Nobody is attached yet. Takes memory for sixteen workers.
    pub fn new(alloc: Global, desk: Desk<N>) -> Result<Crew<C, N>, AllocError> {
        Ok(Crew {
            desk,
            attached: Vec::with_capacity(alloc, 16)?,
            left: Vec::with_capacity(alloc, 16)?,
        })
    }

    // The place of the worker of this number among those that are attached.
    fn place_of(&self, number: u8) -> Option<usize>
        ensures { IfSome result (λ place. place < vec_len self.now.attached) }
    {
        self.attached
            .iter()
            .position(|worker| worker.worker() == number)
    }

    // The worker of this number.
    fn worker(&mut self, number: u8) -> Option<&mut Worker<C, N, OpenGate>> {
        let place = self.place_of(number)?;
        self.attached.get_mut(place)
    }

    // Attaches a worker: its number.
    fn attach<W: Board<Cell<N>> + Drop, R: Wait>(
        &mut self,
        rt: &R,
        alloc: Global,
        shared: &Shared<C, N, W>,
    ) -> Result<u8, AttachFault> {
        let worker = attached(rt, alloc, shared)?;
        let number = worker.worker();
        keep(&mut self.attached, worker);
        Ok(number)
    }

    // A worker hands its rows over and leaves, or stays where that is refused.
    fn finish<W: Board<Cell<N>> + Drop, R: Wait>(
        &mut self,
        rt: &R,
        shared: &Shared<C, N, W>,
        worker: Worker<C, N, OpenGate>,
    ) -> StepAnswer {
        match worker.finish(rt, shared) {
            Ok((finished, verdicts)) => {
                let rows = finished.handed_over();
                keep(&mut self.left, finished);
                StepAnswer::Finish(Ok((verdicts, rows)))
            }
            Err((worker, refusal)) => {
                keep(&mut self.attached, worker);
                StepAnswer::Finish(Err(refusal))
            }
        }
    }

    // A worker leaves without its waiting rows.
    fn abandon<W: Board<Cell<N>> + Drop, R: Wait>(
        &mut self,
        rt: &R,
        shared: &Shared<C, N, W>,
        worker: Worker<C, N, OpenGate>,
    ) -> StepAnswer {
        let finished = worker.abandon(rt, shared);
        let abandoned = Abandoned {
            waiting: finished.abandoned(),
            rows: finished.handed_over(),
        };
        keep(&mut self.left, finished);
        StepAnswer::Abandon(abandoned)
    }

    // The worker of this number, which isn't among those that are attached any more.
    fn remove(&mut self, number: u8) -> Option<Worker<C, N, OpenGate>> {
        let place = self.place_of(number)?;
        Some(self.attached.remove(place))
    }

    // What the step of a worker is answered.
    fn work<W: Board<Cell<N>> + Drop, R: Wait>(
        &mut self,
        rt: &R,
        shared: &Shared<C, N, W>,
        step: &Step,
    ) -> Option<StepAnswer> {
        match step {
            Step::Take { worker, header } => Some(take_packet(self.worker(*worker)?, header)),
            Step::Refresh { worker } => {
                let held = self.worker(*worker)?.refresh();
                Some(StepAnswer::Refresh(held))
            }
            Step::Flush { worker } => {
                let answer = self.worker(*worker)?.flush(rt, shared);
                Some(StepAnswer::Flush(answer))
            }
            Step::Finish { worker } => {
                let worker = self.remove(*worker)?;
                Some(self.finish(rt, shared, worker))
            }
            Step::Abandon { worker } => {
                let worker = self.remove(*worker)?;
                Some(self.abandon(rt, shared, worker))
            }
            _ => None,
        }
    }

    /// What a step is answered.
    pub fn step<W: Board<Cell<N>> + Drop, R: Wait>(
        &mut self,
        rt: &R,
        alloc: Global,
        shared: &Shared<C, N, W>,
        step: Step,
    ) -> StepAnswer {
        match step {
            Step::Command(command) => {
                StepAnswer::Command(self.desk.command(rt, shared, command))
            }
            Step::Attach => StepAnswer::Attach(self.attach(rt, alloc, shared)),
            step => match self.work(rt, shared, &step) {
                Some(answer) => answer,
                None => StepAnswer::NoWorker,
            },
        }
    }

    /// The generation that the worker attached last holds, or 0.
    pub fn generation(&self) -> u32 {
        match self.attached.last() {
            Some(worker) => worker.generation(),
            None => 0,
        }
    }

    /// The reports since those that were collected before.
    pub fn collect<W: Board<Cell<N>> + Drop, R: Wait>(
        &mut self,
        rt: &R,
        shared: &Shared<C, N, W>,
    ) -> Result<Vec<Report>, AllocError> {
        self.desk.collect(rt, shared)
    }

    /// All workers leave: the desk, and what all workers handed in, of which there are sixteen at most.
    pub fn end<W: Board<Cell<N>> + Drop, R: Wait>(
        self,
        rt: &R,
        shared: &Shared<C, N, W>,
    ) -> (Desk<N>, Vec<Finished<N>>)
        ensures { length result.1.items ≤ 16 }
    {
        let Crew {
            desk,
            attached,
            left,
        } = self;
        let mut left = left;
        for worker in attached {
            keep(&mut left, worker.abandon(rt, shared));
        }
        left.truncate(16);
        (desk, left)
    }
}
