//! The calling thread's part: it attaches the workers and starts them, sends packets to them, gives commands, and waits
//! till all have left.

ghost use Rattle.std.specs.Prelude.{◌≡◌, ◌+◌, ◌++◌, ◌∷◌, ◌<◌, ◌≤◌, ℕ, All, IfOk, List, OnOk, [], length, slice_index_or, vec_len};
ghost use Rattle.pcef_gateway.specs.Arriving.{headers_for};
ghost use Rattle.pcef_gateway.specs.Commanding.{FoundMemory, HaveAnswers};
ghost use Rattle.pcef_lock.specs.Desks.{listed};
ghost use Rattle.pcef_gateway.specs.Sending.{HandInArrivals};
ghost use Rattle.pcef_gateway.specs.Taking.{taken_headers};

use crate::arrivals::{Arrival, Workload};
use crate::ended::CommandAnswer;
use crate::fault::Failure;
use crate::gate_ref::GateRef;
use crate::intake::{HandIns, close_all, dispatch, keep};
use crate::worker_ring::WorkerRing;
use pcef_catalog::Detects;
use pcef_lock::{Desk, Shared};
use pcef_model::{Command, Refusal};
use pcef_publish::{Board, Cell};
use pcef_share::Naming;
use pcef_worker::{Gate, Worker};
use std::alloc::Global;
use std::sync::Wait;
use std::thread;
use std::thread::{Scope, Threads};

/// What the desk and the workers hand in, and the answers to the commands.
#[derive(Drop)]
pub(crate) struct RunHandIns<N: Naming> {
    pub(crate) desk: Desk<N>,
    pub(crate) answers: Vec<CommandAnswer>,
    pub(crate) handed: HandIns<N>,
}

/// What the calling thread works with: the runtime, the allocator, the session behind its lock, and the gate that is
/// lent to each worker.
#[derive(Drop)]
pub(crate) struct RunContext<
    's,
    C: Detects + Drop + Send + Sync,
    N: Naming + Send + Sync,
    W: Board<Cell<N>> + Drop + Send,
    G: Gate + Sync,
    R: Threads + Wait + Sync,
> {
    pub(crate) rt: &'s R,
    pub(crate) alloc: Global,
    pub(crate) shared: &'s Shared<'s, C, N, W>,
    pub(crate) gate: &'s G,
}

/// Returns a worker, if it has this number.
fn with_number<C: Detects + Drop, N: Naming, G: Gate + Drop>(
    worker: Worker<C, N, G>,
    number: u8,
) -> Result<Worker<C, N, G>, Failure>
    ensures { IfOk result (λ w. w ≡ worker) }
{
    if worker.worker() == number {
        Ok(worker)
    } else {
        Err(Failure::Attach)
    }
}

impl<
    's,
    C: Detects + Drop + Send + Sync,
    N: Naming + Send + Sync,
    W: Board<Cell<N>> + Drop + Send,
    G: Gate + Sync,
    R: Threads + Wait + Sync,
> RunContext<'s, C, N, W, G, R> {
    /// Attaches the worker of this number, to which the gate is lent.
    fn attach(&self, number: u8) -> Result<Worker<C, N, GateRef<'s, G>>, Failure>
        ensures { IfOk result (λ w. taken_headers w ≡ []) }
    {
        let gate = GateRef::new(self.gate);
        let worker = Worker::attach(self.rt, self.alloc, self.shared, gate)?;
        with_number(worker, number)
    }

    /// Attaches the worker of this number, and starts it in a thread of the scope.
    fn start<E>(&self, scope: &Scope<'s, E>, number: u8) -> Result<WorkerRing<N>, Failure>
        ensures { IfOk result (λ ring. ring ≡ []) }
    {
        let worker = self.attach(number)?;
        WorkerRing::start(self.rt, scope, self.alloc, self.shared, worker)
    }

    /// Starts the worker of this number, and appends its ring.
    fn start_next<E>(
        &self,
        scope: &Scope<'s, E>,
        number: u8,
        rings: &mut Vec<WorkerRing<N>>,
    ) -> Result<(), Failure>
        ensures many { OnOk result (vec_len rings.new ≡ vec_len rings.old + 1) }
        ensures empty { All (λ ring. ring ≡ []) rings.old.items
            → OnOk result (All (λ ring. ring ≡ []) rings.new.items) }
    {
        let ring = self.start(scope, number)?;
        keep(rings, ring)
    }

    /// Attaches `workers` workers, and starts each in a thread of the scope.
    pub(crate) fn start_all<E>(
        &self,
        scope: &Scope<'s, E>,
        workers: u8,
    ) -> Result<Vec<WorkerRing<N>>, Failure>
        ensures many { IfOk result (λ rings. vec_len rings ≡ workers) }
        ensures empty { IfOk result (λ rings. All (λ ring. ring ≡ []) rings.items) }
    {
        let mut rings = Vec::new(self.alloc);
        for number in 0..workers {
            self.start_next(scope, number, &mut rings)?;
        }
        Ok(rings)
    }

    /// Gives a command, and returns its answer. Fails when out of memory.
    fn execute(&self, desk: &mut Desk<N>, command: Command) -> Result<CommandAnswer, Failure>
        ensures listed { IfOk result (λ a. desk.new.commands ≡ listed a command desk.old.commands) }
        ensures memory { IfOk result FoundMemory }
    {
        match desk.command(self.rt, self.shared, command) {
            Err(Refusal::NoMemory) => Err(Failure::NoMemory),
            answer => Ok(answer),
        }
    }

    /// Gives a command, and appends its answer.
    fn execute_next(
        &self,
        desk: &mut Desk<N>,
        command: Command,
        answers: &mut Vec<CommandAnswer>,
    ) -> Result<(), Failure>
        ensures { (first given : List Command)
            → HaveAnswers first given desk.old.commands answers.old.items
            → OnOk result (HaveAnswers first (given ++ command ∷ []) desk.new.commands
            answers.new.items) }
    {
        let answer = self.execute(desk, command)?;
        keep(answers, answer)
    }

    /// Sends packets to the workers and gives the commands, spread evenly among the packets. Returns an answer for each
    /// command.
    pub(crate) fn dispatch_all(
        &self,
        desk: &mut Desk<N>,
        rings: &mut [WorkerRing<N>],
        arrivals: &[Arrival],
        commands: Vec<Command>,
    ) -> Result<Vec<CommandAnswer>, Failure>
        requires known { All (λ a. a.worker < length rings.old) arrivals.now }
        ensures packets { IfOk result (λ _. (w : ℕ) → w < length rings.old
            → slice_index_or rings.new w []
            ≡ slice_index_or rings.old w [] ++ headers_for w arrivals.now) }
        ensures answers { IfOk result (λ v.
            HaveAnswers desk.old.commands commands.items desk.new.commands v.items) }
    {
        let between = arrivals.len() / (commands.len() + 1);
        let mut left = arrivals;
        let mut answers = Vec::new(self.alloc);
        for command in commands {
            let (next, later) = left.split_at(between.min(left.len()));
            dispatch(self.rt, rings, next);
            left = later;
            self.execute_next(desk, command, &mut answers)?;
        }
        dispatch(self.rt, rings, left);
        Ok(answers)
    }

    /// Sends packets to workers, gives commands, and waits for the workers.
    fn run_intake(
        &self,
        desk: Desk<N>,
        rings: Vec<WorkerRing<N>>,
        load: Workload,
    ) -> Result<RunHandIns<N>, Failure>
        requires few { vec_len rings ≤ 16 }
        requires empty { All (λ ring. ring ≡ []) rings.items }
        requires known { All (λ a. a.worker < vec_len rings) load.arrivals.items }
        ensures answers { IfOk result (λ w.
            HaveAnswers desk.commands load.commands.items w.desk.commands w.answers.items) }
        ensures handed { IfOk result (λ w. HandInArrivals (vec_len rings) load.arrivals.items
            w.handed.dropped w.handed.finished.items) }
    {
        let Workload {
            arrivals,
            commands,
            workers: _,
        } = load;
        let mut desk = desk;
        let mut rings = rings;
        let answers = self.dispatch_all(&mut desk, &mut rings, &arrivals, commands)?;
        let handed = close_all(self.rt, self.alloc, rings)?;
        Ok(RunHandIns {
            desk,
            answers,
            handed,
        })
    }

    /// Runs the workers in threads, with the calling thread as the intake.
    pub(crate) fn work(self, desk: Desk<N>, load: Workload) -> Result<RunHandIns<N>, Failure>
        requires few { load.workers ≤ 16 }
        requires known { All (λ a. a.worker < load.workers) load.arrivals.items }
        ensures answers { IfOk result (λ w.
            HaveAnswers desk.commands load.commands.items w.desk.commands w.answers.items) }
        ensures handed { IfOk result (λ w. HandInArrivals load.workers load.arrivals.items
            w.handed.dropped w.handed.finished.items) }
    {
        thread::scope(
            thread::scope_env(),
            self.rt,
            move |scope| -> Result<RunHandIns<N>, Failure>
                requires few { load.workers ≤ 16 }
                requires known { All (λ a. a.worker < load.workers) load.arrivals.items }
                ensures answers { IfOk result (λ w.
                    HaveAnswers desk.commands load.commands.items w.desk.commands w.answers.items) }
                ensures handed { IfOk result (λ w. HandInArrivals load.workers load.arrivals.items
                    w.handed.dropped w.handed.finished.items) }
            {
                let rings = self.start_all(scope, load.workers)?;
                self.run_intake(desk, rings, load)
            },
        )
    }
}
