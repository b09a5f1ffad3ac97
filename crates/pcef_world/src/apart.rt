//! Workers that stand apart from their session: each is a value of its own, which a thread of its own may have. It
//! judges without the session, and meets it to take a newer table, to hand its rows over and to leave.

ghost use Rattle.std.specs.Prelude.{◌≡◌, ◌≤◌, IfOk, OnErr};
ghost use Rattle.pcef_table.specs.Tables.{IsTable};
ghost use Rattle.pcef_world.specs.Steps.{standing_of};
ghost use Rattle.pcef_world.specs.Apart.{AbandonsApart, FinishesApart, FlushesApart, IsApart, IsNewApart, IsRefreshed, LacksApart, TakesApart, held_apart, worker_number};
ghost use Rattle.pcef_model.specs.Outcomes.{AttachStep};
ghost use Rattle.pcef_world.specs.ApartLaws.{StaysBesideComing, StaysBesideFinishing, StaysBesideFlushes, StaysBesideLeaving, StaysBesideSteps, StaysBesideTheSame, StaysByRefreshing, StaysByTaking};
ghost use Rattle.pcef_world.specs.Workers.{PlacesLast, waiting_count};
ghost use Rattle.pcef_flow.specs.Flows.{Remembers};

use crate::answer::Abandoned;
use crate::worker::{Taken, WorldWorker};
use crate::world::{WorldState, newest};
use pcef_catalog::Detects;
use pcef_flow::FlowCache;
use pcef_index::Indexed;
use pcef_model::{AttachFault, FlushRefusal, Verdicts};
use pcef_packet::{Addr, Header};
use pcef_session::{BatchFull, Item, WaitingRows};
use std::alloc::AllocError;
use std::sync::Arc;

/// A worker that stands apart from its session: the table that it holds, its waiting rows, the address of the session's
/// user equipment, and how many rows it has handed over.
#[derive(Drop)]
pub struct ApartWorker {
    /// The worker.
    pub worker: WorldWorker,
    /// The address of the session's user equipment.
    pub ue: Addr,
    /// How many rows it has handed over.
    pub handed_over: u64,
}

impl ApartWorker {
    /// The number of the worker.
    pub fn number(&self) -> u8
        ensures { result ≡ self.now.worker.number }
    {
        self.worker.number
    }

    /// The table that it holds, with its index.
    pub fn held(&self) -> &Indexed
        ensures { result.now ≡ held_apart self.now }
    {
        &self.worker.held
    }

    /// The rows that wait, in order, each with the slots that it counts for.
    pub fn waiting(&self) -> &[Item]
        ensures { result.now ≡ self.now.worker.waiting }
    {
        self.worker.waiting.items()
    }

    /// Judges a packet by the table that is held, or by what a cache of its flows remembers, lets its row wait, and
    /// returns how many wait then; or says that 32 wait, which changes nothing of the worker. Out of memory changes
    /// nothing of it either.
    pub fn take<C: Detects>(
        &mut self,
        catalog: &C,
        flows: &mut FlowCache,
        header: &Header,
    ) -> Result<Result<Taken, BatchFull>, AllocError>
        requires table { IsTable (C.offers catalog.now) (held_apart self.old).entries }
        requires remembers { Remembers (C.offers catalog.now) (held_apart self.old).entries self.old.ue flows.old }
        requires few { self.old.handed_over ≤ 4294967295 }
        ensures taken { IfOk result (λ answer. TakesApart (C.offers catalog.now) header.now self.old
            (waiting_count answer) self.new) }
        ensures place { IfOk result (λ answer. IfOk answer (λ taken. PlacesLast (C.offers catalog.now)
            self.new.worker taken.place)) }
        ensures lacks { OnErr result (LacksApart self.old self.new) }
        ensures remembers { Remembers (C.offers catalog.now) (held_apart self.new).entries self.new.ue flows.new }
    {
        self.worker
            .take_by_flows(catalog, flows, self.ue, self.handed_over, header)
    }
}

impl WorldState {
    /// Attaches a worker that stands apart: it holds the newest table, and no row waits. Its place among the session's
    /// own workers is empty, so that no step has its number.
    pub fn attach_apart(&mut self) -> Result<ApartWorker, AttachFault>
        ensures answer { AttachStep self.old.session.journal (worker_number result) self.new.session.journal }
        ensures apart { IfOk result (λ a. IsNewApart self.old self.new a) }
        ensures refused { OnErr result (standing_of self.new ≡ standing_of self.old) }
        ensures setting { self.new.session.setting ≡ self.old.session.setting }
        ensures forgotten { self.new.session.forgotten ≡ self.old.session.forgotten }
    {
        if let Some(fault) = self.session.attach_fault() {
            return Err(fault);
        }
        if self.workers.reserve(1).is_err() {
            return Err(AttachFault::NoMemory);
        }
        let Ok(held) = newest(&self.session) else {
            return Err(AttachFault::NoMemory);
        };
        let ue = self.session.profile().ue;
        self.is_followed = false;
        let number = self.session.attach()?;
        self.workers.push_reserved(None);
        Ok(ApartWorker {
            worker: WorldWorker {
                number,
                held,
                waiting: WaitingRows::new(self.alloc),
            },
            ue,
            handed_over: 0,
        })
    }

    /// A worker that stands apart takes the newest table, and its generation is returned. Its rows go on waiting.
    pub fn refresh_apart(&self, apart: &mut ApartWorker) -> Result<u32, AllocError>
        ensures refreshed { IfOk result (λ g. IsRefreshed self.now.session g apart.old apart.new) }
        ensures lacks { OnErr result (apart.new ≡ apart.old) }
    {
        apart.worker.held = Arc::try_clone(self.session.indexed())?;
        Ok(apart.worker.held.generation())
    }

    /// A worker that stands apart hands its waiting rows over, all or none.
    pub fn flush_apart(&mut self, apart: &mut ApartWorker) -> Result<Verdicts, FlushRefusal>
        requires { IsApart self.old apart.old }
        ensures { FlushesApart self.old apart.old result self.new apart.new }
    {
        self.is_followed = false;
        let number = apart.worker.number;
        let answer = apart.worker.flush(&mut self.session);
        // Read back, so that there is no branch here: where the rows were refused, the lane is as it was.
        let handed_over = self.session.lane_len(number);
        apart.handed_over = handed_over;
        answer
    }

    /// A worker that stands apart hands its last rows over and leaves; or it is refused, and nothing changes.
    pub fn finish_apart(&mut self, apart: &ApartWorker) -> Result<(Verdicts, u64), FlushRefusal>
        requires { IsApart self.old apart.now }
        ensures { FinishesApart self.old apart.now result self.new }
    {
        self.is_followed = false;
        apart.worker.finish(&mut self.session)
    }

    /// A worker that stands apart leaves without its waiting rows, which get no verdict.
    pub fn abandon_apart(&mut self, apart: &ApartWorker) -> Abandoned
        requires { IsApart self.old apart.now }
        ensures { AbandonsApart self.old apart.now result self.new }
    {
        self.is_followed = false;
        Abandoned {
            waiting: apart.worker.waiting.len() as u8,
            rows: self.session.abandon(apart.worker.number),
        }
    }
}

/// A worker that stands apart stays one of its session's: what it does alone keeps it so, and whatever the session does
/// but with this worker. So all that its owner owes is to let it meet no other session.
pub fn apart_workers_stay()
    ensures takes { StaysByTaking }
    ensures refreshes { StaysByRefreshing }
    ensures same { StaysBesideTheSame }
    ensures steps { StaysBesideSteps }
    ensures comings { StaysBesideComing }
    ensures flushes { StaysBesideFlushes }
    ensures finishes { StaysBesideFinishing }
    ensures leavings { StaysBesideLeaving }
{}

fn is_send<T: Send>(_value: &T) {}

/// A session and a worker that stands apart may go to other threads, each on its own: that is what their types say.
pub fn parts_are_send(world: &WorldState, apart: &ApartWorker) {
    is_send(world);
    is_send(apart);
}
