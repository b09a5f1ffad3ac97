//! A session and its workers.

ghost use Rattle.std.specs.Prelude.{◌≡◌, ◌≤◌, [], IfErr, IfOk, length};
ghost use Rattle.std.specs.Arc.{arc_value};
ghost use Rattle.std.specs.Option.{option_map};
ghost use Rattle.std.specs.Result.{result_err};
ghost use Rattle.pcef_model.specs.Outcomes.{AttachStep, Opens};
ghost use Rattle.pcef_model.specs.Journals.{attach_count, report_count};
ghost use Rattle.pcef_model.specs.ProfileModel.{setting_of};
ghost use Rattle.pcef_model.specs.declared.step.Step.{Step};
ghost use Rattle.pcef_model.specs.declared.step.Step.TheVariants as of;
ghost use Rattle.pcef_session.specs.Answers.{ShowsNewest};
ghost use Rattle.pcef_world.specs.Steps.{LacksForStep, MakesStep, standing_of};
ghost use Rattle.pcef_world.specs.Workers.{seen};
ghost use Rattle.pcef_world.specs.Worlds.{HasWorkersInTurn, IsOpenedWorld, waiting_at};
ghost use Rattle.pcef_world.specs.private.Places.{after_coming};

use crate::answer::{StepAnswer, attach_step_answer, command_step_answer};
use crate::newest::JudgedFlows;
use crate::places::{abandon_at, finish_at, flush_at, refresh_at, take_at};
use crate::worker::WorldWorker;
use pcef_catalog::{Detects, Listing};
use pcef_index::{IndexShelf, Indexed};
use pcef_model::{AttachFault, Command, OpenFault, Profile, Step};
use pcef_packet::Header;
use pcef_session::{SessionState, WaitingRows};
use std::alloc::{AllocError, Global};
use std::marker::Model;
use std::sync::Arc;

/// A session without the closures of its catalog, and a place for each worker that was ever attached.
pub struct WorldState {
    pub(crate) alloc: Global,
    pub(crate) session: SessionState,
    pub(crate) workers: Vec<Option<WorldWorker>>,
    // The flows that were judged last, where they are remembered.
    pub(crate) judged: Option<Box<JudgedFlows>>,
    // Whether they are of the newest table, as far as is known: what may change it says that they aren't.
    pub(crate) is_followed: bool,
}

// Written out, so that an owner proves one call on each return path.
impl Drop for WorldState {
    fn drop(self) {
        let WorldState {
            alloc: _,
            session: _,
            workers: _,
            judged: _,
            is_followed: _,
        } = self;
    }
}

impl Model for WorldState {
    ghost use Rattle.pcef_world.specs.Worlds.{World};

    ghost Value = { World };

    ghost use Rattle.pcef_world.specs.private.Soundness.{IsSoundWorld};
    ghost use Rattle.pcef_world.specs.private.Soundness.{world_of};

    ghost view = { world_of };

    ghost invariant = { IsSoundWorld };
}

/// The table of a session's newest generation, with its index, for one more worker to hold.
pub(crate) fn newest(session: &SessionState) -> Result<Arc<Indexed>, AllocError>
    ensures { IfOk result (λ t. ShowsNewest session.now (arc_value t)) }
{
    Arc::try_clone(session.indexed())
}

impl WorldState {
    /// A session with an empty journal and no workers, or the first fault in the order of [`OpenFault`].
    pub fn open(alloc: Global, profile: Profile, listing: Listing) -> Result<WorldState, OpenFault>
        ensures answer { Opens (setting_of profile listing) (result_err result) }
        ensures made { IfOk result (λ w. IsOpenedWorld (setting_of profile listing) w) }
    {
        let session = SessionState::open(alloc, profile, listing)?;
        Ok(WorldState {
            alloc,
            session,
            workers: Vec::new(alloc),
            judged: None,
            is_followed: false,
        })
    }

    /// The session. There is a place for each worker that was ever attached. The waiting rows of a worker that is there
    /// are rows that the journal may have next.
    pub fn session(&self) -> &SessionState
        ensures session { result.now ≡ self.now.session }
        ensures places { attach_count self.now.session.journal ≡ length self.now.workers }
        ensures in_turn { HasWorkersInTurn self.now }
    {
        &self.session
    }

    /// The worker of a number, if it is there. Takes no memory.
    pub fn worker(&self, number: u8) -> Option<&WorldWorker>
        ensures { option_map (λ w. seen w.now) result ≡ waiting_at self.now.workers number }
    {
        match self.workers.get(usize::from(number)) {
            Some(Some(worker)) => Some(worker),
            _ => None,
        }
    }

    /// Makes one step: a command of the session, or what a worker does.
    ///
    /// A command, an attach and a leaving are answered as by [`SessionState`]. A worker judges a packet by the
    /// generation that it holds, and up to 32 rows wait. A flush hands them over; where it is refused they go on
    /// waiting. A worker finishes with a last flush, or is abandoned, and then its waiting rows get no verdict. The
    /// step of a worker that isn't attached answers [`StepAnswer::NoWorker`] and changes nothing. Takes memory, but not
    /// for `Abandon`. Out of memory comes only where the step isn't refused, and changes nothing.
    pub fn step<C: Detects>(&mut self, catalog: &C, step: Step) -> Result<StepAnswer, AllocError>
        requires { C.offers catalog.now ≡ self.old.session.setting.catalog }
        ensures answer { IfOk result (λ a. MakesStep self.old step a self.new) }
        ensures lacks { IfErr result (λ _. LacksForStep self.old step self.new) }
        ensures setting { self.new.session.setting ≡ self.old.session.setting }
        ensures forgotten { self.new.session.forgotten ≡ self.old.session.forgotten }
    {
        match step {
            Step::Command(command) => self.command(command),
            Step::Attach => self.attach(),
            Step::Take { worker, header } => self.take(catalog, worker, &header),
            Step::Refresh { worker } => self.refresh(worker),
            Step::Flush { worker } => self.flush(worker),
            Step::Finish { worker } => self.finish(worker),
            Step::Abandon { worker } => Ok(self.abandon(worker)),
        }
    }

    /// Forgets the reports that were made so far, as [`SessionState::forget`]. Takes no memory.
    pub fn forget(&mut self)
        ensures standing { standing_of self.new ≡ standing_of self.old }
        ensures setting { self.new.session.setting ≡ self.old.session.setting }
        ensures forgotten { self.new.session.forgotten ≡ report_count self.old.session.journal }
    {
        self.session.forget();
    }

    /// Lets the newest table share an index of this shelf, as [`SessionState::share_index`]. Nothing else changes.
    pub fn share_index(&mut self, shelf: &mut IndexShelf)
        ensures { self.new ≡ self.old }
    {
        self.session.share_index(shelf);
    }

    fn command(&mut self, command: Command) -> Result<StepAnswer, AllocError>
        ensures answer { IfOk result (λ a. MakesStep self.old (of.Command command) a self.new) }
        ensures lacks { IfErr result (λ _. LacksForStep self.old (of.Command command) self.new) }
        ensures setting { self.new.session.setting ≡ self.old.session.setting }
        ensures forgotten { self.new.session.forgotten ≡ self.old.session.forgotten }
    {
        self.is_followed = false;
        command_step_answer(self.session.command(command))
    }

    // A worker that was just attached holds the newest generation, and no row waits.
    fn attach_worker(&mut self) -> Result<u8, AttachFault>
        ensures answer { AttachStep self.old.session.journal result self.new.session.journal }
        ensures workers { self.new.workers
            ≡ after_coming self.old.session.journal result self.old.workers }
        ensures setting { self.new.session.setting ≡ self.old.session.setting }
        ensures forgotten { self.new.session.forgotten ≡ self.old.session.forgotten }
    {
        if let Some(fault) = self.session.attach_fault() {
            return Err(fault);
        }
        if self.workers.reserve(1).is_err() {
            return Err(AttachFault::NoMemory);
        }
        let Ok(held) = newest(&self.session) else {
            return Err(AttachFault::NoMemory);
        };
        self.is_followed = false;
        let number = self.session.attach()?;
        self.workers.push_reserved(Some(WorldWorker {
            number,
            held,
            waiting: WaitingRows::new(self.alloc),
        }));
        Ok(number)
    }

    fn attach(&mut self) -> Result<StepAnswer, AllocError>
        ensures answer { IfOk result (λ a. MakesStep self.old of.Attach a self.new) }
        ensures lacks { IfErr result (λ _. LacksForStep self.old of.Attach self.new) }
        ensures setting { self.new.session.setting ≡ self.old.session.setting }
        ensures forgotten { self.new.session.forgotten ≡ self.old.session.forgotten }
    {
        attach_step_answer(self.attach_worker())
    }

    fn take<C: Detects>(
        &mut self,
        catalog: &C,
        worker: u8,
        header: &Header,
    ) -> Result<StepAnswer, AllocError>
        requires { C.offers catalog.now ≡ self.old.session.setting.catalog }
        ensures answer { IfOk result (λ a. MakesStep self.old (of.Take worker header.now) a self.new) }
        ensures lacks { IfErr result (λ _. LacksForStep self.old (of.Take worker header.now) self.new) }
        ensures setting { self.new.session.setting ≡ self.old.session.setting }
        ensures forgotten { self.new.session.forgotten ≡ self.old.session.forgotten }
    {
        let ue = self.session.profile().ue;
        let handed_over = self.session.lane_len(worker);
        let Some(place) = self.workers.get_mut(usize::from(worker)) else {
            return Ok(StepAnswer::NoWorker);
        };
        take_at(place, catalog, ue, handed_over, header)
    }

    fn refresh(&mut self, worker: u8) -> Result<StepAnswer, AllocError>
        ensures answer { IfOk result (λ a. MakesStep self.old (of.Refresh worker) a self.new) }
        ensures lacks { IfErr result (λ _. LacksForStep self.old (of.Refresh worker) self.new) }
        ensures setting { self.new.session.setting ≡ self.old.session.setting }
        ensures forgotten { self.new.session.forgotten ≡ self.old.session.forgotten }
    {
        let Some(place) = self.workers.get_mut(usize::from(worker)) else {
            return Ok(StepAnswer::NoWorker);
        };
        refresh_at(place, &self.session)
    }

    fn flush(&mut self, worker: u8) -> Result<StepAnswer, AllocError>
        ensures answer { IfOk result (λ a. MakesStep self.old (of.Flush worker) a self.new) }
        ensures lacks { IfErr result (λ _. LacksForStep self.old (of.Flush worker) self.new) }
        ensures setting { self.new.session.setting ≡ self.old.session.setting }
        ensures forgotten { self.new.session.forgotten ≡ self.old.session.forgotten }
    {
        self.is_followed = false;
        match self.workers.get_mut(usize::from(worker)) {
            None => Ok(StepAnswer::NoWorker),
            Some(place) => flush_at(place, &mut self.session),
        }
    }

    fn finish(&mut self, worker: u8) -> Result<StepAnswer, AllocError>
        ensures answer { IfOk result (λ a. MakesStep self.old (of.Finish worker) a self.new) }
        ensures lacks { IfErr result (λ _. LacksForStep self.old (of.Finish worker) self.new) }
        ensures setting { self.new.session.setting ≡ self.old.session.setting }
        ensures forgotten { self.new.session.forgotten ≡ self.old.session.forgotten }
    {
        self.is_followed = false;
        match self.workers.get_mut(usize::from(worker)) {
            None => Ok(StepAnswer::NoWorker),
            Some(place) => finish_at(place, &mut self.session),
        }
    }

    fn abandon(&mut self, worker: u8) -> StepAnswer
        ensures answer { MakesStep self.old (of.Abandon worker) result self.new }
        ensures setting { self.new.session.setting ≡ self.old.session.setting }
        ensures forgotten { self.new.session.forgotten ≡ self.old.session.forgotten }
    {
        self.is_followed = false;
        match self.workers.get_mut(usize::from(worker)) {
            None => StepAnswer::NoWorker,
            Some(place) => abandon_at(place, &mut self.session),
        }
    }
}
