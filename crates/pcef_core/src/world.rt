//! A session and its workers, with the catalog.

ghost use Rattle.std.specs.Prelude.{◌≡◌, IfErr, IfOk, OnErr};
ghost use Rattle.std.specs.Arc.{arc_value};
ghost use Rattle.std.specs.Result.{result_err};
ghost use Rattle.pcef_catalog.specs.Catalogs.{offers_of};

use pcef_catalog::{Catalog, Offers};
use pcef_model::{OpenFault, Profile, Step};
use pcef_session::{SessionState, open_fault};
use pcef_world::{StepAnswer, WorldState};
use std::alloc::{AllocError, Global};
use std::sync::Arc;

/// A session and its workers, and the catalog of the session's predefined rules.
// In a box, so that an owner proves one pointer, and not each part of the state.
pub struct World {
    catalog: Arc<Catalog>,
    state: Box<WorldState>,
    ghost offered: { state.value.session.setting.catalog ≡ offers_of (arc_value catalog) },
    ghost kept: { state.value.session.forgotten ≡ 0 },
}

// Written out, so that an owner proves one call on each return path.
impl Drop for World {
    fn drop(self) {
        let World {
            catalog: _,
            state: _,
        } = self;
    }
}

impl World {
    ghost use Rattle.pcef_core.specs.Cores.{world_of, world_setting, world_standing};
    ghost use Rattle.pcef_core.specs.Sessions.{setting_with};
    ghost use Rattle.pcef_model.specs.Outcomes.{Opens};
    ghost use Rattle.pcef_world.specs.Steps.{LacksForStep, MakesFront, MakesStep, MakesSteps, at_start};

    /// A session with an empty journal and no workers, or the first fault in the order of [`OpenFault`]. Takes memory
    /// for the rules and keys to come.
    pub fn open(alloc: Global, profile: Profile, catalog: Arc<Catalog>) -> Result<World, OpenFault>
        ensures answer { Opens (setting_with profile (arc_value catalog)) (result_err result) }
        ensures setting { IfOk result (λ w.
            world_setting w ≡ setting_with profile (arc_value catalog)) }
        ensures start { IfOk result (λ w. world_standing w ≡ at_start) }
    {
        if let Some(fault) = open_fault(&profile) {
            return Err(fault);
        }
        let Ok(listing) = catalog.listing().share() else {
            return Err(OpenFault::NoMemory);
        };
        let state = WorldState::open(alloc, profile, listing)?;
        match Box::new(alloc, state) {
            Ok(state) => Ok(World { catalog, state }),
            Err(_) => Err(OpenFault::NoMemory),
        }
    }

    /// Makes one step, as [`WorldState::step`].
    pub fn step(&mut self, step: Step) -> Result<StepAnswer, AllocError>
        ensures answer { IfOk result (λ a.
            MakesStep (world_of self.old) step a (world_of self.new)) }
        ensures lacks { IfErr result (λ _.
            LacksForStep (world_of self.old) step (world_of self.new)) }
        ensures setting { world_setting self.new ≡ world_setting self.old }
    {
        self.state.step(&*self.catalog, step)
    }

    /// Makes steps one after the other, as [`WorldState::play`]. Out of memory, some of them are made, from the first
    /// on, and nothing else has changed.
    pub fn play(&mut self, alloc: Global, steps: Vec<Step>) -> Result<Vec<StepAnswer>, AllocError>
        ensures answers { IfOk result (λ v.
            MakesSteps (world_of self.old) steps.items v.items (world_of self.new)) }
        ensures front { OnErr result
            (MakesFront (world_of self.old) steps.items (world_of self.new)) }
        ensures setting { world_setting self.new ≡ world_setting self.old }
    {
        self.state.play(alloc, &*self.catalog, steps)
    }

    /// The session, which agrees with its journal after every step. None of its reports is forgotten.
    pub fn session(&self) -> &SessionState
        ensures session { result.now ≡ (world_of self.now).session }
        ensures kept { result.now.forgotten ≡ 0 }
    {
        self.state.session()
    }
}
