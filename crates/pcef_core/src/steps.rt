//! What a list of steps makes of a session.

ghost use Rattle.std.specs.Prelude.{IfOk};
ghost use Rattle.std.specs.Arc.{arc_value};
ghost use Rattle.std.specs.Result.{result_err};
ghost use Rattle.pcef_core.specs.Cores.{HasRun};
ghost use Rattle.pcef_core.specs.Sessions.{setting_with};
ghost use Rattle.pcef_model.specs.Outcomes.{Opens};

use crate::world::World;
use pcef_catalog::Catalog;
use pcef_model::{OpenFault, Profile, Step};
use pcef_world::StepAnswer;
use std::alloc::Global;
use std::sync::Arc;

/// Opens a session and makes steps, one after the other. Returns the world after them, and one answer for each. Takes
/// memory for both. An `Err` is the first fault that keeps the session from being opened, or out of memory, which ends
/// the run.
pub fn run(
    alloc: Global,
    profile: Profile,
    catalog: Arc<Catalog>,
    steps: Vec<Step>,
) -> Result<(World, Vec<StepAnswer>), OpenFault>
    ensures fault { Opens (setting_with profile (arc_value catalog)) (result_err result) }
    ensures played { IfOk result (λ r.
        HasRun profile (arc_value catalog) steps.items r.1.items r.0) }
{
    let mut world = World::open(alloc, profile, catalog)?;
    match world.play(alloc, steps) {
        Ok(answers) => Ok((world, answers)),
        Err(_) => Err(OpenFault::NoMemory),
    }
}
