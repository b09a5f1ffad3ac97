//! Steps, one after the other.

ghost use Rattle.std.specs.Prelude.{◌≡◌, IfOk, OnErr};
ghost use Rattle.pcef_world.specs.Steps.{MakesFront, MakesSteps};

use crate::answer::StepAnswer;
use crate::world::WorldState;
use pcef_catalog::Detects;
use pcef_model::Step;
use std::alloc::{AllocError, Global};

impl WorldState {
    /// Makes steps one after the other, as [`WorldState::step`], and returns their answers in order. Takes memory for
    /// these too. Out of memory ends it: some of the steps, from the first on, are made and stand, their answers are
    /// lost, and nothing else changes.
    pub fn play<C: Detects>(
        &mut self,
        alloc: Global,
        catalog: &C,
        steps: Vec<Step>,
    ) -> Result<Vec<StepAnswer>, AllocError>
        requires { C.offers catalog.now ≡ self.old.session.setting.catalog }
        ensures answers { IfOk result (λ v. MakesSteps self.old steps.items v.items self.new) }
        ensures front { OnErr result (MakesFront self.old steps.items self.new) }
        ensures setting { self.new.session.setting ≡ self.old.session.setting }
        ensures forgotten { self.new.session.forgotten ≡ self.old.session.forgotten }
    {
        let mut answers = Vec::with_capacity(alloc, steps.len())?;
        for step in steps {
            let answer = self.step(catalog, step)?;
            answers.push(answer)?;
        }
        Ok(answers)
    }
}
