//! Tables beside their history.

ghost use Rattle.std.specs.Prelude.{◌≡◌, ◌+◌, length, IfOk, MatchBool};
ghost use mathlib.Core.List.{IsPrefix};
ghost use Rattle.std.specs.Arc.{arc_value};
ghost use Rattle.pcef_table.specs.Tables.{IsTable};
ghost use Rattle.pcef_publish.specs.Lists.{EndsWith, IsLonger, IsSeen};

use crate::front::Front;
use pcef_index::Indexed;
use pcef_share::Naming;
use std::alloc::AllocError;
use std::marker::Model;
use std::sync::Arc;

/// A table with the history that ends with it. Contracts see it as that list.
pub struct Publication<N: Naming> {
    table: Arc<Indexed>,
    pub front: Front<N>,
}

// Written out, so that an owner proves one call on each return path.
impl<N: Naming> Drop for Publication<N> {
    fn drop(self) {
        let Publication { table: _, front: _ } = self;
    }
}

impl<N: Naming> Model for Publication<N> {
    ghost use Rattle.std.specs.Prelude.{List};
    ghost use Rattle.std.specs.Arc.{arc_value};
    ghost use Rattle.pcef_table.specs.Tables.{TableValue};
    ghost use Rattle.pcef_publish.specs.Lists.{EndsWith};

    ghost Value = { List TableValue };

    ghost view = { λ e. e.front };

    ghost invariant = { λ e. EndsWith e.front (arc_value e.table) };
}

impl<N: Naming> Publication<N> {
    /// A table, with the beginning of the history that ends with it.
    pub fn new(table: Arc<Indexed>, front: Front<N>) -> Publication<N>
        requires { EndsWith front (arc_value table) }
        ensures { result ≡ front }
    {
        Publication { table, front }
    }

    /// A copy.
    pub fn again(&self) -> Result<Publication<N>, AllocError>
        ensures { IfOk result (λ e. e ≡ self.now) }
    {
        Ok(Publication {
            table: Arc::try_clone(&self.table)?,
            front: self.front.again(),
        })
    }

    /// Whether the other goes on from here. If not, it begins this one.
    pub fn begins(&self, other: &Publication<N>) -> bool
        ensures { MatchBool result (IsPrefix self.now other.now) (IsLonger other.now self.now) }
    {
        self.front.begins(&other.front)
    }

    /// The table and its generation.
    #[tactic(auto, using(crate::proofs::Runs::run_length, crate::proofs::Runs::run_seen, crate::proofs::Runs::run_table))]
    pub fn current(&self) -> (u32, &Arc<Indexed>)
        ensures number { result.0 ≡ (arc_value result.1.now).number }
        ensures last { EndsWith self.now (arc_value result.1.now) }
        ensures count { result.0 + 1 ≡ N.first + length self.now }
        ensures seen { IsSeen N.first self.now result.0 (arc_value result.1.now) }
        ensures table { IsTable N.setting.catalog (arc_value result.1.now).entries }
    {
        // Its contract says that the tables follow each other.
        let _len = self.front.len();
        (self.table.generation(), &self.table)
    }
}
