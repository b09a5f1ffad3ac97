//! Reports that are collected.

ghost use Rattle.std.specs.Prelude.{◌≡◌, ◌+◌, ◌<◌, ◌^◌, IfOk, drop, length, reverse};
ghost use Rattle.pcef_model.specs.Entries.{reports};
ghost use Rattle.pcef_lock.specs.Reports.{AreNumbered};

use super::State;
use pcef_model::Report;
use pcef_publish::{Board, Cell};
use pcef_share::{Naming, Pooling};
use std::alloc::AllocError;

impl<N: Naming, W: Board<Cell<N>> + Drop, P: Pooling> State<N, W, P> {
    /// The reports from a number on, in order. Takes memory for them.
    pub fn collect(&self, from: u64) -> Result<Vec<Report>, AllocError>
        ensures reports { IfOk result (λ v. v.items
            ≡ drop from (reverse (reports self.now.session.journal))) }
        ensures numbered { IfOk result (λ v. AreNumbered from v.items) }
        ensures fits { IfOk result (λ v. from + length v.items < 2 ^ 64) }
    {
        let journal = self.session.session().journal();
        if journal.reports_len() <= from {
            return Ok(Vec::new(self.alloc));
        }
        let collected = journal.reports_from(from).to_vec(self.alloc)?;
        Ok(collected)
    }
}
