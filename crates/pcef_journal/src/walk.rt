//! Walks over the reports that a journal keeps, from the oldest on.

ghost use Rattle.std.specs.Prelude.{◌≡◌, IfOk};
ghost use Rattle.std.specs.Iterator.{YieldsFirstRef, item_count};

use pcef_model::Report;
use std::alloc::{AllocError, Global};
use std::marker::Model;

/// Reports of a journal.
#[derive(Drop)]
pub struct Reports<'a> {
    rest: &'a [Report],
}

impl<'a> Model for Reports<'a> {
    ghost use Rattle.std.specs.Prelude.{List};
    ghost use Rattle.pcef_model.specs.declared.report.Report.{Report};

    ghost Value = { List Report };

    ghost view = { λ r. r.rest.now };
}

impl<'a> Reports<'a> {
    pub(crate) fn new(rest: &'a [Report]) -> Self
        ensures { result ≡ rest.now }
    {
        Reports { rest }
    }

    /// Copies of the reports that are left, in order. Takes memory for them.
    pub fn to_vec(&self, alloc: Global) -> Result<Vec<Report>, AllocError>
        ensures { IfOk result (λ v. v.items ≡ self.now) }
    {
        let mut list = Vec::with_capacity(alloc, self.rest.len())?;
        for report in self.rest {
            list.push(report.copy())?;
        }
        Ok(list)
    }
}

impl<'a> Iterator for Reports<'a> {
    type Item = &'a Report;

    ghost next_gives = { YieldsFirstRef (λ reports. reports) };

    ghost remaining = { item_count (λ reports. reports) };

    fn next(&mut self) -> Option<&'a Report> {
        let (report, others) = self.rest.split_first()?;
        self.rest = others;
        Some(report)
    }
}
