//! Who takes reports.

ghost use Rattle.std.specs.Prelude.{List, ◌≡◌, ◌∷◌, ◌++◌, []};
ghost use Rattle.pcef_model.specs.declared.report.Report.{Report};
ghost use Rattle.pcef_trigger.specs.Deliveries.{AnswersReport};

use pcef_model::Report;

/// What a reporter answers.
#[derive(Clone, Copy, Debug, PartialEq, Eq)]
pub enum Answer {
    /// It took the report.
    Taken,
    /// It didn't, and may be asked again.
    Refused,
}

/// Takes reports. What contracts see of a reporter is the list of those that it was asked for, and the list of those
/// that it took, both the oldest first.
pub trait Reporter: Drop {
    ghost asked: { Self → List Report };

    ghost taken: { Self → List Report };

    /// Is asked for a report, and takes it, or refuses it: then the list of what it took stays as it was. A reporter
    /// that finds no memory refuses.
    fn report(&mut self, report: &Report) -> Answer
        ensures asked { asked self.new ≡ asked self.old ++ report.now ∷ [] }
        ensures answer { AnswersReport (taken self.old) report.now result (taken self.new) };
}
