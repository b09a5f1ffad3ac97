//! One reporter, if there is one.

ghost use Rattle.std.specs.Prelude.{◌≡◌, ◌∷◌, ◌++◌, []};
ghost use Rattle.pcef_trigger.specs.Deliveries.{AnswersReport};
ghost use Rattle.pcef_trigger.specs.private.Taking.{AnswersAt, AsksAt};

use crate::reporter::{Answer, Reporter};
use pcef_model::Report;

/// Hands a report to a reporter, once.
fn hand(to: &mut Box<dyn Reporter + Send>, report: &Report) -> Answer
    ensures answer { AnswersReport (taken to.old) report.now result (taken to.new) }
    ensures asked { asked to.new ≡ asked to.old ++ report.now ∷ [] }
{
    to.report(report)
}

/// Hands a report to the reporter, if there is one. Where there is none it counts as taken.
pub(crate) fn offer(to: &mut Option<Box<dyn Reporter + Send>>, report: &Report) -> Answer
    ensures answer { AnswersAt (λ b. taken b) to.old report.now result to.new }
    ensures asked { AsksAt (λ b. asked b) to.old report.now to.new }
{
    match to {
        None => Answer::Taken,
        Some(reporter) => hand(reporter, report),
    }
}
