//! The outcome of a session's run.

ghost use Rattle.std.specs.Prelude.{◌≡◌, IfOk};
ghost use Rattle.pcef_model.specs.Lawful.{Lawful};
ghost use Rattle.pcef_gateway.specs.InOrder.{reports_of};

use pcef_lock::Totals;
use pcef_model::{Accepted, Refusal, Report};
use pcef_session::SessionState;
use std::alloc::{AllocError, Global};

/// The answer to a command.
pub type CommandAnswer = Result<Accepted, Refusal>;

/// The outcome of a session's run.
#[derive(Drop)]
pub struct Ended {
    /// The totals of the session.
    pub totals: Totals,
    /// How many packets were dropped by workers whose flush was refused.
    pub dropped: u64,
    /// The answer to each command, in order.
    pub answers: Vec<CommandAnswer>,
    /// All reports of the journal, in order.
    pub reports: Vec<Report>,
}

/// The reports of a session, in order. None of them is forgotten, and the session's journal is lawful. Takes memory for
/// them.
pub(crate) fn all_reports(alloc: Global, session: &SessionState) -> Result<Vec<Report>, AllocError>
    requires { session.now.forgotten ≡ 0 }
    ensures reports { IfOk result (λ v. v.items ≡ reports_of session.now.journal) }
    ensures lawful { Lawful session.now.setting session.now.journal }
{
    session.journal().reports_from(0).to_vec(alloc)
}
