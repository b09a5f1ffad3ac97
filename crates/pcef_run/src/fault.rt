//! Why there is no plan, or no run of it.

ghost use Rattle.pcef_run.specs.Reasons.{IsFaultAt};

use crate::unfit::{FirstUnfit, Untaken};
use pcef_gateway::RunFault;
use pcef_model::OpenFault;
use std::alloc::Global;
use thiserror::Error;

/// Why an input is no plan.
#[derive(Debug, PartialEq, Eq, Error, Drop)]
pub enum PlanFault {
    /// The input can't be read.
    #[error("the input can't be read")]
    Read,
    /// The input has more than 1,073,741,824 bytes.
    #[error("the input is too long")]
    TooMuch,
    /// A line doesn't fit: the first such line, and why.
    #[error("line {} doesn't fit: {}", .0.number, .0.why.name())]
    Line(FirstUnfit),
    /// There is no memory left.
    #[error("there is no memory left")]
    NoMemory,
}

impl PlanFault {
    /// The fault of the line `number`, which isn't taken. Its line of a script stands behind `front` octets. Takes
    /// memory to put the reason in words, and does without them where there is none.
    pub fn at(alloc: Global, number: u64, line: &[u8], front: usize, untaken: Untaken) -> PlanFault
        ensures { IsFaultAt number untaken result }
    {
        match untaken {
            Untaken::Unfit(why) => PlanFault::Line(FirstUnfit::new(
                alloc, number, line, front, why,
            )),
            Untaken::NoMemory => PlanFault::NoMemory,
        }
    }
}

/// Why a plan wasn't run to its end.
#[derive(Clone, Copy, Debug, PartialEq, Eq, Error)]
pub enum RunEnd {
    /// The session can't be opened.
    #[error("the session can't be opened: {0}")]
    Open(OpenFault),
    /// The run failed.
    #[error("the run came to no end: {0}")]
    Run(RunFault),
    /// There is no memory left.
    #[error("there is no memory left")]
    NoMemory,
}
