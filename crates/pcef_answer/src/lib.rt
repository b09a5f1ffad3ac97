//! The texts of answers: compact JSON, whose keys stand in the order of their octets, without the line feed.
//!
//! Its contracts say: the text of an answer, of a fault and of a session's state.
//!
//! In the order of reading: `report`, `written`, `fault`, `show`, `refusal`, `step`.
#![tactic(auto)]

mod fault;
mod refusal;
mod report;
mod show;
mod step;
mod written;

pub use fault::fault_text;
pub use report::reports_answer;
pub use show::show_answer;
pub use step::{command_answer, step_answer};
