//! Runs a script: `run_script` reads lines, does what they ask for, and writes an answer for each; `answer_alone`
//! answers a line without a script around it, and `answer_read` one that was read already; `first_line`, `is_blank` and
//! `line_of` read the lines of an input; `find` plays a script on a session of its own, and finds the lines that it
//! answers by a fault or a refusal, each as a `Finding`.
//!
//! Its contracts say: what was written for what was read, and how many lines are at fault; the answer that a script
//! gives to one line; that exactly the lines at fault or refused are found, in order, each with its number and answer.
//!
//! In the order of reading: `fault`, `lines`, `reading`, `step`, `writing`, `input`, `lone_line`, `running`, `run`,
//! `laws`, `find_fault`, `finding`, `playing`, `checking`.
#![tactic(auto)]

mod checking;
mod fault;
mod find_fault;
mod finding;
mod input;
mod laws;
mod lines;
mod lone_line;
mod playing;
mod reading;
mod run;
mod running;
mod step;
mod writing;

pub use checking::find;
pub use fault::ScriptFault;
pub use find_fault::FindFault;
pub use finding::{Finding, Found};
pub use laws::one_script;
pub use lines::{MAX_LINE, first_line, is_blank, line_of};
pub use lone_line::answer_alone;
pub use reading::read_some;
pub use run::run_script;
pub use step::{LineAnswer, answer_read};
pub use writing::{put_all, write_answer};
