//! The lines that make a new session like an open one: its `open`, and one line for each command of its renewal.
//!
//! Its contracts say: the text of each line; that each of them reads as its command; which refusal is answered where
//! there are no such lines; and that a session which took them has the same.
//!
//! In the order of reading: `address`, `filter`, `rule`, `command`, `reading`, `lines`, `laws`, `answer`.
#![tactic(auto)]

mod address;
mod answer;
mod command;
mod filter;
mod laws;
mod lines;
mod reading;
mod rule;

pub use answer::answer_lines;
pub use laws::lines_come_again;
pub use lines::{LinesRefusal, renewal_lines};
