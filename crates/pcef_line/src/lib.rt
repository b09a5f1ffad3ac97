//! The lines of a script, one JSON object each (RFC 8259), whose `do` says what it asks for: `Line` (a `Step`, or
//! `show`), `read_line`, `LineReader` and `LineFault`.
//!
//! Its contracts say: the line that a text spells, or its first fault.
//!
//! In the order of reading: `field`, `laws`, `line`, `fault`, `word`, `known`, `octets`, `values`, `spelling`, `short`,
//! `worker`, `trigger`, `level`, `rule`, `command`, `reading`, `built`.
#![tactic(auto)]

mod built;
mod command;
mod fault;
mod field;
mod known;
mod laws;
mod level;
mod line;
mod octets;
mod reading;
mod rule;
mod short;
mod spelling;
mod trigger;
mod values;
mod word;
mod worker;

pub use built::{flush_line, take_line};
pub use fault::LineFault;
pub use field::Field;
pub use laws::one_line;
pub use line::Line;
pub use reading::{LineReader, read_line};
pub use trigger::event_text;
