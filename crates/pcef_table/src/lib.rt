//! One unchanging generation of a session's rules, and the next one: `Table`, with its entries and the session's keys
//! that are on.
//!
//! Its contracts say: the next generation of entries, the verdict on a header, the slots that it counts for.
//!
//! In the order of reading: `entry`, `deciding`, `session_slots`, `change`, `table`, `source`.
#![tactic(auto)]

mod change;
mod deciding;
mod entry;
mod session_slots;
mod source;
mod table;

pub use deciding::{counted_slot, gate_verdict, is_own, judged_by};
pub use entry::{Source, TableEntry};
pub use table::{MAX_ENTRIES, Table};
