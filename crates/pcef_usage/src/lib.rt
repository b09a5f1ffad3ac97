//! `Usage`, the counters of monitoring keys, and `CountedJournal`, a journal with them.
//!
//! Its contracts say: what each call does to the counter of its slot and to no other; reports state exactly what the
//! counters hold.
//!
//! In the order of reading: `usage`, `counted`.
#![tactic(auto)]

mod counted;
mod usage;

pub use counted::CountedJournal;
pub use usage::{KeyPlaces, KeyState, MAX_KEYS, SlotFault, Usage, is_same_level};
