//! What workers hand over, beside a session's journal: whether rows continue a lane, what they count in books and shares,
//! and whether a list is the journal's.
//!
//! Its contracts say: exactly when rows may come next in a worker's lane, exactly what they add to each book and share, and
//! exactly when a list of rows is a lane, and one of commands the journal's.
//!
//! In the order of reading: `lanes`, `counting`, `sameness`, `comparing`.
#![tactic(auto)]

mod comparing;
mod counting;
mod lanes;
mod sameness;

pub use comparing::{are_commands, is_lane};
pub use counting::count_items;
pub use lanes::{continues, end_of};
