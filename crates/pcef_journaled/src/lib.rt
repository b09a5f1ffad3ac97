//! A session with an archive of its commands and of its rows, which are stored or not: `Archive`, and `JournaledState`.
//!
//! Its contracts say: each call answers as the session's own does, and walks over the rows and the commands of its
//! journal.
//!
//! In the order of reading: `names`, `kept_row`, `walk`, `store`, `archive`, `rows`, `prepared`, `state`.
#![tactic(auto)]

mod archive;
mod kept_row;
mod names;
mod prepared;
mod rows;
mod state;
mod store;
mod walk;

pub use archive::Archive;
pub use prepared::JournaledCommand;
pub use state::JournaledState;
pub use walk::{Commands, Lane};
