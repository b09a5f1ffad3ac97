//! A session of the gateway, with its commands, its bearers, its usage and its journal: `SessionState`, and batches of
//! rows.
//!
//! Its contracts say: what each command and each step of a worker answers, and the journal after it; each getter says
//! what the journal says.
//!
//! In the order of reading: `batch`, `judging`, `waiting`, `laws`, `prepared`, `inactive`, `keys`, `next_tables`,
//! `pending_reports`, `applying`, `ended_keys`, `rows`, `entries`, `state`.
#![tactic(auto)]

mod applying;
mod batch;
mod ended_keys;
mod entries;
mod inactive;
mod judging;
mod keys;
mod laws;
mod next_tables;
mod pending_reports;
mod prepared;
mod rows;
mod state;
mod waiting;

pub use batch::{Batch, BatchFull, Item, MAX_WAITING};
pub use judging::RowId;
pub use laws::{rules_have_their_bearers, shown_tables_judge};
pub use prepared::{Activation, Prepared, PreparedChange};
pub use state::{MAX_RULES, SessionState, open_fault};
pub use waiting::WaitingRows;
