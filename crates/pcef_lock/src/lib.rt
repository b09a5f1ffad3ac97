//! A session behind a lock: `State`, a session with its published tables, its books and its share of a pool, where it
//! has one; `Shared`, the lock of one; `Pool`, the lock of a pool; `Seat`, `Desk`.
//!
//! Its contracts say: what each hold of the lock finds, what each call in it answers and changes, and what all adds up
//! to at the end.
//!
//! In the order of reading: `own_rows`, `leaving`, `key_totals`, `worker_lists`, `finished`, `pool`, `seat`, `gathering`,
//! `pooled_share`, `publishing`, `state`, `shared`, `desk`, `opening`.
#![tactic(auto)]

mod desk;
mod finished;
mod gathering;
mod key_totals;
mod leaving;
mod opening;
mod own_rows;
mod pool;
mod pooled_share;
mod publishing;
mod seat;
mod shared;
mod state;
mod worker_lists;

pub use desk::{Desk, commands_so_far};
pub use finished::Finished;
pub use gathering::{GatherFault, Totals};
pub use key_totals::{KeyTotal, KeyTotals};
pub use leaving::{Departure, LastFlush, Leaving};
pub use opening::{Opening, SharedFault, Unopened, open_history};
pub use own_rows::OwnRows;
pub use pool::Pool;
pub use seat::Seat;
pub use shared::{Shared, Ungathered};
pub use state::{State, StateUngathered};
pub use worker_lists::{WorkerList, WorkerLists};
