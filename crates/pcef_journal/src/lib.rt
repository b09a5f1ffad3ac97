//! The journal of a session, of which counts and the newest reports are kept, and the rest is known to contracts alone:
//! `Journal`; where each worker's lane in it ends: `Lanes`; and a history for proofs, which does nothing at run time:
//! `History`.
//!
//! Its contracts say: an entry more, counts, and walks over reports; how many rows a worker has, of which generation the
//! newest is, and whether the worker is attached.
//!
//! In the order of reading: `history`, `walk`, `journal`, `lanes`.
#![tactic(auto)]

mod history;
mod journal;
mod lanes;
mod walk;

pub use history::History;
pub use journal::Journal;
pub use lanes::{LaneEnd, Lanes, MAX_WORKERS};
pub use walk::Reports;
