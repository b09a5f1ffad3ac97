//! A session over threads of its own: in `run_session` the calling thread sends packets to each worker through one
//! ring, and gives the session's commands meanwhile.
//!
//! Its contracts say: which packets of a session's run became rows, and the totals.
//!
//! In the order of reading: `arrivals`, `ended`, `fault`, `gate_ref`, `serving`, `worker_ring`, `intake`,
//! `context`, `run`.
#![tactic(auto)]

mod arrivals;
mod context;
mod ended;
mod fault;
mod gate_ref;
mod intake;
mod run;
mod serving;
mod worker_ring;

pub use arrivals::{Arrival, Workload};
pub use ended::{CommandAnswer, Ended};
pub use fault::RunFault;
pub use run::run_session;
