//! A session and its workers, step by step: `WorldState`, a session and a place for each worker that was ever attached,
//! and `StepAnswer`; `ApartWorker`, a worker that stands apart from its session, for a thread of its own.
//!
//! Its contracts say: what each step answers and what stands after it, for one step and for a list; that waiting rows
//! may come next; the same of a worker apart, and that it stays its session's.
//!
//! In the order of reading: `worker`, `answer`, `places`, `world`, `play`, `apart`, `newest`.
#![tactic(auto)]

mod answer;
mod apart;
mod newest;
mod places;
mod play;
mod worker;
mod world;

pub use answer::{Abandoned, StepAnswer};
pub use apart::ApartWorker;
pub use newest::{Brief, Outcome, flags_of};
pub use worker::{Taken, WorldWorker};
pub use world::WorldState;
