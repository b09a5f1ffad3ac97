//! Many sessions in several threads: `serve_in_threads` reads lines and leads each to the thread that its name picks,
//! which owns the session.
//!
//! Its contracts say: each thread is led exactly the lines that go to it, in their order; each line goes to one thread,
//! and all lines of a name to the same.
//!
//! In the order of reading: `picking`, `sorting`, `laws`, `signals`, `parcel`, `intake`, `lane`, `shard`, `feeding`,
//! `run`, `outlet`.
#![tactic(auto)]

mod feeding;
mod intake;
mod lane;
mod laws;
mod outlet;
mod parcel;
mod picking;
mod run;
mod shard;
mod signals;
mod sorting;

pub use laws::{lines_have_threads, names_have_threads};
pub use outlet::Outlet;
pub use parcel::{Leading, Parcel};
pub use run::{Keys, Ran, serve_in_threads};
pub use shard::Ended;
pub use sorting::Sorting;
