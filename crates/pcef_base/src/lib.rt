//! What every crate may stand on: words and lemmas on lists, and on reading one thing after another; `Places`, memory for
//! elements that a list gets later; `put_all`, which writes octets to any writer; what stands between a program and its
//! streams: `Fused`, a writer that fails for good, and `Watched`, a reader whose progress is shown on a terminal; and the
//! version.
//!
//! Its contracts say: how one thing is read after another, and which fault is the first; how many elements there is
//! memory for; that all of some octets were written, or a front of them and the error; that a failure of a fused writer
//! is never an interruption, which the kit's buffer would try again without end, and that after a failure nothing more
//! is written; that a reader reads the same while it is watched.
//!
//! In the order of reading: `places`, `writing`, `fused`, `progress`, `version`.
#![tactic(auto)]

mod fused;
mod places;
mod progress;
mod version;
mod writing;

pub use fused::Fused;
pub use places::Places;
pub use progress::{Progress, Watched};
pub use version::{VERSION, VERSION_LINE};
pub use writing::put_all;
