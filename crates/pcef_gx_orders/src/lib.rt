//! The orders of a Gx message, done on a session (TS 29.212, clause 4.5.2): each order is a command of the session, or
//! says why none can be.
//!
//! Its contracts say: which commands are done, in order; the session after them; each rule that couldn't be had, with
//! its name as it stood, whether it is active, and why; and the order at which the rest is left undone.
//!
//! In the order of reading: `commanding`, `finding`, `fate`, `carrying`, `naming`.
#![tactic(auto)]

mod carrying;
mod commanding;
mod fate;
mod finding;
mod naming;

pub use carrying::{CarriedOut, carry_out};
pub use commanding::command;
pub use fate::Fate;
pub use naming::{NamedOrder, with_names};
