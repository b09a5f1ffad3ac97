//! The profile of a session, a TOML document (v1.0.0): its reader and `ReadProfileFault`.
//!
//! Its contracts say: the profile that a text spells, or its first fault.
//!
//! In the order of reading: `fault`, `key`, `shape`, `wanted`, `explaining`, `values`, `reading`.
#![tactic(auto)]

mod explaining;
mod fault;
mod key;
mod reading;
mod shape;
mod values;
mod wanted;

pub use explaining::explain;
pub use fault::ReadProfileFault;
pub use reading::read_profile;
