//! The active rules of a session by their names, in the order in which they became active: `ActiveRules`.
//!
//! Its contracts say: a rule that is put replaces the one of its name or goes last, and those that stay keep
//! their order.
#![tactic(auto)]

mod active;

pub use active::ActiveRules;
