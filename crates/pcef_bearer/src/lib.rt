//! Which bearer each active rule of a session is bound to (TS 23.203, clause 6.1.1.4): `Bearers`.
//!
//! Its contracts say: the bearer of a rule, or why the rule can't be bound.
//!
//! In the order of reading: `lookup`, `ids`, `rates`, `bearers`.
#![tactic(auto)]

mod bearers;
mod ids;
mod lookup;
mod rates;

pub use bearers::{Bearers, Bound, MAX_BOUND, Places, Released};
pub use ids::DEFAULT_BEARER;
