//! The core without threads: `Session`, a session with the catalog of its predefined rules, and `World`, the same with
//! the session's workers; and the laws that characterize the definitions: each states in other words what follows from
//! them, so a definition that says something else breaks one.
//!
//! Its contracts say: that what a session keeps is exact, in one statement (`session_is_exact`), and what a list of
//! steps makes of a new session. `session_is_exact` speaks of every `SessionState`, so of those of all programs, and
//! need not be called; `Session` and `World` are used by tests and by `tests_examples` alone. The laws say what holds of
//! bearers, of decisions, of reports, of grants and of slots in every lawful journal.
//!
//! In the order of reading: `keeping`, `session`, `world`, `steps`, `laws`.
#![tactic(auto)]

mod keeping;
mod laws;
mod session;
mod steps;
mod world;

pub use keeping::{SessionParts, session_is_exact};
pub use laws::{
    new_bearers_take_the_least_id, one_rule_decides, reports_say_what_is_due,
    slots_stay_in_their_places,
};
pub use session::Session;
pub use steps::run;
pub use world::World;
