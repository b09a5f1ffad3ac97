//! The renewal of a session: the commands that make a new session go on like an old one.
//!
//! Its contracts say: which commands these are, read off the old session's journal; a new session with the same profile and
//! catalog takes all of them, without a report; a session is ended and a new one begun with them in one step, or nothing
//! changes; and whatever both accept from there on, they stay alike.
//!
//! In the order of reading: `places`, `list`, `renewing`, `world`, `laws`.
#![tactic(auto)]

mod laws;
mod list;
mod places;
mod renewing;
mod world;

pub use laws::{
    alike_sessions_reach_alike, alike_sessions_stay_alike, like_sessions_judge_alike,
    new_sessions_are_like_old_ones, out_of_reach_is_not_reached, renewals_are_taken,
    renewals_number_anew, sessions_go_on_alike,
};
pub use list::{ListFault, OUT_OF_REACH, renewal};
pub use places::BearerNumbers;
pub use renewing::{RenewRefusal, Renewed, renew};
pub use world::{RenewedWorld, renew_world};
