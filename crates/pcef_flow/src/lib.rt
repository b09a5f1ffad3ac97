//! The flows that a worker judged last: `FlowCache`. The rule of a flow that is remembered is found without a look-up.
//!
//! Its contracts say: whether a packet is the session's, and the place that the table's own look-up gives, whatever is
//! remembered; and that a cache isn't used with rules that look at more than a flow.
//!
//! In the order of reading: `flow`, `cache`.
#![tactic(auto)]

mod cache;
mod flow;

pub use cache::{FlowCache, NotOwn};
