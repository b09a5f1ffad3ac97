//! The messages of Gx that a PCEF sends (TS 29.212, clauses 5.6.2 and 5.6.5): CCRs, and answers to what a PCRF asks.
//!
//! Its contracts say: the octets of a message, its header with the identifiers of the request that it answers, and its
//! AVPs.
//!
//! In the order of reading: `identity`, `sending`, `proxies`, `answering`, `requesting`.
#![tactic(auto)]

mod answering;
mod identity;
mod proxies;
mod requesting;
mod sending;

pub use answering::{Answer, AnswerRoom, Outcome, put_reports, refuse};
pub use identity::{Identity, MAX_OCTETS};
pub use proxies::{proxies_in, put_proxies};
pub use requesting::{CREDIT_CONTROL, GX, RequestKind, RequestMark, request};
