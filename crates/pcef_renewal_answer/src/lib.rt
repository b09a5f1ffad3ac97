//! A renewal and its answer: a session is renewed in its place, and a text says what came of it.
//!
//! Its contracts say: what the text is, and that the session which stands there then is like the one before; or which
//! refusal the text names, and that nothing changes.
//!
//! In the order of reading: `text`, `renew`.
#![tactic(auto)]

mod renew;
mod text;

pub use renew::{RenewAnswer, answer_renew};
