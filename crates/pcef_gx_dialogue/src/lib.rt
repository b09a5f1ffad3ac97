//! The dialogue of one session with its PCRF over Gx (TS 29.212, clauses 4.5.2 and 4.5.8): what is answered to a RAR,
//! and what a CCR tells.
//!
//! Its contracts say: a RAR is refused as a whole, by the first fault, and changes nothing, or its orders are done and
//! each rule that couldn't be had has its report; a RAR that comes again is answered again, and nothing is done.
//!
//! In the order of reading: `party`, `halt`, `asking`, `answering`, `responder`,
//! `ccr`, `cca`,
//! `granting`, `stopping`, `laws`.
#![tactic(auto)]

mod answering;
mod asking;
mod cca;
mod ccr;
mod granting;
mod halt;
mod laws;
mod party;
mod responder;
mod stopping;

pub use answering::{AnsweredRar, LeftToHost, answer_rar, apart};
pub use asking::read_request;
pub use cca::{CcaDrop, Says, read_answer};
pub use ccr::{Ccrs, SendRefusal};
pub use granting::{Grant, do_grant};
pub use halt::Halt;
pub use laws::ccrs_add_up;
pub use party::Party;
pub use responder::{RarDone, Responder};
pub use stopping::with_stops;
