//! Workers of a session that threads share: `Worker`, which judges packets by the table that it holds, with its waiting
//! rows and its own list, and `Gate`.
//!
//! Its contracts say: what a packet, a flush and a leaving make of rows and list.
//!
//! In the order of reading: `gate`, `worker`, `handing`.
#![tactic(auto)]

mod gate;
mod handing;
mod worker;

pub use gate::{Gate, OpenGate, Point};
pub use worker::Worker;
