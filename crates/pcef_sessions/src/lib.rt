//! Many sessions in one process: `Sessions` holds them by name and answers a line of any of them, and `serve` reads
//! lines and writes their answers. A frame means a line: `serve_frames` reads frames, and writes what is written for their
//! lines.
//!
//! Its contracts say: under each name stand exactly the answers that a script gives to that name's lines between its
//! `open`, its renewals and its `end`; a line of one session changes no other.
//!
//! In the order of reading: `name`, `asking`, `frame_fault`, `frame`, `held`, `sessions`, `saying`, `laws`, `front`,
//! `ahead`, `running`, `framing`, `run`.
#![tactic(auto)]

mod ahead;
mod asking;
mod frame;
mod frame_fault;
mod framing;
mod front;
mod held;
mod laws;
mod name;
mod run;
mod running;
mod saying;
mod sessions;

pub use laws::{names_are_told_apart, sessions_are_scripts};
pub use name::{OfSession, SessionName};
pub use run::{serve, serve_frames};
pub use saying::NamedAnswer;
pub use sessions::Sessions;
