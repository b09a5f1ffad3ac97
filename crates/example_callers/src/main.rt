//! Examples for callers in Rattle, each in a file that stands alone: judging packets (`classify.rt`), a session in one
//! thread (`session.rt`), and a session that two threads share (`shared.rt`).
//!
//! The head of each file names the libraries that it needs. A crate that takes a file over makes its `run` the crate's
//! `main`.
#![tactic(auto)]

mod classify;
mod session;
mod shared;

use std::io;

fn main(rt: HostRuntime) -> io::Result<()> {
    classify::run(&rt)?;
    session::run(&rt)?;
    shared::run(&rt, &rt)
}
