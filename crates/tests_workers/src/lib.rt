//! Tests of a session behind its lock where threads meet: of runs over threads, of a worker that is held up, and of two
//! sessions that compete for the rates of a pool. They stand above the crates that they test. Here a lock, a session and
//! a worker are no more than their models, so a test that holds one is proved in a few steps.
#![tactic(auto)]

#[cfg(test)]
mod tests;
