//! Tests of whole sessions by their public calls, of their renewals, of the closures of rules, and of answers as texts.
//! They stand above the crates that they test, which are then proved once. What the built programs read, write and say
//! is tested on them: `tests/`, beside the crates.
#![tactic(auto)]

#[cfg(test)]
mod tests;
