//! Sessions from their opening to their end by their public calls, their renewals, answers as texts, and the closures of
//! rules. The programs themselves are tested as they are built, in `tests/` beside the crates.

mod answer;
mod catalog_session;
mod closures;
mod finishing;
mod renewal;
mod scripts;

use pcef_model::{Command, Level};
use pcef_rule::KeyName;
use std::fmt::Debug;
use std::process::Abort;

/// A grant of 1,000 octets for the key `vid`.
fn monitor() -> Command {
    Command::Monitor {
        key: KeyName::known("vid"),
        grant: 1000,
        level: Level::Rule,
    }
}

/// Expects what is due. It stands here once, for a comparison in each test takes longer to prove.
fn expect_equal<T: Debug + PartialEq>(rt: &impl Abort, found: &T, due: &T) {
    assert_eq!(rt; found, due);
}
