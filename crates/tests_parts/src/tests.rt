//! Parts of a session, of which all was worked out by hand.

mod bearer;
mod catalog;
mod filter;
mod filter_v6;
mod flow;
mod index;
mod ipv6;
mod later;
mod other_session;
mod packet;
mod rule;
mod shelf;
mod table;
mod tables;
mod trigger;
mod usage;

use std::fmt::Debug;
use std::process::Abort;

/// Expects what is due. It stands here once, for a comparison in each test takes longer to prove.
fn expect_equal<T: Debug + PartialEq>(rt: &impl Abort, found: &T, due: &T) {
    assert_eq!(rt; found, due);
}
