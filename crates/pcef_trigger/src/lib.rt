//! Reporters, and the outlet that hands reports to them: `Outlet`, `Reporter`, `ReportKind`.
//!
//! Its contracts say: which reports each reporter was asked for, which it has taken, and which was refused.
//!
//! In the order of reading: `kind`, `laws`, `reporter`, `offering`, `outlet`.
#![tactic(auto)]

mod kind;
mod laws;
mod offering;
mod outlet;
mod reporter;

pub use kind::ReportKind;
pub use laws::deliveries_join;
pub use outlet::{Delivered, Outlet, SameKind};
pub use reporter::{Answer, Reporter};
