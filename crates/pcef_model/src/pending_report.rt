//! What is to be reported.

use crate::report::Cause;
use crate::trigger::{AccessKind, NoticeValue};
use pcef_rule::{KeyName, RuleName};

/// What a report is about, before its number and its octets are known.
#[derive(Debug, PartialEq, Eq, Drop)]
pub enum PendingReport {
    /// A rule became inactive since its bearer was lost.
    Inactive(RuleName),
    /// The usage of a monitoring key.
    Usage(KeyName, Cause),
    /// An access event.
    Access(AccessKind, NoticeValue),
}
