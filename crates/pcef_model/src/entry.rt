//! The entries of a journal.

use crate::command::Command;
use crate::report::Report;
use crate::row::Row;

/// One thing that happened in a session.
#[derive(Drop)]
pub enum Entry {
    /// A command was accepted.
    Command(Command),
    /// A worker was attached.
    Attach(u8),
    /// A worker left.
    Leave(u8),
    /// A worker's packet was taken over.
    Row(Row),
    /// A report was made.
    Report(Report),
}
