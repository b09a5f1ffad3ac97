//! Levels of monitoring keys.

/// What a monitoring key counts (TS 29.212, clause 5.3.61, Usage-Monitoring-Level).
#[derive(Clone, Copy, Debug, PartialEq, Eq)]
pub enum Level {
    /// Packets that rules with the key let pass.
    Rule,
    /// All packets that are let pass in the session.
    Session,
}
