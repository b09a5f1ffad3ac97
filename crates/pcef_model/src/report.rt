//! Reports.

ghost use Rattle.std.specs.Prelude.{◌≡◌};

use crate::trigger::{AccessKind, NoticeValue};
use pcef_rule::{KeyName, RuleName};

/// Why usage is reported (TS 29.212, clauses 4.5.16 and 4.5.17).
#[derive(Clone, Copy, Debug, PartialEq, Eq)]
pub enum Cause {
    /// The grant was reached.
    Threshold,
    /// A report was asked for.
    Requested,
    /// The key was switched off.
    Disabled,
    /// The last active rule of the key is gone.
    RulesGone,
    /// The session ended.
    Terminated,
}

/// Why a rule became inactive by itself.
#[derive(Clone, Copy, Debug, PartialEq, Eq)]
pub enum InactiveCause {
    /// Its bearer was lost.
    BearerLost,
}

/// What a report says.
#[derive(Debug, PartialEq, Eq, Drop)]
pub enum Body {
    /// The usage of a monitoring key.
    Usage {
        /// The key.
        key: KeyName,
        /// The octets that were unreported until now.
        octets: u64,
        /// Why it is reported.
        cause: Cause,
    },
    /// An access event.
    Access {
        /// Its kind.
        kind: AccessKind,
        /// Its value.
        value: NoticeValue,
    },
    /// A rule that became inactive.
    Inactive {
        /// The rule.
        rule: RuleName,
        /// Why.
        cause: InactiveCause,
    },
}

/// A report. The reports of a session are numbered from 0 on.
#[derive(Debug, PartialEq, Eq, Drop)]
pub struct Report {
    /// How many reports the session made before.
    pub number: u64,
    /// What it says.
    pub body: Body,
}

impl Body {
    /// A copy. Takes no memory.
    pub fn copy(&self) -> Body
        ensures { result ≡ self.now }
    {
        match self {
            Body::Usage { key, octets, cause } => Body::Usage {
                key: key.copy(),
                octets: *octets,
                cause: *cause,
            },
            Body::Access { kind, value } => Body::Access {
                kind: *kind,
                value: value.copy(),
            },
            Body::Inactive { rule, cause } => Body::Inactive {
                rule: rule.copy(),
                cause: *cause,
            },
        }
    }
}

impl Report {
    /// A copy. Takes no memory.
    pub fn copy(&self) -> Report
        ensures { result ≡ self.now }
    {
        Report {
            number: self.number,
            body: self.body.copy(),
        }
    }
}
