//! Verdicts.

ghost use Rattle.std.specs.Prelude.{◌≡◌};

use pcef_rule::{BearerId, RuleName};

/// What a generation decides of a packet (TS 23.203, clause 6.2.2).
#[derive(Debug, PartialEq, Eq, Drop)]
pub enum Verdict {
    /// The address on the user equipment's side isn't the session's.
    Stray,
    /// No active rule fits.
    Unmatched,
    /// The first fitting rule's gate is closed in the packet's direction.
    Gated {
        /// The name of that rule.
        rule: RuleName,
    },
    /// The first fitting rule's gate is open in the packet's direction.
    Passed {
        /// The name of that rule.
        rule: RuleName,
        /// The bearer that the rule is bound to.
        bearer: BearerId,
    },
}

impl Verdict {
    /// A copy. Takes no memory.
    pub fn copy(&self) -> Verdict
        ensures { result ≡ self.now }
    {
        match self {
            Verdict::Stray => Verdict::Stray,
            Verdict::Unmatched => Verdict::Unmatched,
            Verdict::Gated { rule } => Verdict::Gated { rule: rule.copy() },
            Verdict::Passed { rule, bearer } => Verdict::Passed {
                rule: rule.copy(),
                bearer: *bearer,
            },
        }
    }
}
