//! What became of an order.

ghost use Rattle.std.specs.Prelude.{◌≡◌};
ghost use Rattle.pcef_gx_orders.specs.Fates.{key_fate, rule_fate, setting_fate};

use pcef_gx::{RuleFailure, failure_of};
use pcef_model::{Accepted, Refusal};

/// What became of an order.
#[derive(Clone, Copy, Debug, PartialEq, Eq)]
pub enum Fate {
    /// It was done.
    Done,
    /// The rule that it names couldn't be had.
    NoRule(RuleFailure),
    /// It names no rule, and was refused.
    Refused,
}

/// What became of an order about a rule, by the answer to its command.
pub(crate) fn rule_fate(answer: Result<Accepted, Refusal>) -> Fate
    ensures { result ≡ rule_fate answer }
{
    match answer {
        Ok(_) => Fate::Done,
        Err(refusal) => Fate::NoRule(failure_of(refusal)),
    }
}

/// What became of a subscription, or of the switching on of a key.
pub(crate) fn setting_fate(answer: Result<Accepted, Refusal>) -> Fate
    ensures { result ≡ setting_fate answer }
{
    match answer {
        Ok(_) => Fate::Done,
        Err(_) => Fate::Refused,
    }
}

/// What became of the switching off of a key, or of a report of it: a key that isn't known is off as asked, and has
/// nothing to report.
pub(crate) fn key_fate(answer: Result<Accepted, Refusal>) -> Fate
    ensures { result ≡ key_fate answer }
{
    match answer {
        Ok(_) | Err(Refusal::UnknownKey) => Fate::Done,
        Err(_) => Fate::Refused,
    }
}
