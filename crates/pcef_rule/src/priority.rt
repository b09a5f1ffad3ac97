//! Allocation and retention priorities.

ghost use Rattle.std.specs.Prelude.{◌≡◌, ◌≤◌, ◌↔◌, IsOk, IfOk};
ghost use Rattle.pcef_rule.specs.Priority.{Priority, IsLevel};

use std::marker::Model;
use thiserror::Error;

/// A priority level isn't 1 to 15.
#[derive(Clone, Copy, Debug, PartialEq, Eq, Error)]
#[error("a priority level is 1 to 15")]
pub struct ArpFault;

/// An allocation and retention priority (TS 23.203, clause 6.1.7.3): a priority level from 1, the
/// highest, to 15, and whether it may pre-empt and be pre-empted. Two are the same when all three are
/// equal.
#[derive(Clone, Copy, Debug, PartialEq, Eq)]
pub struct Arp {
    level: u8,
    capability: bool,
    vulnerability: bool,
}

impl Model for Arp {
    ghost use Rattle.pcef_rule.specs.Priority.{Priority, IsLevel};

    ghost Value = { Priority };

    ghost view = { λ a. record {
      level = a.level;
      capability = a.capability;
      vulnerability = a.vulnerability;
    } };

    ghost invariant = { λ a. IsLevel a.level };

    ghost inverse = { λ p. record { level = p.level; capability = p.capability; vulnerability = p.vulnerability } };
}

impl Arp {
    /// The priority of a level, with its pre-emption capability and vulnerability, or [`ArpFault`]
    /// where the level isn't 1 to 15.
    pub fn new(level: u8, capability: bool, vulnerability: bool) -> Result<Arp, ArpFault>
        ensures variant { IsOk result ↔ IsLevel level }
        ensures ok { IfOk result (λ a. a
            ≡ record { level = level; capability = capability; vulnerability = vulnerability }) }
    {
        if level < 1 || 15 < level {
            return Err(ArpFault);
        }
        Ok(Arp {
            level,
            capability,
            vulnerability,
        })
    }

    /// The priority of a level that is known to be 1 to 15.
    pub fn known(level: u8, capability: bool, vulnerability: bool) -> Arp
        requires { IsLevel level }
        ensures { result
            ≡ record { level = level; capability = capability; vulnerability = vulnerability } }
    {
        match Arp::new(level, capability, vulnerability) {
            Ok(arp) => arp,
            Err(_) => unreachable!(),
        }
    }

    /// The priority level, 1 to 15.
    pub fn level(self) -> u8
        ensures { result ≡ self.level }
    {
        self.level
    }

    /// Whether it may pre-empt others.
    pub fn capability(self) -> bool
        ensures { result ≡ self.capability }
    {
        self.capability
    }

    /// Whether others may pre-empt it.
    pub fn vulnerability(self) -> bool
        ensures { result ≡ self.vulnerability }
    {
        self.vulnerability
    }
}
