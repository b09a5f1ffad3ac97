//! What a message asks of a session.

ghost use Rattle.std.specs.Prelude.{◌≡◌};

use crate::definition::RuleChange;
use crate::failure::RuleFailure;
use pcef_model::{Level, TriggerSet};
use pcef_rule::{KeyName, Qos, RuleName};
use std::marker::Model;

/// A name as it stands in a message: any octets. Contracts see them.
#[derive(Drop)]
pub struct GivenName<'a> {
    octets: &'a [u8],
}

impl<'a> Model for GivenName<'a> {
    ghost use Rattle.std.specs.Prelude.{List, ℕ};

    ghost Value = { List ℕ };

    ghost view = { λ n. n.octets.now };
}

impl<'a> GivenName<'a> {
    /// The name that these octets are. Takes no memory.
    pub fn new(octets: &'a [u8]) -> GivenName<'a>
        ensures { result ≡ octets.now }
    {
        GivenName { octets }
    }

    /// Its octets. Takes no memory.
    pub fn octets(&self) -> &'a [u8]
        ensures { result.now ≡ self.now }
    {
        self.octets
    }
}

/// What a name in a message is the name of.
#[derive(Clone, Copy, Debug, PartialEq, Eq)]
pub enum NameOf {
    /// A rule: a Charging-Rule-Name.
    Rule,
    /// A group of rules: a Charging-Rule-Base-Name.
    Base,
}

/// One thing that a message asks of a session.
#[derive(Drop)]
pub enum Order<'a> {
    /// To take a rule away.
    Remove(RuleName),
    /// To make a predefined rule active.
    Activate(RuleName),
    /// To make a rule active, or to change it.
    Install(RuleChange),
    /// What can't be done, whatever the session is.
    Unable {
        /// The name, of a rule or of a group of rules.
        name: GivenName<'a>,
        /// Which of the two.
        of: NameOf,
        /// Why.
        failure: RuleFailure,
    },
    /// To subscribe to these events, and to no other.
    Triggers(TriggerSet),
    /// To switch a monitoring key on, and to set its grant.
    Monitor {
        /// The key.
        key: KeyName,
        /// The grant, in octets: at least 1.
        grant: u64,
        /// What the key counts.
        level: Level,
    },
    /// To switch a monitoring key off.
    Stop(KeyName),
    /// To report a monitoring key now.
    ReportNow(KeyName),
    /// To report now each monitoring key that is on.
    ReportAll,
}

/// What a message asks of a session, in the order in which it is to be done.
#[derive(Drop)]
pub struct Orders<'a> {
    /// The orders.
    pub orders: Vec<Order<'a>>,
    /// The numbers of the event triggers beside those that a session has: the gateway watches for them.
    pub others: Vec<u32>,
    /// The QCI and the ARP of the default bearer, where the message has both.
    pub default_qos: Option<Qos>,
    /// Why the session is to end, where it is: the Session-Release-Cause.
    pub release: Option<u32>,
}
