//! PCC rules (TS 23.203, clause 6.3): names, ARP, QoS, rates, gates, QCI kinds, `Properties`, `Rule`, and the order of
//! rules.
//!
//! Its contracts say: what is accepted, that copies are equal, and when rules are.
//!
//! In the order of reading: `gate`, `laws`, `name`, `priority`, `qci`, `quantity`, `rule`, `equal`.
#![tactic(auto)]

mod equal;
mod gate;
mod laws;
mod name;
mod priority;
mod qci;
mod quantity;
mod rule;

pub use gate::Gate;
pub use laws::rules_are_ordered;
pub use name::{KeyName, Name, NameFault, OfKey, OfRule, RuleName};
pub use priority::{Arp, ArpFault};
pub use qci::{Kind, Qci, QciFault, QciTable};
pub use quantity::{BearerId, Qos, Rates, Slot, Sums};
pub use rule::{MAX_FILTERS, Origin, Properties, Rule, RuleFault, comes_before, compare_rules};
