//! QoS, rates, and the numbers of bearers and slots.

use crate::priority::Arp;
use crate::qci::Qci;

/// What decides the bearer of a rule: its QCI and its ARP (TS 23.203, clause 6.1.1.4).
#[derive(Clone, Copy, Debug, PartialEq, Eq)]
pub struct Qos {
    /// The QoS class identifier.
    pub qci: Qci,
    /// The allocation and retention priority.
    pub arp: Arp,
}

/// The guaranteed rates of a rule, in bit/s.
#[derive(Clone, Copy, Debug, PartialEq, Eq)]
pub struct Rates {
    /// Uplink.
    pub up: u32,
    /// Downlink.
    pub down: u32,
}

/// Sums of guaranteed rates, or the capacity that bounds them, in bit/s.
#[derive(Clone, Copy, Debug, PartialEq, Eq)]
pub struct Sums {
    /// Uplink.
    pub up: u64,
    /// Downlink.
    pub down: u64,
}

/// The id of a bearer: 5 for the default bearer, 6 to 15 for others.
#[derive(Clone, Copy, Debug, PartialEq, Eq)]
pub struct BearerId(pub u8);

/// The place of a monitoring key among the keys of a session: 0 to 7.
#[derive(Clone, Copy, Debug, Default, PartialEq, Eq)]
pub struct Slot(pub u8);
