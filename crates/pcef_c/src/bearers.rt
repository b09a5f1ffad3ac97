//! Bearers as C gets them.

ghost use Rattle.std.specs.Prelude.{◌≡◌};
ghost use Rattle.pcef_c.specs.Bearers.{BearerReturns, bearer_number, c_bearer_of};

use crate::numbers::flag_number;
use pcef_handle::{BearerRefusal, BearerState, Handle};

/// What a bearer has, as numbers.
#[derive(Clone, Copy)]
#[repr(C)]
pub struct CBearer {
    /// Its guaranteed uplink rate in bit/s.
    pub up: u64,
    /// Its guaranteed downlink rate in bit/s.
    pub down: u64,
    /// Its QCI.
    pub qci: u8,
    /// The priority level of its ARP, 1 to 15.
    pub priority_level: u8,
    /// 1 where its ARP has the pre-emption capability, else 0.
    pub preemption_capability: u8,
    /// 1 where its ARP has the pre-emption vulnerability, else 0.
    pub preemption_vulnerability: u8,
    /// How many active rules are on it.
    pub rules: u8,
}

fn c_bearer_of(state: &BearerState) -> CBearer
    ensures { result ≡ c_bearer_of state.now }
{
    CBearer {
        up: state.guaranteed.up,
        down: state.guaranteed.down,
        qci: state.qos.qci.0,
        priority_level: state.qos.arp.level(),
        preemption_capability: flag_number(state.qos.arp.capability()),
        preemption_vulnerability: flag_number(state.qos.arp.vulnerability()),
        rules: state.rules,
    }
}

/// Why there is no bearer.
fn bearer_number(refusal: BearerRefusal) -> u8
    ensures { result ≡ bearer_number refusal }
{
    match refusal {
        BearerRefusal::NoSession => 72,
        BearerRefusal::NoBearer => 73,
    }
}

/// Writes what a bearer has, and returns 0; or returns why there is no such bearer.
pub(crate) fn bearer(handle: &mut Handle, id: u8, state: &mut CBearer) -> u8
    ensures { BearerReturns handle.old id state.old handle.new state.new result }
{
    match handle.bearer(id) {
        Ok(found) => {
            *state = c_bearer_of(&found);
            0
        }
        Err(refusal) => bearer_number(refusal),
    }
}
