//! The bearers of a session, by their ids.

ghost use Rattle.std.specs.Prelude.{◌≡◌};
ghost use Rattle.pcef_handle.specs.BearerStates.{bearer_in, bearer_state};

use crate::held::Handle;
use pcef_bearer::Bearers;
use pcef_rule::{BearerId, Qos, Sums};

/// What a bearer has (TS 23.203, clause 6.1.1.4).
#[derive(Clone, Copy, Debug, PartialEq, Eq)]
pub struct BearerState {
    /// Its QCI and ARP, which all of its rules have.
    pub qos: Qos,
    /// Its guaranteed rates in bit/s: the exact sums of its rules'.
    pub guaranteed: Sums,
    /// How many active rules are on it, 0 to 64: 0 of the default bearer alone.
    pub rules: u8,
}

/// Why there is no bearer: the first reason in this order.
#[derive(Clone, Copy, Debug, PartialEq, Eq)]
pub enum BearerRefusal {
    /// The handle has no session.
    NoSession,
    /// The session has no bearer of this id now.
    NoBearer,
}

fn bearer_of(bearers: &Bearers, id: BearerId) -> Result<BearerState, BearerRefusal>
    ensures { result ≡ bearer_state bearers.now id.0 }
{
    let Some(qos) = bearers.qos_on(id) else {
        return Err(BearerRefusal::NoBearer);
    };
    let Some(guaranteed) = bearers.guaranteed(id) else {
        return Err(BearerRefusal::NoBearer);
    };
    Ok(BearerState {
        qos,
        guaranteed,
        rules: bearers.rules_on(id),
    })
}

impl Handle {
    /// What the bearer of this id has in the newest generation: the default bearer has id 5, the others 6 to 15. Takes
    /// no memory.
    pub fn bearer(&self, id: u8) -> Result<BearerState, BearerRefusal>
        ensures { result ≡ bearer_in self.now.session id }
    {
        match &self.session {
            Some(session) => bearer_of(session.world.session().bearers(), BearerId(id)),
            None => Err(BearerRefusal::NoSession),
        }
    }
}
