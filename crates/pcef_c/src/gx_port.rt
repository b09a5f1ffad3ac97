//! What lies at a handle over Gx: the dialogue of a session, and what its host says of it.

ghost use Rattle.std.specs.Prelude.{◌≡◌, IfErr, IfOk, None};
ghost use Rattle.pcef_c.specs.GxPorts.{nothing_left};
ghost use Rattle.pcef_c.specs.Named.{named_with, nothing_named};

use pcef_gx_handle::GxHandle;
use std::alloc::{AllocError, Global};
use std::marker::Model;

/// A part of what a host says of a session.
#[derive(Clone, Copy)]
pub(crate) enum Part {
    /// The Session-Id.
    SessionId,
    /// The host of the gateway.
    OriginHost,
    /// The realm of the gateway.
    OriginRealm,
    /// The realm of the PCRF.
    DestinationRealm,
    /// AVPs for the first CCR.
    Avps,
}

/// What a host says of a session, as octets.
#[derive(Drop)]
pub struct HostNames {
    pub(crate) session_id: Vec<u8>,
    pub(crate) origin_host: Vec<u8>,
    pub(crate) origin_realm: Vec<u8>,
    pub(crate) destination_realm: Vec<u8>,
    pub(crate) avps: Vec<u8>,
}

impl Model for HostNames {
    ghost use Rattle.pcef_c.specs.Named.{Named};

    ghost Value = { Named };

    ghost view = { λ n. record {
      session_id = n.session_id.items;
      origin_host = n.origin_host.items;
      origin_realm = n.origin_realm.items;
      destination_realm = n.destination_realm.items;
      avps = n.avps.items;
    } };
}

/// What a message left to the host, as numbers.
#[derive(Clone, Copy)]
#[repr(C)]
pub struct CLeft {
    /// Why the PCRF ends the session: the Session-Release-Cause.
    pub release: u32,
    /// The Result-Code of a CCR that failed.
    pub result_code: u32,
    /// 1 where the PCRF ends the session.
    pub has_release: u8,
    /// 1 where the CCR failed with a Result-Code.
    pub has_result_code: u8,
    /// 1 where the message has another list of event triggers.
    pub has_triggers: u8,
}

/// The dialogue of a session, what its host says of it, and what the last message left to the host.
#[derive(Drop)]
pub struct GxPort {
    /// The dialogue.
    pub gx: GxHandle,
    /// What the host says of the session.
    pub names: HostNames,
    /// What the last message left.
    pub left: CLeft,
}

impl HostNames {
    /// Nothing is said. Takes no memory.
    pub(crate) fn new(alloc: Global) -> HostNames
        ensures { result ≡ nothing_named }
    {
        HostNames {
            session_id: Vec::new(alloc),
            origin_host: Vec::new(alloc),
            origin_realm: Vec::new(alloc),
            destination_realm: Vec::new(alloc),
            avps: Vec::new(alloc),
        }
    }

    /// Says a part. Takes memory; an `Err` is its want, and nothing has changed.
    pub(crate) fn set(&mut self, alloc: Global, part: Part, octets: &[u8]) -> Result<(), AllocError>
        ensures said { IfOk result (λ _. self.new ≡ named_with part octets.now self.old) }
        ensures lacks { IfErr result (λ _. self.new ≡ self.old) }
    {
        let copy = Vec::from_slice(alloc, octets)?;
        match part {
            Part::SessionId => self.session_id = copy,
            Part::OriginHost => self.origin_host = copy,
            Part::OriginRealm => self.origin_realm = copy,
            Part::DestinationRealm => self.destination_realm = copy,
            Part::Avps => self.avps = copy,
        }
        Ok(())
    }
}

/// Nothing was left.
pub(crate) const NOTHING_LEFT: CLeft = CLeft {
    release: 0,
    result_code: 0,
    has_release: 0,
    has_result_code: 0,
    has_triggers: 0,
};

impl GxPort {
    /// A port without a dialogue, whose host has said nothing. Takes no memory.
    pub(crate) fn new(alloc: Global) -> GxPort
        ensures dialogue { result.gx.dialogue ≡ None }
        ensures names { result.names ≡ nothing_named }
        ensures left { result.left ≡ nothing_left }
    {
        GxPort {
            gx: GxHandle::new(alloc),
            names: HostNames::new(alloc),
            left: NOTHING_LEFT,
        }
    }
}
