//! Who speaks, and of which session, kept.

ghost use Rattle.std.specs.Prelude.{◌≡◌, IfOk};

use pcef_gx_messages::Identity;
use std::alloc::{AllocError, Global};
use std::marker::Model;

/// Who speaks, and of which session, kept: the parts of an [`Identity`]. Contracts see the octets.
#[derive(Drop)]
pub struct Party {
    session_id: Vec<u8>,
    origin_host: Vec<u8>,
    origin_realm: Vec<u8>,
    destination_realm: Vec<u8>,
}

impl Model for Party {
    ghost use Rattle.pcef_gx_messages.specs.Identities.{IsShort, Speaker};

    ghost Value = { Speaker };

    ghost view = { λ p. record {
      session_id = p.session_id.items;
      origin_host = p.origin_host.items;
      origin_realm = p.origin_realm.items;
      destination_realm = p.destination_realm.items;
    } };

    ghost invariant = { λ p. IsShort (record {
      session_id = p.session_id.items;
      origin_host = p.origin_host.items;
      origin_realm = p.origin_realm.items;
      destination_realm = p.destination_realm.items;
    }) };
}

impl Party {
    /// A copy of an identity. Takes memory; an `Err` is want of it.
    pub fn new(alloc: Global, identity: &Identity) -> Result<Party, AllocError>
        ensures { IfOk result (λ party. party ≡ identity.now) }
    {
        Ok(Party {
            session_id: Vec::from_slice(alloc, identity.session_id())?,
            origin_host: Vec::from_slice(alloc, identity.origin_host())?,
            origin_realm: Vec::from_slice(alloc, identity.origin_realm())?,
            destination_realm: Vec::from_slice(alloc, identity.destination_realm())?,
        })
    }

    /// The identity. Takes no memory.
    pub fn identity(&self) -> Identity<'_>
        ensures { result ≡ self.now }
    {
        match Identity::new(
            &self.session_id,
            &self.origin_host,
            &self.origin_realm,
            &self.destination_realm,
        ) {
            Some(identity) => identity,
            None => unreachable!(),
        }
    }
}
