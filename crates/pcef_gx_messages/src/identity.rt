//! Who speaks, and of which session.

ghost use Rattle.std.specs.Prelude.{◌≡◌, ◌≤◌, ◌↔◌, IfSome, IsSome, length};
ghost use Rattle.pcef_gx_messages.specs.Identities.{IsShort, Speaker, speaking_of};

use std::marker::Model;

/// The most octets of each part of an identity.
pub const MAX_OCTETS: usize = 1024;

/// Who speaks, and of which session: the Session-Id, the host and the realm of the gateway, and the realm of the PCRF
/// (RFC 6733, clauses 8.8, 6.3, 6.4 and 6.6). Each has at most 1,024 octets. Contracts see the octets.
#[derive(Drop)]
pub struct Identity<'a> {
    session_id: &'a [u8],
    origin_host: &'a [u8],
    origin_realm: &'a [u8],
    destination_realm: &'a [u8],
}

impl<'a> Model for Identity<'a> {
    ghost use Rattle.pcef_gx_messages.specs.Identities.{IsShort, Speaker};

    ghost Value = { Speaker };

    ghost view = { λ i. record {
      session_id = i.session_id.now;
      origin_host = i.origin_host.now;
      origin_realm = i.origin_realm.now;
      destination_realm = i.destination_realm.now;
    } };

    ghost invariant = { λ i. IsShort (record {
      session_id = i.session_id.now;
      origin_host = i.origin_host.now;
      origin_realm = i.origin_realm.now;
      destination_realm = i.destination_realm.now;
    }) };
}

impl<'a> Identity<'a> {
    /// The identity of these parts; none where one has more than 1,024 octets. Takes no memory.
    pub fn new(
        session_id: &'a [u8],
        origin_host: &'a [u8],
        origin_realm: &'a [u8],
        destination_realm: &'a [u8],
    ) -> Option<Identity<'a>>
        ensures some { IsSome result ↔ IsShort (record {
          session_id = session_id.now;
          origin_host = origin_host.now;
          origin_realm = origin_realm.now;
          destination_realm = destination_realm.now;
        }) }
        ensures parts { IfSome result (λ i. i ≡ record {
          session_id = session_id.now;
          origin_host = origin_host.now;
          origin_realm = origin_realm.now;
          destination_realm = destination_realm.now;
        }) }
    {
        let is_short = session_id.len() <= MAX_OCTETS
            && origin_host.len() <= MAX_OCTETS
            && origin_realm.len() <= MAX_OCTETS
            && destination_realm.len() <= MAX_OCTETS;
        if !is_short {
            return None;
        }
        Some(Identity {
            session_id,
            origin_host,
            origin_realm,
            destination_realm,
        })
    }

    /// The same speaker, of another session: the one of this Session-Id, where it has at most 1,024 octets, and else of
    /// the same one. Takes no memory.
    pub fn speaking_of(&self, session_id: &'a [u8]) -> Identity<'a>
        ensures { result ≡ speaking_of session_id.now self.now }
    {
        let is_long = session_id.len() > MAX_OCTETS;
        Identity {
            session_id: if is_long { self.session_id } else { session_id },
            origin_host: self.origin_host,
            origin_realm: self.origin_realm,
            destination_realm: self.destination_realm,
        }
    }

    /// The Session-Id. Takes no memory.
    pub fn session_id(&self) -> &'a [u8]
        ensures octets { result.now ≡ self.now.session_id }
        ensures most { length result.now ≤ 1024 }
    {
        self.session_id
    }

    /// The Origin-Host. Takes no memory.
    pub fn origin_host(&self) -> &'a [u8]
        ensures octets { result.now ≡ self.now.origin_host }
        ensures most { length result.now ≤ 1024 }
    {
        self.origin_host
    }

    /// The Origin-Realm. Takes no memory.
    pub fn origin_realm(&self) -> &'a [u8]
        ensures octets { result.now ≡ self.now.origin_realm }
        ensures most { length result.now ≤ 1024 }
    {
        self.origin_realm
    }

    /// The Destination-Realm. Takes no memory.
    pub fn destination_realm(&self) -> &'a [u8]
        ensures octets { result.now ≡ self.now.destination_realm }
        ensures most { length result.now ≤ 1024 }
    {
        self.destination_realm
    }
}
