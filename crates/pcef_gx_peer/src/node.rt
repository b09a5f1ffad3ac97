//! Who speaks.

ghost use Rattle.std.specs.Prelude.{◌≡◌, ◌≤◌, ◌↔◌, ◌+◌, ◌++◌, IfSome, IsSome, OnOk, length};
ghost use Rattle.pcef_diameter.specs.Spellings.{avps_octets};
ghost use Rattle.pcef_gx_peer.specs.Nodes.{IsShort, Origin, origin_avps};

use pcef_gx::code::{ORIGIN_HOST, ORIGIN_REALM};
use pcef_gx::put_octets;
use pcef_gx_messages::MAX_OCTETS;
use std::alloc::AllocError;
use std::marker::Model;

/// A Diameter node, as it names itself: its host and its realm (RFC 6733, clauses 6.3 and 6.4). Each has at most 1,024
/// octets. Contracts see the octets.
#[derive(Drop)]
pub struct Node<'a> {
    origin_host: &'a [u8],
    origin_realm: &'a [u8],
}

impl<'a> Model for Node<'a> {
    ghost use Rattle.pcef_gx_peer.specs.Nodes.{IsShort, Origin};

    ghost Value = { Origin };

    ghost view = { λ n. record { host = n.origin_host.now; realm = n.origin_realm.now } };

    ghost invariant = { λ n. IsShort (record { host = n.origin_host.now; realm = n.origin_realm.now }) };
}

impl<'a> Node<'a> {
    /// The node of this host and realm; none where one has more than 1,024 octets. Takes no memory.
    pub fn new(origin_host: &'a [u8], origin_realm: &'a [u8]) -> Option<Node<'a>>
        ensures some { IsSome result ↔ IsShort (record { host = origin_host.now; realm = origin_realm.now }) }
        ensures parts { IfSome result (λ n. n ≡ record { host = origin_host.now; realm = origin_realm.now }) }
    {
        let is_short = origin_host.len() <= MAX_OCTETS && origin_realm.len() <= MAX_OCTETS;
        if !is_short {
            return None;
        }
        Some(Node {
            origin_host,
            origin_realm,
        })
    }

    /// The Origin-Host. Takes no memory.
    pub fn origin_host(&self) -> &'a [u8]
        ensures octets { result.now ≡ self.now.host }
        ensures most { length result.now ≤ 1024 }
    {
        self.origin_host
    }

    /// The Origin-Realm. Takes no memory.
    pub fn origin_realm(&self) -> &'a [u8]
        ensures octets { result.now ≡ self.now.realm }
        ensures most { length result.now ≤ 1024 }
    {
        self.origin_realm
    }
}

/// Writes the Origin-Host and the Origin-Realm of a node.
pub(crate) fn put_origin(out: &mut Vec<u8>, node: &Node) -> Result<(), AllocError>
    ensures written { OnOk result (out.new.items ≡ out.old.items
        ++ avps_octets (origin_avps node.now)) }
    ensures room { OnOk result (length out.new.items ≤ length out.old.items + 2078) }
{
    put_octets(out, ORIGIN_HOST, node.origin_host())?;
    put_octets(out, ORIGIN_REALM, node.origin_realm())
}
