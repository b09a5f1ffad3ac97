//! Which lines let a field pass whatever it is.

ghost use Rattle.std.specs.Prelude.{◌≡◌, ◌<◌, ◌^◌, ℕ, IfSome, OnOk, Option, true};
ghost use Rattle.std.specs.Int.{bit_at};
ghost use Rattle.pcef_filter.specs.Matching.{place_fits, ports_fit};
ghost use Rattle.pcef_packet.specs.declared.header.Addr.{Addr};
ghost use Rattle.pcef_index.specs.private.Addresses.{AreAddresses, LetsAddr, version_in};
ghost use Rattle.pcef_index.specs.private.Rows.{AreRows, LetsNumber};
ghost use Rattle.pcef_index.specs.private.Sieves.{LetsPlace, LetsRemote, LetsRow};

use crate::addresses::Addresses;
use crate::rows::Rows;
use crate::words::{Spot, set};
use pcef_filter::{Place, PortRange};

/// Which of 64 lines let a field pass whatever it is, a bit for each.
#[derive(Clone, Copy, Default)]
pub(crate) struct Free {
    /// The remote address.
    pub remote: u64,
    /// The remote address, where it is the session's.
    pub assigned: u64,
    /// The user equipment's address.
    pub local: u64,
    /// The protocol.
    pub proto: u64,
    /// The remote port.
    pub remote_port: u64,
    /// The user equipment's port.
    pub local_port: u64,
}

/// Adds what a line lets pass of an address.
pub(crate) fn add_place(addresses: &mut Addresses, free: &mut u64, spot: Spot, place: &Place)
    requires bit { spot.bit < 64 }
    requires block { spot.block < spot.blocks }
    requires addresses { AreAddresses spot.blocks addresses.old }
    ensures addresses { AreAddresses spot.blocks addresses.new }
    ensures version { version_in addresses.new ≡ version_in addresses.old }
    ensures keeps { (block i : ℕ) (a : Addr) → LetsAddr addresses.old block a i → LetsAddr addresses.new block a i }
    ensures free { (i : ℕ) → bit_at free.old i ≡ 1 → bit_at free.new i ≡ 1 }
    ensures lets { (ue a : Addr) → place_fits place.now ue a ≡ true
        → LetsPlace free.new addresses.new spot.block a spot.bit }
{
    match place {
        Place::Any | Place::Assigned => set(free, spot.bit),
        Place::Net(net) => addresses.add(free, spot, *net),
    }
}

/// Adds what a line lets pass of the user equipment's address: all, where it is open.
pub(crate) fn add_local(
    addresses: &mut Addresses,
    free: &mut u64,
    spot: Spot,
    place: &Place,
    is_open: bool,
)
    requires bit { spot.bit < 64 }
    requires block { spot.block < spot.blocks }
    requires addresses { AreAddresses spot.blocks addresses.old }
    ensures addresses { AreAddresses spot.blocks addresses.new }
    ensures version { version_in addresses.new ≡ version_in addresses.old }
    ensures keeps { (block i : ℕ) (a : Addr) → LetsAddr addresses.old block a i → LetsAddr addresses.new block a i }
    ensures free { (i : ℕ) → bit_at free.old i ≡ 1 → bit_at free.new i ≡ 1 }
    ensures lets { (ue a : Addr) → place_fits place.now ue a ≡ true
        → LetsPlace free.new addresses.new spot.block a spot.bit }
{
    if is_open {
        set(free, spot.bit);
    } else {
        add_place(addresses, free, spot, place);
    }
}

/// Adds what a line lets pass of the remote address. It may ask for the session's own.
pub(crate) fn add_remote(
    addresses: &mut Addresses,
    free: &mut u64,
    assigned: &mut u64,
    spot: Spot,
    place: &Place,
)
    requires bit { spot.bit < 64 }
    requires block { spot.block < spot.blocks }
    requires addresses { AreAddresses spot.blocks addresses.old }
    ensures addresses { AreAddresses spot.blocks addresses.new }
    ensures version { version_in addresses.new ≡ version_in addresses.old }
    ensures keeps { (block i : ℕ) (a : Addr) → LetsAddr addresses.old block a i → LetsAddr addresses.new block a i }
    ensures free { (i : ℕ) → bit_at free.old i ≡ 1 → bit_at free.new i ≡ 1 }
    ensures assigned { (i : ℕ) → bit_at assigned.old i ≡ 1 → bit_at assigned.new i ≡ 1 }
    ensures lets { (ue a : Addr) → place_fits place.now ue a ≡ true
        → LetsRemote free.new assigned.new addresses.new spot.block ue a spot.bit }
{
    match place {
        Place::Assigned => set(assigned, spot.bit),
        Place::Any | Place::Net(_) => add_place(addresses, free, spot, place),
    }
}

/// Adds what a line lets pass of a number.
pub(crate) fn add_ranges(rows: &mut Rows, free: &mut u64, spot: Spot, ranges: &[PortRange])
    requires bit { spot.bit < 64 }
    requires block { spot.block < spot.blocks }
    requires rows { AreRows spot.blocks rows.old }
    ensures rows { AreRows spot.blocks rows.new }
    ensures keeps { (block n i : ℕ) → LetsNumber rows.old block n i → LetsNumber rows.new block n i }
    ensures free { (i : ℕ) → bit_at free.old i ≡ 1 → bit_at free.new i ≡ 1 }
    ensures lets { (n : Option ℕ) → IfSome n (λ k. k < 2 ^ 16) → ports_fit ranges.now n ≡ true
        → LetsRow free.new rows.new spot.block n spot.bit }
{
    if ranges.is_empty() {
        set(free, spot.bit);
    } else {
        rows.add(spot, ranges);
    }
}
