//! Addresses in text.

ghost use Rattle.std.specs.Prelude.{◌≡◌, IfSome, Some};
ghost use Rattle.pcef_packet.specs.AddressTexts.{WritesAddress, address_of, has_colon};
ghost use Rattle.pcef_packet.specs.declared.header.Addr.{Addr};

use crate::colon_hex::colon_hex_number;
use crate::dotted_decimal::dotted_number;
use crate::header::Addr;

/// Whether a text has a colon.
fn has_colon(text: &[u8]) -> bool
    ensures { result ≡ has_colon text.now }
{
    text.iter().any(|octet| *octet == b':')
}

/// The address of a text, of the version that it is written in.
#[tactic(auto, unfolding(crate::specs::AddressTexts::address_of))]
fn address(text: &[u8]) -> Option<Addr>
    ensures { result ≡ address_of text.now }
{
    if has_colon(text) {
        let number = colon_hex_number(text)?;
        Some(Addr::V6(number))
    } else {
        let number = dotted_number(text)?;
        Some(Addr::V4(number))
    }
}

impl Addr {
    /// The address that a text writes: four numbers from 0 to 255 joined by dots, or eight groups of one to
    /// four hexadecimal digits joined by colons, or fewer groups with one `::` in place of the groups of
    /// zero that are missing.
    pub fn from_text(text: &[u8]) -> Option<Addr>
        ensures reading { result ≡ address_of text.now }
        // The text writes the address that is answered, and no other.
        ensures found { IfSome result (λ addr. WritesAddress text.now addr) }
        ensures only { (addr : Addr) → WritesAddress text.now addr → result ≡ Some addr }
    {
        address(text)
    }
}
