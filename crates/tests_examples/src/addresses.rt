//! Addresses as texts.

use pcef_packet::Addr;
use std::alloc::AllocError;
use std::fmt::Write;
use std::net::{Ipv4Addr, Ipv6Addr};

/// Writes an address in its usual form.
pub fn write_address(text: &mut String, address: Addr) -> Result<(), AllocError> {
    match address {
        Addr::V4(number) => write!(text, "{}", Ipv4Addr::from_bits(number)),
        Addr::V6(number) => write!(text, "{}", Ipv6Addr::from_bits(number)),
    }
}
