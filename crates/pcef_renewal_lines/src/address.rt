//! Addresses in text.

ghost use Rattle.std.specs.Prelude.{◌≡◌, ◌<◌, ◌/◌, ◌%◌, ◌^◌, IfOk, string_bytes};
ghost use Rattle.pcef_renewal_lines.specs.Addresses.{address_text, colon_text, dotted_text, groups_text};

use pcef_packet::Addr;
use std::alloc::{AllocError, Global};

/// 2^64: half of an address of version 6 is less.
const TWO_TO_64: u128 = 18_446_744_073_709_551_616;

fn dotted_text(alloc: Global, number: u32) -> Result<String, AllocError>
    ensures { IfOk result (λ text. string_bytes text ≡ dotted_text number) }
{
    let a = number / 16_777_216;
    let b = number / 65_536 % 256;
    let c = number / 256 % 256;
    let d = number % 256;
    format!(in alloc; "{a}.{b}.{c}.{d}")
}

/// The group of a number that stands so many bits above its lowest one.
fn group(number: u64, above: u8) -> u16
    requires { above < 64 }
    ensures { result ≡ number / 2 ^ above % 65536 }
{
    (number >> above & 0xFFFF) as u16
}

/// The four groups of half an address.
fn groups_text(alloc: Global, half: u64) -> Result<String, AllocError>
    ensures { IfOk result (λ text. string_bytes text ≡ groups_text half) }
{
    let a = group(half, 48);
    let b = group(half, 32);
    let c = group(half, 16);
    let d = group(half, 0);
    format!(in alloc; "{a:x}:{b:x}:{c:x}:{d:x}")
}

/// All eight groups, none of them left out.
fn colon_text(alloc: Global, number: u128) -> Result<String, AllocError>
    ensures { IfOk result (λ text. string_bytes text ≡ colon_text number) }
{
    let high = groups_text(alloc, (number / TWO_TO_64) as u64)?;
    let low = groups_text(alloc, (number % TWO_TO_64) as u64)?;
    format!(in alloc; "{high}:{low}")
}

/// The text of an address.
pub(crate) fn address_text(alloc: Global, address: Addr) -> Result<String, AllocError>
    ensures { IfOk result (λ text. string_bytes text ≡ address_text address) }
{
    match address {
        Addr::V4(number) => dotted_text(alloc, number),
        Addr::V6(number) => colon_text(alloc, number),
    }
}
