//! A message of a header and of AVPs.

ghost use Rattle.std.specs.Prelude.{◌≡◌, ◌<◌, ◌≤◌, ◌+◌, ◌++◌, ◌^◌, length, vec_capacity};
ghost use Rattle.pcef_diameter.specs.Headers.{header_octets};

use pcef_diameter::{MessageHeader, put_header};

/// Writes a header, where there is room for it.
fn put_header_reserved(out: &mut Vec<u8>, header: &MessageHeader)
    requires len { header.now.len < 2 ^ 24 }
    requires command { header.now.command < 2 ^ 24 }
    requires room { length out.old.items + 20 ≤ vec_capacity out.old }
    ensures written { out.new.items ≡ out.old.items ++ header_octets header.now }
    ensures room { length out.new.items ≡ length out.old.items + 20 }
    ensures capacity { vec_capacity out.old ≤ vec_capacity out.new }
{
    match put_header(out, header) {
        Ok(()) => {}
        Err(_) => unreachable!(),
    }
}

/// Writes a header, and the octets of AVPs behind it, where there is room for them.
pub(crate) fn put_message(out: &mut Vec<u8>, header: &MessageHeader, avps: &[u8])
    requires len { header.now.len < 2 ^ 24 }
    requires command { header.now.command < 2 ^ 24 }
    requires room { length out.old.items + 20 + length avps.now ≤ vec_capacity out.old }
    ensures written { out.new.items ≡ out.old.items ++ (header_octets header.now ++ avps.now) }
    ensures capacity { vec_capacity out.old ≤ vec_capacity out.new }
{
    put_header_reserved(out, header);
    match out.extend_from_slice(avps) {
        Ok(()) => {}
        Err(_) => unreachable!(),
    }
}
