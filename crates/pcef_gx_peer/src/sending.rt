//! A message of a header and of AVPs.

ghost use Rattle.std.specs.Prelude.{◌≡◌, ◌<◌, ◌++◌, ◌^◌, IfOk};
ghost use Rattle.pcef_diameter.specs.Headers.{header_octets};

use pcef_diameter::{MessageHeader, put_header};
use std::alloc::{AllocError, Global};

/// The octets of a message: its header, and those of its AVPs. Takes memory.
pub(crate) fn message(
    alloc: Global,
    header: &MessageHeader,
    avps: &[u8],
) -> Result<Vec<u8>, AllocError>
    requires len { header.now.len < 2 ^ 24 }
    requires command { header.now.command < 2 ^ 24 }
    ensures { IfOk result (λ m. m.items ≡ header_octets header.now ++ avps.now) }
{
    let mut message = Vec::new(alloc);
    put_header(&mut message, header)?;
    message.extend_from_slice(avps)?;
    Ok(message)
}
