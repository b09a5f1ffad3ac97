//! What goes back of a request.

ghost use Rattle.std.specs.Prelude.{◌≡◌, ◌≤◌, ◌+◌, ◌++◌, IfOk, OnOk, length, map};
ghost use Rattle.pcef_diameter.specs.Avps.{shown};
ghost use Rattle.pcef_diameter.specs.Spellings.{avps_octets};
ghost use Rattle.pcef_gx_messages.specs.Proxies.{GoesBack, proxies};

use pcef_diameter::{Avp, put_avp, read_avps};
use pcef_gx::code::PROXY_INFO;
use pcef_gx::is;
use std::alloc::{AllocError, Global};

/// Writes the Proxy-Infos among the AVPs of a request behind others, in their order: they go back in its answer (RFC
/// 6733, clauses 6.2 and 6.7.2). The AVPs have at most 65,536 octets. Takes memory; an `Err` is want of it.
pub fn put_proxies(out: &mut Vec<u8>, asked: &[Avp]) -> Result<(), AllocError>
    requires { length (avps_octets (map shown asked.now)) ≤ 65536 }
    ensures written { OnOk result (out.new.items ≡ out.old.items ++ avps_octets (proxies (map shown asked.now))) }
    ensures room { OnOk result (length out.new.items ≤ length out.old.items + 65536) }
{
    for avp in asked {
        if is(avp, PROXY_INFO) {
            put_avp(out, avp)?;
        }
    }
    Ok(())
}

/// The Proxy-Infos of a request with these octets behind its header, at most 65,536, as octets. Behind an AVP at fault
/// no more are looked for. Takes memory; an `Err` is want of it.
pub fn proxies_in(alloc: Global, octets: &[u8]) -> Result<Vec<u8>, AllocError>
    requires { length octets.now ≤ 65536 }
    ensures back { IfOk result (λ back. GoesBack octets.now back.items) }
    ensures room { IfOk result (λ back. length back.items ≤ 65536) }
{
    let read = read_avps(alloc, octets)?;
    let mut back = Vec::new(alloc);
    put_proxies(&mut back, &read.avps)?;
    Ok(back)
}
