//! The AVPs of a message, or of a Grouped AVP.

ghost use Rattle.std.specs.Prelude.{IfOk, map};
ghost use Rattle.pcef_diameter.specs.Avps.{Reads, shown};

use crate::avp::{Avp, read_avp};
use crate::fault::AvpFault;
use std::alloc::{AllocError, Global};

/// AVPs that were read one after another, up to the end of the octets or to the first at fault.
#[derive(Drop)]
pub struct Avps<'a> {
    /// Those before the end or the fault.
    pub avps: Vec<Avp<'a>>,
    /// The octets from the first at fault on; none where there is no fault.
    pub rest: &'a [u8],
    /// Why they begin with no AVP.
    pub fault: Option<AvpFault>,
}

/// The AVPs that the octets behind a header, or the data of a Grouped AVP, are, one after another, with their padding
/// (RFC 6733, clauses 4 and 4.4). They borrow the octets; the list of them takes memory, and an `Err` is its want. A
/// fault of the octets is no `Err`, but stands in `Avps`.
pub fn read_avps<'a>(alloc: Global, octets: &'a [u8]) -> Result<Avps<'a>, AllocError>
    ensures { IfOk result (λ read. Reads octets.now (map shown read.avps.items) read.rest.now read.fault) }
{
    let mut avps = Vec::new(alloc);
    let mut rest = octets;
    while !rest.is_empty() {
        match read_avp(rest) {
            Ok((avp, behind)) => {
                avps.push(avp)?;
                rest = behind;
            }
            Err(fault) => {
                return Ok(Avps {
                    avps,
                    rest,
                    fault: Some(fault),
                });
            }
        }
    }
    Ok(Avps {
        avps,
        rest: &[],
        fault: None,
    })
}
