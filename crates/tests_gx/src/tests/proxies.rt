//! What goes back of requests: Proxy-Infos, in hexadecimal, octets worked by another program (RFC 6733, clauses 4.1,
//! 6.2 and 6.7.2).

use super::hexadecimal::{is_hexadecimal_of, octets};
use super::repeated_rars::{ACTIVATE, FAULT_BETWEEN};
use super::{Case, expect_equal, first_wrong};
use pcef_diameter::HEADER_LEN;
use pcef_gx_messages::proxies_in;
use std::alloc::Global;

/// The two in `ACTIVATE`, in their order.
const BOTH: &str = "\
    0000011c40000030000001184000001972656c61792e6578616d706c652e6e6574000000000000214000000b0102\
    03000000011c4000003000000118400000196f746865722e6578616d706c652e6e65740000000000002140000009\
    78000000";

/// The first one alone.
const FIRST: &str = "\
    0000011c40000030000001184000001972656c61792e6578616d706c652e6e6574000000000000214000000b0102\
    0300";

/// An AVP of a vendor with the code of a Proxy-Info, then the second one, another AVP, and the first one.
const OF_A_VENDOR: &str = "\
    0000011cc0000028000028af000001184000001972656c61792e6578616d706c652e6e65740000000000011c4000\
    003000000118400000196f746865722e6578616d706c652e6e65740000000000002140000009780000000000011d\
    4000000c000000000000011c40000030000001184000001972656c61792e6578616d706c652e6e65740000000000\
    00214000000b01020300";

/// The second one and then the first one.
const TURNED: &str = "\
    0000011c4000003000000118400000196f746865722e6578616d706c652e6e657400000000000021400000097800\
    00000000011c40000030000001184000001972656c61792e6578616d706c652e6e6574000000000000214000000b\
    01020300";

/// A request, how many of its octets stand before its AVPs, and the Proxy-Infos among these.
struct Back(&'static str, usize, &'static str);

static BACKS: [Back; 4] = [
    Back(ACTIVATE, HEADER_LEN, BOTH),
    // Behind an AVP at fault there are none.
    Back(FAULT_BETWEEN, HEADER_LEN, FIRST),
    Back(OF_A_VENDOR, 0, TURNED),
    Back("", 0, ""),
];

/// The Proxy-Infos among AVPs; none of more than 65,536 octets.
fn proxies(alloc: Global, avps: &[u8]) -> Option<Vec<u8>> {
    if avps.len() > 65_536 {
        return None;
    }
    proxies_in(alloc, avps).ok()
}

impl Case for Back {
    fn is_due(&self, alloc: Global) -> bool {
        let request = octets(alloc, self.0);
        match proxies(alloc, request.get(self.1..).unwrap_or(&[])) {
            Some(back) => is_hexadecimal_of(&back, self.2),
            None => false,
        }
    }
}

#[test]
fn proxy_infos_go_back_in_their_order(rt: HostRuntime) {
    expect_equal(&rt, &first_wrong(rt.alloc(), &BACKS), &None);
}
