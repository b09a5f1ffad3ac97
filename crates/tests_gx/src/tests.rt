//! In the order of reading: `hexadecimal`; messages and their AVPs (`worked_messages`, `changed_messages`, `dissected`,
//! `dissecting`, `avp_lengths`, `written_again`); what they ask for (`asking`, `completing`, `names`); what is written
//! (`report_avps`, `sending`, `report_octets`, `updates`, `proxies`); a `node` for itself; and the dialogue (`playing`,
//! `rars`, `refused_rars`, `orders`, `repeated_rars`, `repeating`, `ccr_octets`, `ccrs`, `cca_octets`, `hearing`,
//! `granting`, `everything`, `changed_octets`, `scarce`); and sessions over one handle (`one_session`,
//! `used_up`, `handled`).

mod asking;
mod avp_lengths;
mod cca_octets;
mod ccr_octets;
mod ccrs;
mod changed_messages;
mod changed_octets;
mod completing;
mod dissected;
mod dissecting;
mod everything;
mod granting;
mod handled;
mod hearing;
mod hexadecimal;
mod names;
mod node;
mod one_session;
mod orders;
mod playing;
mod proxies;
mod rars;
mod refused_rars;
mod repeated_rars;
mod repeating;
mod report_avps;
mod report_octets;
mod scarce;
mod sending;
mod updates;
mod used_up;
mod worked_messages;
mod written_again;

use std::alloc::Global;
use std::fmt::Debug;
use std::process::Abort;

/// A case, with what is due of it. Tables of cases are gone over by one loop, which is proved once.
trait Case {
    /// Whether all is as is due. Takes memory, whose want is none of the cases.
    fn is_due(&self, alloc: Global) -> bool;
}

/// The first case that isn't as is due.
fn first_wrong<C: Case>(alloc: Global, cases: &[C]) -> Option<usize> {
    for (place, case) in cases.iter().enumerate() {
        if !case.is_due(alloc) {
            return Some(place);
        }
    }
    None
}

/// Expects what is due. It stands here once, for a comparison in each test takes longer to prove.
fn expect_equal<T: Debug + PartialEq>(rt: &impl Abort, found: &T, due: &T) {
    assert_eq!(rt; found, due);
}
