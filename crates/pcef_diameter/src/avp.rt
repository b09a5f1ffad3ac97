//! One AVP.

ghost use Rattle.std.specs.Prelude.{◌≡◌, ◌<◌, ◌≤◌, ◌^◌, true, ◌-◌, IfErr, IfOk, None, Some, drop, length, take, if◌then◌else◌};
ghost use Rattle.pcef_diameter.specs.Avps.{avp_at, avp_fault, behind_avp, header_at, header_len, len_at, padded, shown};
ghost use Rattle.pcef_diameter.specs.Numbers.{word_at};
ghost use Rattle.pcef_diameter.specs.Spellings.{avp_len};

use crate::fault::AvpFault;
use crate::number::word_at;

/// An AVP (RFC 6733, clause 4.1). The data of a Grouped one are AVPs again, for `read_avps`.
#[derive(Clone, Copy, Debug, PartialEq, Eq)]
pub struct Avp<'a> {
    /// The AVP Code, within the numbers of the vendor.
    pub code: u32,
    /// The Vendor-ID, where the V bit is set: 10415 is 3GPP's. None or 0 are the IETF.
    pub vendor: Option<u32>,
    /// The M bit: a receiver that doesn't know the AVP refuses the message.
    pub mandatory: bool,
    /// The P bit, once meant for security between ends; a sender leaves it unset.
    pub protected: bool,
    /// The data, without the padding.
    pub octets: &'a [u8],
}

/// The length of the header without a Vendor-ID, in octets.
const SHORT_HEADER: usize = 8;

/// The length of the header with a Vendor-ID, in octets.
const LONG_HEADER: usize = 12;

/// The length of the header by the V bit, in octets.
fn header_len(has_vendor: bool) -> usize
    ensures exact { result ≡ header_len has_vendor }
    ensures least { 8 ≤ result }
{
    if has_vendor {
        LONG_HEADER
    } else {
        SHORT_HEADER
    }
}

impl<'a> Avp<'a> {
    /// The AVP Length: the octets of the header and the data, without the padding. Takes no memory.
    pub fn len(&self) -> usize
        ensures { result ≡ avp_len (shown self.now) }
    {
        header_len(self.vendor.is_some()) + self.octets.len()
    }
}

/// The length with padding, in octets.
pub(crate) fn padded(len: usize) -> usize
    requires { len < 2 ^ 24 }
    ensures { result ≡ padded len }
{
    (len + 3) / 4 * 4
}

/// The Vendor-ID, where there is one.
fn vendor_at(has_vendor: bool, octets: &[u8]) -> Option<u32>
    requires { has_vendor ≡ true → 12 ≤ length octets.now }
    ensures { result ≡ if has_vendor then Some (word_at octets.now 8) else None }
{
    if has_vendor {
        Some(word_at(octets, 8))
    } else {
        None
    }
}

/// The first fault of the AVP at the front of the octets.
#[tactic(auto, unfolding(crate::specs::Avps::avp_fault))]
fn first_fault(octets: &[u8]) -> Option<AvpFault>
    ensures fault { result ≡ avp_fault octets.now }
    ensures header { result ≡ None → header_at octets.now ≤ len_at octets.now }
    ensures whole { result ≡ None → padded (len_at octets.now) ≤ length octets.now }
{
    if octets.len() < SHORT_HEADER {
        return Some(AvpFault::Cut);
    }
    let word = word_at(octets, 4);
    let flags = word >> 24;
    if flags & 0x1f != 0 {
        return Some(AvpFault::Bits);
    }
    let header = header_len(flags >> 7 == 1);
    if octets.len() < header {
        return Some(AvpFault::Cut);
    }
    let len = (word & 0xff_ffff) as usize;
    if len < header || octets.len() < padded(len) {
        return Some(AvpFault::Length);
    }
    None
}

/// The data behind a header, up to this length.
fn data_at(octets: &[u8], header: usize, len: usize) -> &[u8]
    requires front { header ≤ len }
    requires whole { len ≤ length octets.now }
    ensures { result.now ≡ take (len - header) (drop header octets.now) }
{
    octets.split_at(header).1.split_at(len - header).0
}

/// The octets behind an AVP of this length and its padding.
fn behind_len(octets: &[u8], len: usize) -> &[u8]
    requires header { 8 ≤ len }
    requires limit { len < 2 ^ 24 }
    requires whole { padded len ≤ length octets.now }
    ensures behind { result.now ≡ drop (padded len) octets.now }
    ensures shorter { length result.now < length octets.now }
{
    octets.split_at(padded(len)).1
}

/// The AVP at the front of the octets, which has no fault, and the octets behind it.
#[tactic(auto, unfolding(crate::specs::Avps::avp_at, crate::specs::Avps::behind_avp))]
fn whole_avp(octets: &[u8]) -> (Avp, &[u8])
    requires header { header_at octets.now ≤ len_at octets.now }
    requires whole { padded (len_at octets.now) ≤ length octets.now }
    ensures avp { shown result.0 ≡ avp_at octets.now }
    ensures behind { result.1.now ≡ behind_avp octets.now }
    ensures shorter { length result.1.now < length octets.now }
{
    let word = word_at(octets, 4);
    let flags = word >> 24;
    let has_vendor = flags >> 7 == 1;
    let header = header_len(has_vendor);
    let len = (word & 0xff_ffff) as usize;
    let avp = Avp {
        code: word_at(octets, 0),
        vendor: vendor_at(has_vendor, octets),
        mandatory: (flags >> 6) & 1 == 1,
        protected: (flags >> 5) & 1 == 1,
        octets: data_at(octets, header, len),
    };
    (avp, behind_len(octets, len))
}

/// The AVP at the front of the octets, and the octets behind its padding, whatever that holds. Of several faults the
/// first is answered: `Cut` where there are fewer than 8 octets, `Bits`, `Cut` where the Vendor-ID isn't whole, or
/// `Length`. The AVP borrows the octets. Takes no memory.
pub fn read_avp(octets: &[u8]) -> Result<(Avp, &[u8]), AvpFault>
    ensures fault { IfErr result (λ fault. avp_fault octets.now ≡ Some fault) }
    ensures no_fault { IfOk result (λ found. avp_fault octets.now ≡ None) }
    ensures avp { IfOk result (λ found. shown found.0 ≡ avp_at octets.now) }
    ensures behind { IfOk result (λ found. found.1.now ≡ behind_avp octets.now) }
    ensures shorter { IfOk result (λ found. length found.1.now < length octets.now) }
{
    match first_fault(octets) {
        Some(fault) => Err(fault),
        None => Ok(whole_avp(octets)),
    }
}
