//! Writing AVPs of Gx.

ghost use Rattle.std.specs.Prelude.{◌≡◌, ◌<◌, ◌≤◌, ◌+◌, ◌++◌, ◌^◌, OnErr, OnOk, length, vec_capacity};
ghost use Rattle.pcef_diameter.specs.Avps.{shown};
ghost use Rattle.pcef_diameter.specs.Spellings.{avp_len, avp_octets, avps_octets};
ghost use Rattle.pcef_gx.specs.Writing.{avp_of, is_mandatory, name_code, number_avp, report_avp, report_parts, report_room, status_number, usage_avp};

use crate::code::{
    CC_TOTAL_OCTETS, CHARGING_RULE_BASE_NAME, CHARGING_RULE_NAME, CHARGING_RULE_REPORT, Code,
    MONITORING_KEY, PCC_RULE_STATUS, RULE_FAILURE_CODE, THREE_GPP, USAGE_MONITORING_INFORMATION,
    USED_SERVICE_UNIT,
};
use crate::failure::RuleFailure;
use crate::order::NameOf;
use pcef_diameter::{Avp, put_avp};
use std::alloc::{AllocError, Global};

/// Whether a sender marks an AVP of this code as mandatory.
fn is_mandatory(code: Code) -> bool
    ensures { result ≡ is_mandatory code }
{
    code.vendor != THREE_GPP || !matches!(code.number, 1032 | 1049 | 1058 | 1066..=1070 | 1080)
}

/// The AVP of this code and data.
#[tactic(auto, unfolding(crate::specs::Writing::avp_of), using(crate::proofs::Lengths::header_most))]
fn avp_of(code: Code, octets: &[u8]) -> Avp
    ensures avp { shown result ≡ avp_of code octets.now }
    ensures len { avp_len (shown result) ≤ length octets.now + 12 }
    ensures octets { result.octets.now ≡ octets.now }
{
    Avp {
        code: code.number,
        vendor: if code.vendor == 0 {
            None
        } else {
            Some(code.vendor)
        },
        mandatory: is_mandatory(code),
        protected: false,
        octets,
    }
}

/// Writes an AVP of this code and data behind others. Takes memory where there is no room for 15 octets beside the data;
/// an `Err` is want of it, and leaves the octets as they were.
pub fn put_octets(out: &mut Vec<u8>, code: Code, octets: &[u8]) -> Result<(), AllocError>
    requires { length octets.now + 12 < 2 ^ 24 }
    ensures written { OnOk result (out.new.items ≡ out.old.items ++ avp_octets (avp_of code octets.now)) }
    ensures kept { OnErr result (out.new.items ≡ out.old.items) }
    ensures room { OnOk result (length out.new.items ≤ length out.old.items + length octets.now + 15) }
    ensures capacity { vec_capacity out.old ≤ vec_capacity out.new }
    ensures full { OnErr result (vec_capacity out.old < length out.old.items + length octets.now + 15) }
{
    put_avp(out, &avp_of(code, octets))
}

/// Writes an AVP of this code and data behind others, where there is room for 15 octets beside the data. Takes no
/// memory.
pub fn put_octets_reserved(out: &mut Vec<u8>, code: Code, octets: &[u8])
    requires len { length octets.now + 12 < 2 ^ 24 }
    requires room { length out.old.items + length octets.now + 15 ≤ vec_capacity out.old }
    ensures written { out.new.items ≡ out.old.items ++ avp_octets (avp_of code octets.now) }
    ensures room { length out.new.items ≤ length out.old.items + length octets.now + 15 }
    ensures capacity { vec_capacity out.old ≤ vec_capacity out.new }
{
    match put_octets(out, code, octets) {
        Ok(()) => {}
        Err(_) => unreachable!(),
    }
}

/// Writes an AVP of this code and number behind others. Takes memory; an `Err` is want of it, and leaves the octets as
/// they were.
pub fn put_number(out: &mut Vec<u8>, code: Code, number: u32) -> Result<(), AllocError>
    ensures written { OnOk result (out.new.items ≡ out.old.items ++ avp_octets (number_avp code number)) }
    ensures kept { OnErr result (out.new.items ≡ out.old.items) }
    ensures room { OnOk result (length out.new.items ≤ length out.old.items + 19) }
{
    put_octets(out, code, &number.to_be_bytes())
}

/// Writes an AVP of this code and number behind others, where there is room for 19 octets. Takes no memory.
pub fn put_number_reserved(out: &mut Vec<u8>, code: Code, number: u32)
    requires { length out.old.items + 19 ≤ vec_capacity out.old }
    ensures written { out.new.items ≡ out.old.items ++ avp_octets (number_avp code number) }
    ensures room { length out.new.items ≤ length out.old.items + 19 }
    ensures capacity { vec_capacity out.old ≤ vec_capacity out.new }
{
    put_octets_reserved(out, code, &number.to_be_bytes());
}

/// Whether a rule is active (TS 29.212, clause 5.3.19, PCC-Rule-Status).
#[derive(Clone, Copy, Debug, PartialEq, Eq)]
pub enum RuleStatus {
    /// It is: a change was refused, and the rule stays as it was.
    Active,
    /// It isn't.
    Inactive,
}

impl RuleStatus {
    /// The PCC-Rule-Status. Takes no memory.
    pub fn number(self) -> u32
        ensures { result ≡ status_number self }
    {
        match self {
            RuleStatus::Active => 0,
            RuleStatus::Inactive => 1,
        }
    }
}

/// What became of a rule that couldn't be had (TS 29.212, clause 5.3.18, Charging-Rule-Report).
#[derive(Clone, Copy, Debug)]
pub struct RuleReport<'a> {
    /// The name, as it stood in the message.
    pub name: &'a [u8],
    /// What it is the name of.
    pub of: NameOf,
    /// Whether the rule is active.
    pub status: RuleStatus,
    /// Why it couldn't be had.
    pub failure: RuleFailure,
}

fn name_code(of: NameOf) -> Code
    ensures { result ≡ name_code of }
{
    match of {
        NameOf::Rule => CHARGING_RULE_NAME,
        NameOf::Base => CHARGING_RULE_BASE_NAME,
    }
}

/// Writes what a Charging-Rule-Report has in place of what was there.
fn put_report_parts(parts: &mut Vec<u8>, report: &RuleReport)
    requires name { length report.now.name.now ≤ 65536 }
    requires room { report_room report.now ≤ vec_capacity parts.old }
    ensures written { parts.new.items ≡ avps_octets (report_parts report.now) }
    ensures len { length parts.new.items + 15 ≤ report_room report.now }
    ensures capacity { vec_capacity parts.old ≤ vec_capacity parts.new }
{
    parts.clear();
    put_octets_reserved(parts, name_code(report.of), report.name);
    put_number_reserved(parts, PCC_RULE_STATUS, report.status.number());
    put_number_reserved(parts, RULE_FAILURE_CODE, report.failure.code());
}

/// Writes the Charging-Rule-Report of a rule behind others; what it has is put together in `parts`, in place of what was
/// there. Its name has at most 65,536 octets, and both lists have room for 68 octets beside it. Takes no memory.
pub fn put_rule_report(parts: &mut Vec<u8>, out: &mut Vec<u8>, report: &RuleReport)
    requires name { length report.now.name.now ≤ 65536 }
    requires parts { report_room report.now ≤ vec_capacity parts.old }
    requires room { length out.old.items + report_room report.now ≤ vec_capacity out.old }
    ensures written { out.new.items ≡ out.old.items ++ avp_octets (report_avp report.now) }
    ensures room { length out.new.items ≤ length out.old.items + report_room report.now }
    ensures capacity { vec_capacity out.old ≤ vec_capacity out.new }
    ensures parts { vec_capacity parts.old ≤ vec_capacity parts.new }
{
    put_report_parts(parts, report);
    put_octets_reserved(out, CHARGING_RULE_REPORT, parts);
}

/// Writes the Usage-Monitoring-Information of octets that a key counted behind others: those of both directions
/// together. The key has at most 65,536 octets. Takes memory; an `Err` is want of it, and leaves the octets as they were.
pub fn put_usage(
    alloc: Global,
    out: &mut Vec<u8>,
    key: &[u8],
    octets: u64,
) -> Result<(), AllocError>
    requires { length key.now ≤ 65536 }
    ensures written { OnOk result (out.new.items ≡ out.old.items ++ avp_octets (usage_avp key.now octets)) }
    ensures kept { OnErr result (out.new.items ≡ out.old.items) }
{
    let mut unit = Vec::new(alloc);
    put_octets(&mut unit, CC_TOTAL_OCTETS, &octets.to_be_bytes())?;
    let mut parts = Vec::new(alloc);
    put_octets(&mut parts, MONITORING_KEY, key)?;
    put_octets(&mut parts, USED_SERVICE_UNIT, &unit)?;
    put_octets(out, USAGE_MONITORING_INFORMATION, &parts)
}
