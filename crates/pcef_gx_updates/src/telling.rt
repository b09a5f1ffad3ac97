//! The AVP that tells a report.

ghost use Rattle.std.specs.Prelude.{◌≡◌, ◌≤◌, ◌++◌, IfOk, OnOk, length, map};
ghost use Rattle.pcef_diameter.specs.Spellings.{avp_octets, avps_octets};
ghost use Rattle.pcef_gx.specs.Names as names;
ghost use Rattle.pcef_gx.specs.Writing.{avp_of, usage_avp};
ghost use Rattle.pcef_gx_updates.specs.Updates.{access_code, access_number, gone_avp, gone_parts, report_told, told_avp};

use pcef_gx::code::{
    CHARGING_RULE_NAME, CHARGING_RULE_REPORT, Code, PCC_RULE_STATUS, RULE_FAILURE_CODE,
};
use pcef_gx::{RuleFailure, RuleStatus, THREE_GPP, octets_of, put_number, put_octets, put_usage};
use pcef_model::{AccessKind, Body, Report};
use pcef_rule::Name;
use std::alloc::{AllocError, Global};

/// The octets that a name stands for: at most 64.
#[tactic(auto, using(crate::proofs::Named::octets_few))]
fn octets_in<K>(alloc: Global, name: &Name<K>) -> Result<Vec<u8>, AllocError>
    ensures octets { IfOk result (λ octets. octets.items ≡ names.octets_of name.now) }
    ensures few { IfOk result (λ octets. length octets.items ≤ 64) }
{
    octets_of(alloc, name.as_str().as_bytes())
}

/// The code of an access event's AVP.
fn access_code(kind: AccessKind) -> Code
    ensures { result ≡ access_code kind }
{
    let number = match kind {
        AccessKind::RatChange => 1032,
        AccessKind::PlmnChange => 18,
        AccessKind::UserLocationChange => 22,
        AccessKind::UeTimeZoneChange => 23,
    };
    Code {
        vendor: THREE_GPP,
        number,
    }
}

/// Writes the Charging-Rule-Report of a rule that went with its bearer.
fn put_gone(alloc: Global, out: &mut Vec<u8>, name: &[u8]) -> Result<(), AllocError>
    requires { length name.now ≤ 64 }
    ensures { OnOk result (out.new.items ≡ out.old.items ++ avp_octets (gone_avp name.now)) }
{
    let mut parts = Vec::new(alloc);
    put_octets(&mut parts, CHARGING_RULE_NAME, name)?;
    put_number(&mut parts, PCC_RULE_STATUS, RuleStatus::Inactive.number())?;
    put_number(
        &mut parts,
        RULE_FAILURE_CODE,
        RuleFailure::ResourceAllocationFailure.code(),
    )?;
    put_octets(out, CHARGING_RULE_REPORT, &parts)
}

/// Writes the AVP that tells a report.
fn put_told(alloc: Global, out: &mut Vec<u8>, body: &Body) -> Result<(), AllocError>
    ensures { OnOk result (out.new.items ≡ out.old.items ++ avp_octets (told_avp body.now)) }
{
    match body {
        Body::Usage { key, octets, .. } => put_usage(alloc, out, &octets_in(alloc, key)?, *octets),
        Body::Access { kind, value } => {
            put_octets(out, access_code(*kind), &octets_in(alloc, value)?)
        }
        Body::Inactive { rule, .. } => put_gone(alloc, out, &octets_in(alloc, rule)?),
    }
}

/// Writes the AVPs that tell reports behind others.
pub(crate) fn put_reports(
    alloc: Global,
    out: &mut Vec<u8>,
    reports: &[Report],
) -> Result<(), AllocError>
    ensures { OnOk result (out.new.items
        ≡ out.old.items ++ avps_octets (map report_told reports.now)) }
{
    for report in reports {
        put_told(alloc, out, &report.body)?;
    }
    Ok(())
}
