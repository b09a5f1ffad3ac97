//! What is written, as octets worked by hand (RFC 6733, clause 4.1).
use super::expect_equal;
use super::hexadecimal::is_hexadecimal_of;
use pcef_gx::{NameOf, RuleFailure, RuleReport, RuleStatus, put_rule_report, put_usage};
use std::alloc::Global;

/// Charging-Rule-Report {Charging-Rule-Name "voice", PCC-Rule-Status INACTIVE, Rule-Failure-Code 11}.
const REPORT: &str = "000003fac0000040000028af\
    000003edc0000011000028af766f696365000000\
    000003fbc0000010000028af00000001\
    00000407c0000010000028af0000000b";

/// Charging-Rule-Report {Charging-Rule-Base-Name "all", PCC-Rule-Status ACTIVE, Rule-Failure-Code 1}.
const BASE_REPORT: &str = "000003fac000003c000028af\
    000003ecc000000f000028af616c6c00\
    000003fbc0000010000028af00000000\
    00000407c0000010000028af00000001";

/// Usage-Monitoring-Information {Monitoring-Key "vid", Used-Service-Unit {CC-Total-Octets 5,000,000,000}}.
const USAGE: &str = "0000042b80000034000028af\
    0000042a8000000f000028af76696400\
    000001be40000018000001a540000010000000012a05f200";

static RULE: RuleReport = RuleReport {
    name: b"voice",
    of: NameOf::Rule,
    status: RuleStatus::Inactive,
    failure: RuleFailure::UnsuccessfulQosValidation,
};

static BASE: RuleReport = RuleReport {
    name: b"all",
    of: NameOf::Base,
    status: RuleStatus::Active,
    failure: RuleFailure::UnknownRuleName,
};

/// Whether a report is written so.
fn is_report(alloc: Global, report: &RuleReport, due: &str) -> bool {
    if report.name.len() > 65_536 {
        return false;
    }
    let room = report.name.len() + 68;
    match (
        Vec::with_capacity(alloc, room),
        Vec::with_capacity(alloc, room),
    ) {
        (Ok(mut parts), Ok(mut out)) => {
            put_rule_report(&mut parts, &mut out, report);
            is_hexadecimal_of(&out, due)
        }
        _ => false,
    }
}

/// Whether the usage of a key is written so.
fn is_usage(alloc: Global, due: &str) -> bool {
    let mut out = Vec::new(alloc);
    put_usage(alloc, &mut out, b"vid", 5_000_000_000).is_ok() && is_hexadecimal_of(&out, due)
}

#[test]
fn reports_are_written_as_octets(rt: HostRuntime) {
    let found = [
        is_report(rt.alloc(), &RULE, REPORT),
        is_report(rt.alloc(), &BASE, BASE_REPORT),
        is_usage(rt.alloc(), USAGE),
    ];
    expect_equal(&rt, &found, &[true; 3]);
}
