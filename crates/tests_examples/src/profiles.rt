//! Reads profiles.

use crate::addresses::write_address;
use pcef_model::Profile;
use pcef_profile::{ReadProfileFault, read_profile};
use pcef_rule::{Kind, Qci, QciTable};
use std::alloc::{AllocError, Global};
use std::fmt::Write;

/// Writes the kinds of the QCIs from 0 to 255, a letter each: `G` with a guaranteed bit rate, `N` without, `-` for
/// none.
fn write_kinds(text: &mut String, qcis: &QciTable) -> Result<(), AllocError> {
    for qci in 0..=u8::MAX {
        text.push(match qcis.kind_of(Qci(qci)) {
            Some(Kind::Gbr) => 'G',
            Some(Kind::NonGbr) => 'N',
            None => '-',
        })?;
    }
    Ok(())
}

fn write_values(text: &mut String, profile: &Profile) -> Result<(), AllocError> {
    text.push_str("ue ")?;
    write_address(text, profile.ue)?;
    write!(
        text,
        " rows {} commands {} {:?} {:?} kinds ",
        profile.rows, profile.commands, profile.default_qos, profile.capacity
    )?;
    write_kinds(text, &profile.qcis)
}

/// Writes the number, the name and the text of a fault.
pub fn write_profile_fault(text: &mut String, fault: ReadProfileFault) -> Result<(), AllocError> {
    write!(text, "fault {} {}: {fault}", fault.number(), fault.name())
}

/// Writes what a profile is read as.
fn write_reading(alloc: Global, profile: &str, text: &mut String) -> Result<(), AllocError> {
    match read_profile(alloc, profile) {
        Ok(profile) => write_values(text, &profile),
        Err(fault) => write_profile_fault(text, fault),
    }
}

/// The first line, and below it what the profile behind it is read as.
fn write_profile(alloc: Global, entry: &str, text: &mut String) -> Result<(), AllocError> {
    let (heading, profile) = entry.split_once('\n').unwrap_or((entry, ""));
    write!(text, "=== {heading}\n    ")?;
    write_reading(alloc, profile, text)?;
    text.push('\n')
}

/// The headings of the profiles of a file, and below each what its profile is read as.
pub fn write_profiles(alloc: Global, file: &str, text: &mut String) -> Result<(), AllocError> {
    for entry in file.split("\n=== ").skip(1) {
        write_profile(alloc, entry, text)?;
    }
    Ok(())
}
