//! What tests share: a profile, and scripts on a catalog.

use pcef_catalog::Catalog;
use pcef_profile::read_profile;
use pcef_script::run_script;
use std::alloc::Global;
use std::sync::Arc;
use std::test::Fail;

/// A profile without fault, whose default bearer has QCI 9.
pub(crate) const PROFILE: &str =
    "ue = \"10.0.0.2\"\nrows = 1000\ncommands = 1000\n\n[default]\nqci = 9\nlevel = 8\ncapability = false\nvulnerability = true\n\n[capacity]\nup = 1000000\ndown = 2000000\n";

/// Lines, each ended by a line feed.
pub(crate) fn script_of(alloc: Global, lines: &[&str]) -> Result<String, Fail> {
    let mut script = String::new(alloc);
    for line in lines {
        script.push_str(*line)?;
        script.push('\n')?;
    }
    Ok(script)
}

/// What a script on a catalog answers, and how many of its lines are at fault.
pub(crate) fn run_on(
    alloc: Global,
    catalog: Arc<Catalog>,
    profile: &str,
    script: &str,
) -> Result<(String, u64), Fail> {
    let profile = read_profile(alloc, profile)?;
    let mut written = Vec::new(alloc);
    let faults = run_script(
        alloc,
        &mut script.as_bytes(),
        &mut written,
        profile,
        catalog,
    )?;
    Ok((String::from_utf8(written)?, faults))
}
