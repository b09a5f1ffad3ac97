//! Writes what was found.

use crate::check::advice::{advice_on, field_on};
use pcef_built_in::ShapedCatalog;
use pcef_catalog::Offers;
use pcef_explain::{Explanation, explain, explain_field, explain_rule_name};
use pcef_model::Refusal;
use pcef_script::{Finding, Found};
use std::alloc::{AllocError, Global};
use std::io::{self, Write};

/// The advice on a line that isn't at fault, beside what was found in it.
fn advice_for(
    alloc: Global,
    catalog: &ShapedCatalog,
    line: &[u8],
    found: Found,
) -> Result<Option<Explanation>, AllocError> {
    if let Found::Command(Refusal::UnknownRule) = found {
        let mut predefined = Vec::new(alloc);
        for offer in catalog.listing().offers() {
            predefined.push(offer.properties.name.as_str())?;
        }
        return Ok(Some(explain_rule_name(alloc, line, predefined.as_slice())?));
    }
    match (advice_on(found), field_on(found)) {
        (Some(advice), Some(field)) => Ok(Some(explain_field(alloc, line, field, advice)?)),
        (Some(advice), None) => Ok(Some(Explanation {
            column: None,
            text: String::from_str(alloc, advice)?,
        })),
        (None, _) => Ok(None),
    }
}

/// The explanation of a line, beside its answer.
fn explanation_of(
    alloc: Global,
    catalog: &ShapedCatalog,
    line: &[u8],
    found: Found,
) -> Result<Explanation, AllocError> {
    if let Found::Fault(fault) = found {
        return explain(alloc, line, fault);
    }
    match advice_for(alloc, catalog, line, found)? {
        Some(Explanation { column, text }) => Ok(Explanation {
            column,
            text: format!(in alloc; "{found}: {text}")?,
        }),
        None => Ok(Explanation {
            column: None,
            text: format!(in alloc; "{found}")?,
        }),
    }
}

/// Writes what was found in a line of a file.
fn write_finding<W: Write>(
    alloc: Global,
    writer: &mut W,
    catalog: &ShapedCatalog,
    file: &str,
    line: &[u8],
    finding: &Finding,
) -> io::Result<()> {
    let number = finding.line;
    let answer = finding.answer.as_str();
    let explanation = explanation_of(alloc, catalog, line, finding.found)?;
    let text = explanation.text.as_str();
    match explanation.column {
        Some(column) => writeln!(writer, "{file}:{number}:{column}: {answer} {text}"),
        None => writeln!(writer, "{file}:{number}: {answer} {text}"),
    }
}

/// Writes what was found in the lines of a file: for each, its number, its column where that is known, and the answer
/// of a script.
pub(crate) fn write_findings<W: Write>(
    alloc: Global,
    writer: &mut W,
    catalog: &ShapedCatalog,
    file: &str,
    input: &[u8],
    findings: &[Finding],
) -> io::Result<()> {
    let mut findings = findings.iter();
    let mut next = findings.next();
    for (before, line) in input.split(|octet| *octet == b'\n').enumerate() {
        let Some(finding) = next else {
            break;
        };
        if finding.line == (before as u64).saturating_add(1) {
            write_finding(alloc, writer, catalog, file, line, finding)?;
            next = findings.next();
        }
    }
    Ok(())
}
