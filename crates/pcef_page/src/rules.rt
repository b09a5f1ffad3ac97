//! The rules in the page.

use crate::names::ByName;
use crate::sheet::Sheet;
use crate::{Count, Figures, Judged, Sums, sum_of, sums_by_rule};
use std::alloc::{AllocError, Global};

/// The front of the table of rules.
const RULES: &str =
    "<div class=\"wide\"><table><tr><th>Rule</th><th>Bearer</th><th>Packets up</th><th>Octets up</th>\
<th>Packets down</th><th>Octets down</th><th>Gated packets</th></tr>\n";

/// What is counted, in the order of the columns.
const COUNTS: [Count; 5] = [
    Count::PacketsUp,
    Count::OctetsUp,
    Count::PacketsDown,
    Count::OctetsDown,
    Count::Gated,
];

/// The most rows of a table.
pub(crate) const MOST_ROWS: usize = 200;

/// The most bearers that a rule is shown with: a session has at most these (TS 24.007, clause 11.2.3.1.5).
const MOST_BEARERS: usize = 11;

/// The bearers on which packets passed by a rule, in the order in which they come.
type Bearers = Vec<u64>;

/// Notes the bearer of a packet.
fn take_bearer(bearers: &mut Bearers, judged: &Judged) -> Result<(), AllocError> {
    if let Some(bearer) = judged.bearer {
        if bearers.len() < MOST_BEARERS && !bearers.contains(&bearer) {
            bearers.push(bearer)?;
        }
    }
    Ok(())
}

/// The rules that decided a packet, with their bearers.
fn rules_of<'a>(
    alloc: Global,
    figures: &'a Figures,
) -> Result<ByName<&'a str, Bearers>, AllocError> {
    let mut rules = ByName::new(alloc);
    for judged in &figures.judged {
        let rule = judged.rule.as_str();
        if !rule.is_empty() {
            rules.begin(rule, Vec::new(alloc))?;
            if let Some(bearers) = rules.get(rule) {
                take_bearer(bearers, judged)?;
            }
        }
    }
    Ok(rules)
}

/// A number, or that it is too large.
pub(crate) fn push_sum(page: &mut Sheet, sum: Option<u64>) {
    match sum {
        Some(sum) => page.count(sum),
        None => page.raw("2^64 or more"),
    }
}

/// Adds the bearers of a rule.
fn push_bearers(page: &mut Sheet, bearers: &[u64]) {
    for (place, bearer) in bearers.iter().enumerate() {
        if place > 0 {
            page.raw(", ");
        }
        page.number(*bearer);
    }
}

/// Adds a row of the table.
fn push_row<'a>(page: &mut Sheet, rule: &'a str, bearers: &[u64], sums: &[Sums<'a>]) {
    page.raw("<tr><td>");
    page.text(rule);
    page.raw("</td><td>");
    push_bearers(page, bearers);
    for sum in sums {
        page.raw("</td><td>");
        push_sum(page, sum_of(sum, rule));
    }
    page.raw("</td></tr>\n");
}

/// Says how many rows of a table are left out.
pub(crate) fn push_more(page: &mut Sheet, rows: usize) {
    let more = rows.saturating_sub(MOST_ROWS);
    if more > 0 {
        page.raw("<p class=\"note\">And ");
        page.count(more as u64);
        page.raw(" more.</p>\n");
    }
}

/// The sums of each column, by rule.
fn sums_of<'a>(alloc: Global, figures: &'a Figures) -> Result<Vec<Sums<'a>>, AllocError> {
    let mut sums = Vec::new(alloc);
    for count in &COUNTS {
        sums.push(sums_by_rule(alloc, figures.judged.as_slice(), *count)?)?;
    }
    Ok(sums)
}

/// Adds the table of the rules that decided a packet.
fn push_table<'a>(page: &mut Sheet, rules: &[(&'a str, Bearers)], sums: &[Sums<'a>]) {
    page.raw(RULES);
    for (rule, bearers) in rules.iter().take(MOST_ROWS) {
        push_row(page, rule, bearers.as_slice(), sums);
    }
    page.raw("</table></div>\n");
    push_more(page, rules.len());
}

/// Adds the packets and octets of each rule, each way. Takes memory.
pub(crate) fn push_rules(
    alloc: Global,
    page: &mut Sheet,
    figures: &Figures,
) -> Result<(), AllocError> {
    page.raw("<h2>Rules</h2>\n");
    let rules = rules_of(alloc, figures)?;
    if rules.entries().is_empty() {
        page.raw("<p>No rule decided a packet.</p>\n");
        return Ok(());
    }
    let sums = sums_of(alloc, figures)?;
    push_table(page, rules.entries(), sums.as_slice());
    Ok(())
}
