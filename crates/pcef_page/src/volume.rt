//! The octets in the page: those that passed, beside those that were reported.

ghost use Rattle.std.specs.Prelude.{◌<◌};

use crate::axis::Axis;
use crate::chart::{Chart, Trace, WIDTH, mark};
use crate::sheet::Sheet;
use crate::{Figures, Judged};

/// The columns of the chart.
const COLUMNS: usize = WIDTH as usize;

/// The column of the line that took a packet.
fn column_of(axis: &Axis<'_>, judged: &Judged) -> usize
    ensures { result < COLUMNS }
{
    let place = axis.part(judged.packet.line, 359) as usize;
    place.min(COLUMNS - 1)
}

/// The octets that passed, in each column.
fn passed(figures: &Figures, axis: &Axis<'_>) -> [u64; COLUMNS] {
    let mut octets = [0u64; COLUMNS];
    for judged in &figures.judged {
        if judged.bearer.is_some() {
            let sum = &mut octets[column_of(axis, judged)];
            *sum = sum.saturating_add(judged.packet.octets);
        }
    }
    octets
}

/// The sum of octets, 2^64 - 1 at most.
fn sum_of_columns(octets: &[u64; COLUMNS]) -> u64 {
    let mut sum = 0u64;
    for column in octets {
        sum = sum.saturating_add(*column);
    }
    sum
}

/// The octets of all reports of usage, 2^64 - 1 at most.
fn reported(figures: &Figures) -> u64 {
    let mut sum = 0u64;
    for report in &figures.usage {
        sum = sum.saturating_add(report.octets);
    }
    sum
}

/// Draws the octets that passed so far.
fn push_passed(page: &mut Sheet, chart: &Chart<'_>, octets: &[u64; COLUMNS]) {
    let mut trace = Trace::begin(page, &["s0"]);
    let mut sum = 0u64;
    for column in 0..COLUMNS {
        if octets[column] > 0 {
            sum = sum.saturating_add(octets[column]);
            trace.step_at(page, column as u64, chart.height(sum));
        }
    }
    trace.end(page);
}

/// Draws the octets that were reported so far.
fn push_reported(page: &mut Sheet, chart: &Chart<'_>, figures: &Figures) {
    let mut trace = Trace::begin(page, &["s1"]);
    let mut sum = 0u64;
    for report in &figures.usage {
        sum = sum.saturating_add(report.octets);
        trace.step(page, chart, report.line, sum);
    }
    trace.end(page);
}

/// Adds what a line of the chart stands for, with its sum.
fn push_entry(page: &mut Sheet, class: &str, name: &str, octets: u64) {
    mark(page, class);
    page.raw(name);
    page.raw(" ");
    page.count(octets);
    page.raw("</span>");
}

/// Adds the octets that passed, by the lines that took their packets, beside those of all reports of usage.
pub(crate) fn push_volume(page: &mut Sheet, figures: &Figures, axis: Axis<'_>) {
    page.raw("<h2>Octets that passed, beside those that were reported</h2>\n");
    let octets = passed(figures, &axis);
    let sum = sum_of_columns(&octets);
    if sum == 0 && figures.usage.is_empty() {
        page.raw("<p>No octet passed, and none was reported.</p>\n");
        return;
    }
    let chart = Chart {
        title: "Octets that passed, and octets that were reported",
        unit: "octets",
        most: sum.max(reported(figures)).max(1),
        axis,
    };
    chart.begin(page);
    push_passed(page, &chart, &octets);
    push_reported(page, &chart, figures);
    chart.end(page);
    page.raw("<p>");
    push_entry(page, "s0", "passed", sum);
    push_entry(page, "s1", "reported", reported(figures));
    page.raw("</p>\n");
}
