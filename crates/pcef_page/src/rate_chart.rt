//! The guaranteed rates of bearers in the page.

use crate::axis::Axis;
use crate::chart::{Chart, Trace, mark, series};
use crate::rules::{MOST_ROWS, push_more};
use crate::sheet::Sheet;
use crate::{Figures, Rates};

/// A direction of rates.
#[derive(Clone, Copy, PartialEq, Eq)]
enum Direction {
    Up,
    Down,
}

fn rate(rates: &Rates, direction: Direction) -> u64 {
    match direction {
        Direction::Up => rates.up,
        Direction::Down => rates.down,
    }
}

fn highest(figures: &Figures) -> u64 {
    let mut most = 1u64;
    for rates in &figures.rates {
        most = rates.up.max(rates.down).max(most);
    }
    most
}

/// The class of a bearer's lines: the ids of bearers begin at 5.
fn bearer_class(bearer: u64) -> &'static str {
    series(bearer.saturating_sub(5) as usize)
}

fn has_bearer(figures: &Figures, bearer: u64) -> bool {
    figures.rates.iter().any(|rates| rates.bearer == bearer)
}

/// Adds the line of a bearer in a direction: a step from each generation on in which its rates change.
fn push_line(
    page: &mut Sheet,
    chart: &Chart<'_>,
    figures: &Figures,
    bearer: u64,
    direction: Direction,
) {
    let style = if direction == Direction::Down {
        "far"
    } else {
        ""
    };
    let mut trace = Trace::begin(page, &[bearer_class(bearer), style]);
    for rates in &figures.rates {
        if rates.bearer == bearer {
            trace.step(page, chart, rates.generation, rate(rates, direction));
        }
    }
    trace.end(page);
}

/// Adds the chart of the guaranteed rates.
fn push_chart(page: &mut Sheet, figures: &Figures) {
    let chart = Chart {
        title: "Guaranteed rates of each bearer",
        unit: "bit/s",
        most: highest(figures),
        axis: Axis::of_generations(figures),
    };
    chart.begin(page);
    for bearer in 5u64..16 {
        if has_bearer(figures, bearer) {
            push_line(page, &chart, figures, bearer, Direction::Up);
            push_line(page, &chart, figures, bearer, Direction::Down);
        }
    }
    chart.end(page);
}

/// Adds what the lines of the chart stand for.
fn push_legend(page: &mut Sheet, figures: &Figures) {
    page.raw("<p>");
    for bearer in 5u64..16 {
        if has_bearer(figures, bearer) {
            mark(page, bearer_class(bearer));
            page.raw("bearer ");
            page.number(bearer);
            page.raw("</span>");
        }
    }
    page.raw("</p>\n<p class=\"note\">Uplink is a full line, downlink a dashed one.</p>\n");
}

/// Adds the guaranteed rates over the generations.
pub(crate) fn push_rates(page: &mut Sheet, figures: &Figures) {
    page.raw("<h2>Guaranteed rates over the generations</h2>\n");
    if figures.rates.is_empty() {
        page.raw("<p>No rule asks for guaranteed rates.</p>\n");
        return;
    }
    push_chart(page, figures);
    push_legend(page, figures);
    push_table(page, figures);
}

/// Adds a row of the table of the rates.
fn push_row(page: &mut Sheet, rates: &Rates) {
    page.raw("<tr><td>");
    page.count(rates.generation);
    for number in &[rates.bearer, rates.up, rates.down] {
        page.raw("</td><td>");
        page.count(*number);
    }
    page.raw("</td></tr>\n");
}

/// The front of the table of the rates.
const RATES: &str =
    "<div class=\"wide\"><table><tr><th>Generation</th><th>Bearer</th><th>Up, bit/s</th>\
<th>Down, bit/s</th></tr>\n";

/// Adds the table of the rates.
fn push_table(page: &mut Sheet, figures: &Figures) {
    page.raw(RATES);
    for rates in figures.rates.iter().take(MOST_ROWS) {
        push_row(page, rates);
    }
    page.raw("</table></div>\n");
    push_more(page, figures.rates.len());
}
