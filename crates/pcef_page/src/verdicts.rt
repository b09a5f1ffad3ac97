//! The verdicts in the page.

ghost use Rattle.std.specs.Prelude.{◌<◌};

use crate::axis::Axis;
use crate::chart::{Chart, WIDTH, mark};
use crate::sheet::Sheet;
use crate::{Figures, Judged, Verdict};

/// How many bars the verdicts have.
const BARS: usize = 60;

/// The columns of the field that a bar has.
const BAR: u64 = WIDTH / 60;

/// The verdicts in the order of their bars, each with the class that gives it its color, and what it says.
const VERDICTS: &[(Verdict, &str, &str)] = &[
    (Verdict::Passed, "v0", "passed by a rule"),
    (Verdict::Gated, "v1", "the gate of its rule is closed"),
    (Verdict::Unmatched, "v2", "no rule fits"),
    (Verdict::Stray, "v3", "not of this address"),
];

/// The bar of the line that took a packet.
fn bar_of(axis: &Axis<'_>, judged: &Judged) -> usize
    ensures { result < BARS }
{
    let place = axis.part(judged.packet.line, 59) as usize;
    place.min(BARS - 1)
}

/// How many verdicts of one kind each bar has.
fn counts_of(figures: &Figures, axis: &Axis<'_>, verdict: Verdict) -> [u64; BARS] {
    let mut counts = [0u64; BARS];
    for judged in &figures.judged {
        if judged.verdict == verdict {
            let count = &mut counts[bar_of(axis, judged)];
            *count = count.saturating_add(1);
        }
    }
    counts
}

/// How many packets the highest bar has, at least 1.
fn highest(figures: &Figures, axis: &Axis<'_>) -> u64 {
    let mut sums = [0u64; BARS];
    for judged in &figures.judged {
        let sum = &mut sums[bar_of(axis, judged)];
        *sum = sum.saturating_add(1);
    }
    let mut most = 1;
    for sum in &sums {
        most = (*sum).max(most);
    }
    most
}

/// Adds the bars of a verdict on the feet that the others left.
fn push_bars(
    page: &mut Sheet,
    chart: &Chart<'_>,
    counts: &[u64; BARS],
    feet: &mut [u64; BARS],
    class: &str,
) {
    for number in 0..BARS {
        if counts[number] > 0 {
            chart.bar(
                page,
                number as u64 * BAR,
                feet[number],
                counts[number],
                class,
            );
            feet[number] = feet[number].saturating_add(counts[number]);
        }
    }
}

/// Adds the chart of the verdicts.
fn push_chart(page: &mut Sheet, figures: &Figures, axis: Axis<'_>) {
    let chart = Chart {
        title: "How many packets have which verdict",
        unit: "packets",
        most: highest(figures, &axis),
        axis,
    };
    chart.begin(page);
    let mut feet = [0u64; BARS];
    for (verdict, class, _) in VERDICTS {
        let counts = counts_of(figures, &axis, *verdict);
        push_bars(page, &chart, &counts, &mut feet, class);
    }
    chart.end(page);
}

/// How many packets have a verdict.
pub(crate) fn count_of(figures: &Figures, verdict: Verdict) -> usize {
    figures
        .judged
        .iter()
        .filter(|judged| judged.verdict == verdict)
        .count()
}

/// Adds the verdicts on packets where these were taken, and how many packets have which.
pub(crate) fn push_verdicts(page: &mut Sheet, figures: &Figures, axis: Axis<'_>) {
    page.raw("<h2>Verdicts on packets, where they were taken</h2>\n");
    if figures.judged.is_empty() {
        page.raw("<p>No packet has a verdict.</p>\n");
        return;
    }
    push_chart(page, figures, axis);
    page.raw("<p>");
    for (verdict, class, about) in VERDICTS {
        mark(page, class);
        page.raw(verdict.text());
        page.raw(" ");
        page.count(count_of(figures, *verdict) as u64);
        page.raw(" (");
        page.raw(about);
        page.raw(")</span>");
    }
    page.raw("</p>\n");
}
