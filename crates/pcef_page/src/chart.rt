//! Charts as SVG, with their labels in HTML beside them, so that these keep their size on a narrow screen.

ghost use Rattle.std.specs.Prelude.{◌≤◌};

use crate::axis::Axis;
use crate::sheet::Sheet;
use crate::ticks::{MOST_TICKS, push_tick, tick_above, tick_distance};

/// The width of a chart's field, in its own units: the number of its columns.
pub(crate) const WIDTH: u64 = 360;

/// The height of a chart's field.
pub(crate) const HEIGHT: u64 = 160;

/// The most series of a chart: more than that can't be told apart.
pub(crate) const MOST_SERIES: usize = 8;

/// The classes of series, which give them their colors.
const SERIES: [&str; MOST_SERIES] = ["s0", "s1", "s2", "s3", "s4", "s5", "s6", "s7"];

/// The class of a series of this number.
pub(crate) fn series(number: usize) -> &'static str {
    SERIES[number % MOST_SERIES]
}

/// How far a value goes of so much room, where the most goes all of it.
pub(crate) fn scale(value: u64, most: u64, room: u64) -> u64
    ensures { result ≤ room }
{
    let most = most.max(1);
    let part = match value.checked_mul(room) {
        Some(product) => product / most,
        None => value / (most / room.max(1)).max(1),
    };
    part.min(room)
}

/// What a chart shows.
#[derive(Clone, Copy)]
pub(crate) struct Chart<'a> {
    /// Its title.
    pub title: &'a str,
    /// The unit of what goes up.
    pub unit: &'a str,
    /// The most that goes up.
    pub most: u64,
    /// What goes along.
    pub axis: Axis<'a>,
}

impl<'a> Chart<'a> {
    /// How high a value stands in the field.
    pub(crate) fn height(&self, value: u64) -> u64
        ensures { result ≤ 160 }
    {
        scale(value, tick_above(self.most), HEIGHT)
    }

    /// Writes the grid.
    fn push_grid(&self, page: &mut Sheet) {
        page.raw("<path class=\"grid\" d=\"");
        self.axis.push_grid(page);
        let distance = tick_distance(self.most);
        for number in 1..=MOST_TICKS.saturating_add(1) {
            let value = distance.saturating_mul(number);
            if value <= tick_above(self.most) {
                page.raw("M0 ");
                page.number(HEIGHT - self.height(value));
                page.raw("H360");
            }
        }
        page.raw("\"/>");
    }

    /// Writes the labels of what goes up.
    fn push_labels(&self, page: &mut Sheet) {
        let distance = tick_distance(self.most);
        for number in 0..=MOST_TICKS.saturating_add(1) {
            let value = distance.saturating_mul(number);
            if value <= tick_above(self.most) {
                page.raw("<span class=\"y\" style=\"bottom:");
                page.percent(scale(value, tick_above(self.most), 1000));
                page.raw("\">");
                push_tick(page, value, distance);
                page.raw("</span>");
            }
        }
    }

    /// Begins the chart.
    pub(crate) fn begin(&self, page: &mut Sheet) {
        page.raw(
            "<figure><div class=\"plot\"><svg viewBox=\"0 0 360 160\" preserveAspectRatio=\"none\" role=\"img\">",
        );
        page.raw("<title>");
        page.text(self.title);
        page.raw("</title>");
        self.push_grid(page);
    }

    /// Ends the chart.
    pub(crate) fn end(&self, page: &mut Sheet) {
        page.raw("</svg><span class=\"unit\">");
        page.text(self.unit);
        page.raw("</span>");
        self.push_labels(page);
        self.axis.push_ticks(page);
        page.raw("</div><p class=\"along\">");
        page.raw(self.axis.name());
        page.raw("</p></figure>\n");
    }

    /// The part of the field's height from the foot to the sum of the foot and a value.
    pub(crate) fn bar(&self, page: &mut Sheet, x: u64, foot: u64, value: u64, class: &str) {
        let below = self.height(foot);
        let above = self.height(foot.saturating_add(value));
        page.raw("<rect class=\"");
        page.raw(class);
        page.attribute("x", x);
        page.attribute("y", HEIGHT - above);
        page.raw("\" width=\"5");
        page.attribute("height", above.saturating_sub(below));
        page.raw("\"/>");
    }
}

/// A line of steps that is being drawn: each value holds until the next. Of the values in one column of the field only
/// the highest, the lowest and the last are drawn, so a line has at most four parts for each column.
#[derive(Drop)]
pub(crate) struct Trace {
    /// The column.
    column: u64,
    /// How high the line stood before the column.
    before: u64,
    /// How high it stands at the lowest, at the highest and at the end of the column.
    lowest: u64,
    highest: u64,
    last: u64,
}

impl Trace {
    /// Begins a line at 0. Its classes are those of the page's style.
    pub(crate) fn begin(page: &mut Sheet, classes: &[&str]) -> Trace {
        page.raw("<path class=\"");
        for class in classes {
            page.raw(*class);
            page.raw(" ");
        }
        page.raw("\" d=\"M0 160");
        Trace {
            column: 0,
            before: 0,
            lowest: 0,
            highest: 0,
            last: 0,
        }
    }

    /// Draws the line up or down to a height.
    fn push_height(page: &mut Sheet, height: u64) {
        page.raw("V");
        page.number(HEIGHT.saturating_sub(height));
    }

    /// Draws the line in its column.
    fn push_column(&self, page: &mut Sheet) {
        if self.highest > self.before.max(self.last) {
            Trace::push_height(page, self.highest);
        }
        if self.lowest < self.before.min(self.last) {
            Trace::push_height(page, self.lowest);
        }
        if self.last != self.before || self.highest > self.lowest {
            Trace::push_height(page, self.last);
        }
    }

    /// From this line or generation on the line has this value.
    pub(crate) fn step(&mut self, page: &mut Sheet, chart: &Chart<'_>, number: u64, value: u64) {
        let column = chart.axis.part(number, WIDTH);
        self.step_at(page, column, chart.height(value));
    }

    /// From this column on the line has this height.
    pub(crate) fn step_at(&mut self, page: &mut Sheet, column: u64, height: u64) {
        if column > self.column {
            self.push_column(page);
            page.raw("H");
            page.number(column);
            self.column = column;
            self.before = self.last;
            self.lowest = self.last;
            self.highest = self.last;
        }
        self.lowest = self.lowest.min(height);
        self.highest = self.highest.max(height);
        self.last = height;
    }

    /// Ends the line at the end of the field.
    pub(crate) fn end(&self, page: &mut Sheet) {
        self.push_column(page);
        page.raw("H360\"/>");
    }
}

/// Begins an entry of the legend of a series. Its text stands behind, and then `</span>`.
pub(crate) fn mark(page: &mut Sheet, class: &str) {
    page.raw("<span class=\"key\"><i class=\"");
    page.raw(class);
    page.raw("\"></i>");
}
