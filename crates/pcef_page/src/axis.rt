//! The axis along which a session goes.

use crate::chart::{WIDTH, scale};
use crate::sheet::Sheet;
use crate::stamps::last_up_to;
use crate::ticks::{MOST_TICKS, push_seconds, push_tick, tick_distance};
use crate::{Figures, Stamp};

/// What goes along.
#[derive(Clone, Copy, PartialEq, Eq)]
enum Along {
    /// The number of the line.
    Line,
    /// The time of the last packet up to a line, in nanoseconds since the first packet.
    Time,
    /// The generation.
    Generation,
}

/// The axis along which a session goes.
#[derive(Clone, Copy)]
pub(crate) struct Axis<'a> {
    along: Along,
    /// The last place.
    end: u64,
    /// The times of the packets, in the order of their lines.
    stamps: &'a [Stamp],
    /// The time of the first packet.
    begin: u64,
}

/// The first and the last time.
pub(crate) fn bounds(stamps: &[Stamp]) -> (u64, u64) {
    let mut begin = u64::MAX;
    let mut end = 0u64;
    for stamp in stamps {
        begin = begin.min(stamp.nanoseconds);
        end = end.max(stamp.nanoseconds);
    }
    (begin, end)
}

impl<'a> Axis<'a> {
    /// The axis of the lines, or of the time where packets have times.
    pub(crate) fn of_lines(figures: &Figures, stamps: &'a [Stamp]) -> Axis<'a> {
        let (begin, end) = bounds(stamps);
        if stamps.is_empty() {
            Axis {
                along: Along::Line,
                end: figures.last.max(1),
                stamps,
                begin: 0,
            }
        } else {
            Axis {
                along: Along::Time,
                end: end.saturating_sub(begin).max(1),
                stamps,
                begin,
            }
        }
    }

    /// The axis of the generations, with room behind the newest.
    pub(crate) fn of_generations(figures: &Figures) -> Axis<'a> {
        Axis {
            along: Along::Generation,
            end: figures.generation.saturating_add(1),
            stamps: &[],
            begin: 0,
        }
    }

    /// The place of a line, or of a generation.
    fn place(&self, number: u64) -> u64 {
        if self.along != Along::Time {
            return number;
        }
        match last_up_to(self.stamps, number) {
            Some(stamp) => stamp.nanoseconds.saturating_sub(self.begin),
            None => 0,
        }
    }

    /// How far along a line or a generation stands, of so much room.
    pub(crate) fn part(&self, number: u64, room: u64) -> u64 {
        scale(self.place(number), self.end, room)
    }

    /// Writes the ticks and their labels.
    pub(crate) fn push_ticks(&self, page: &mut Sheet) {
        let distance = tick_distance(self.end);
        for number in 0..=MOST_TICKS {
            let value = distance.saturating_mul(number);
            if value <= self.end {
                page.raw("<span class=\"x\" style=\"left:");
                page.percent(scale(value, self.end, 1000));
                page.raw("\">");
                match self.along {
                    Along::Time => push_seconds(page, value, distance),
                    Along::Line | Along::Generation => push_tick(page, value, distance),
                }
                page.raw("</span>");
            }
        }
    }

    /// Writes the lines of the grid that go up.
    pub(crate) fn push_grid(&self, page: &mut Sheet) {
        let distance = tick_distance(self.end);
        for number in 1..=MOST_TICKS {
            let value = distance.saturating_mul(number);
            if value <= self.end {
                page.raw("M");
                page.number(scale(value, self.end, WIDTH));
                page.raw(" 0V160");
            }
        }
    }

    /// What goes along, in words.
    pub(crate) fn name(&self) -> &'static str {
        match self.along {
            Along::Line => "line of the script",
            Along::Time => "seconds since the first packet",
            Along::Generation => "generation",
        }
    }
}
