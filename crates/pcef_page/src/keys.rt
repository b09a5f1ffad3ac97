//! The monitoring keys in the page.

use crate::axis::Axis;
use crate::chart::{Chart, MOST_SERIES, Trace, mark, series};
use crate::names::ByName;
use crate::rules::{MOST_ROWS, push_more, push_sum};
use crate::sheet::Sheet;
use crate::{Figures, KeyState, Sums, octets_by_key, sum_of};
use std::alloc::{AllocError, Global};

/// The front of the table of keys.
const KEYS: &str =
    "<div class=\"wide\"><table><tr><th>Key</th><th>Grants</th><th>Reports</th><th>Octets reported</th>\
<th>Unreported, by the last show</th></tr>\n";

/// The front of the list of grants and reports.
const EVENTS: &str = "<details><summary>Grants and reports</summary>\n<div class=\"wide\"><table>\
<tr><th>Key</th><th>Line</th><th class=\"text\">What</th><th>Octets</th></tr>\n";

/// A grant of a key, or a report of its usage.
#[derive(Clone, Copy)]
pub(crate) struct Event<'a> {
    /// The number of its line.
    line: u64,
    /// The key.
    key: &'a str,
    /// The octets.
    octets: u64,
    /// Why it was reported, or none of a grant.
    cause: Option<&'a str>,
}

/// The grants and reports, in the order of their lines. A grant stands before the reports of its own line.
pub(crate) fn events_of<'a>(
    alloc: Global,
    figures: &'a Figures,
) -> Result<Vec<Event<'a>>, AllocError> {
    let (grants, reports) = (figures.grants.as_slice(), figures.usage.as_slice());
    let mut events = Vec::new(alloc);
    let (mut granted, mut reported) = (0usize, 0usize);
    for _ in 0..grants.len().saturating_add(reports.len()) {
        match (grants.get(granted), reports.get(reported)) {
            (grant, Some(report)) if grant.is_none_or(|grant| grant.line > report.line) => {
                events.push(Event {
                    line: report.line,
                    key: report.key.as_str(),
                    octets: report.octets,
                    cause: Some(report.cause.as_str()),
                })?;
                reported = reported.saturating_add(1);
            }
            (Some(grant), _) => {
                events.push(Event {
                    line: grant.line,
                    key: grant.key.as_str(),
                    octets: grant.octets,
                    cause: None,
                })?;
                granted = granted.saturating_add(1);
            }
            _ => {}
        }
    }
    Ok(events)
}

/// The figures of a key.
#[derive(Clone, Copy)]
pub(crate) struct Key<'a> {
    /// How many grants it has.
    grants: u64,
    /// How many reports it has.
    reports: u64,
    /// How it stands by the last `show`.
    state: Option<&'a KeyState>,
}

impl Key<'_> {
    const NONE: Key<'static> = Key {
        grants: 0,
        reports: 0,
        state: None,
    };
}

/// The keys, by their names.
pub(crate) type Keys<'a> = ByName<&'a str, Key<'a>>;

/// Counts the grants and reports of each key.
fn take_events<'a>(keys: &mut Keys<'a>, events: &[Event<'a>]) -> Result<(), AllocError> {
    for event in events {
        keys.begin(event.key, Key::NONE)?;
        if let Some(key) = keys.get(event.key) {
            let count = match event.cause {
                Some(_) => &mut key.reports,
                None => &mut key.grants,
            };
            *count = count.saturating_add(1);
        }
    }
    Ok(())
}

/// Takes the first state of each key.
fn take_states<'a>(keys: &mut Keys<'a>, states: &'a [KeyState]) {
    for state in states {
        if let Some(key) = keys.get(state.key.as_str()) {
            key.state = key.state.or(Some(state));
        }
    }
}

/// The keys that a grant or a report names, in the order in which they are named.
pub(crate) fn keys_of<'a>(
    alloc: Global,
    figures: &'a Figures,
    events: &[Event<'a>],
) -> Result<Keys<'a>, AllocError> {
    let mut keys = ByName::new(alloc);
    take_events(&mut keys, events)?;
    take_states(&mut keys, figures.keys.as_slice());
    Ok(keys)
}

/// Adds a row of the table of keys.
fn push_key(page: &mut Sheet, name: &str, key: &Key<'_>, octets: Option<u64>) {
    page.raw("<tr><td>");
    page.text(name);
    page.raw("</td><td>");
    page.count(key.grants);
    page.raw("</td><td>");
    page.count(key.reports);
    page.raw("</td><td>");
    push_sum(page, octets);
    page.raw("</td><td>");
    if let Some(state) = key.state {
        page.count(state.unreported);
        page.raw(if state.is_on { " (on)" } else { " (off)" });
    }
    page.raw("</td></tr>\n");
}

/// Adds a row of the list of grants and reports.
fn push_event(page: &mut Sheet, event: &Event<'_>) {
    page.raw("<tr><td>");
    page.text(event.key);
    page.raw("</td><td>");
    page.count(event.line);
    page.raw("</td><td class=\"text\">");
    page.text(event.cause.unwrap_or("grant"));
    page.raw("</td><td>");
    page.count(event.octets);
    page.raw("</td></tr>\n");
}

/// Adds the list of the first grants and reports.
fn push_events(page: &mut Sheet, events: &[Event<'_>]) {
    page.raw(EVENTS);
    for event in events.iter().take(MOST_ROWS) {
        push_event(page, event);
    }
    page.raw("</table></div>\n");
    push_more(page, events.len());
    page.raw("</details>\n");
}

/// How far a key has come: the octets that were reported, and those up to which its grant reaches.
#[derive(Clone, Copy)]
struct Reach {
    reported: u64,
    grant: Option<u64>,
}

impl Reach {
    const NONE: Reach = Reach {
        reported: 0,
        grant: None,
    };

    /// Behind an event. A grant is used up as it is reached; other reports begin it anew.
    fn behind(self, event: &Event<'_>) -> Reach {
        let Some(cause) = event.cause else {
            return Reach {
                grant: Some(event.octets),
                ..self
            };
        };
        Reach {
            reported: self.reported.saturating_add(event.octets),
            grant: if cause == "Requested" {
                self.grant
            } else {
                None
            },
        }
    }

    /// The octets at which the next report is due, or those that were reported where no grant is left.
    fn due(self) -> u64 {
        self.reported.saturating_add(self.grant.unwrap_or(0))
    }
}

/// The most octets at which a report of a key is due, at least 1.
fn highest(name: &str, events: &[Event<'_>]) -> u64 {
    let mut reach = Reach::NONE;
    let mut most = 1;
    for event in events {
        if event.key == name {
            reach = reach.behind(event);
            most = reach.due().max(most);
        }
    }
    most
}

/// Draws the octets of a key that were reported, or those at which the next report is due.
fn push_line(
    page: &mut Sheet,
    chart: &Chart<'_>,
    events: &[Event<'_>],
    name: &str,
    classes: &[&str],
    is_due: bool,
) {
    let mut trace = Trace::begin(page, classes);
    let mut reach = Reach::NONE;
    for event in events {
        if event.key == name {
            reach = reach.behind(event);
            let octets = if is_due { reach.due() } else { reach.reported };
            trace.step(page, chart, event.line, octets);
        }
    }
    trace.end(page);
}

/// Adds the chart of a key.
fn push_chart(page: &mut Sheet, number: usize, name: &str, events: &[Event<'_>], axis: Axis<'_>) {
    let chart = Chart {
        title: "Octets reported for a key, and how far its grant reaches",
        unit: "octets",
        most: highest(name, events),
        axis,
    };
    page.raw("<div><h3>");
    mark(page, series(number));
    page.text(name);
    page.raw("</span></h3>");
    chart.begin(page);
    push_line(page, &chart, events, name, &[series(number), "far"], true);
    push_line(page, &chart, events, name, &[series(number)], false);
    chart.end(page);
    page.raw("</div>");
}

/// What the lines of a chart are.
const ABOUT: &str =
    "<p class=\"note\">A full line is what was reported. A dashed one is how far the grant reaches: \
when the octets of the key come up to it, they are reported.";

/// Adds the charts of the first keys.
fn push_charts(page: &mut Sheet, keys: &[(&str, Key<'_>)], events: &[Event<'_>], axis: Axis<'_>) {
    page.raw(ABOUT);
    if keys.len() > MOST_SERIES {
        page.raw(" The first eight keys are drawn.");
    }
    page.raw("</p>\n<div class=\"charts\">");
    for (number, (name, _)) in keys.iter().take(MOST_SERIES).enumerate() {
        push_chart(page, number, name, events, axis);
    }
    page.raw("</div>\n");
}

/// Adds the table of the keys.
fn push_table<'a>(page: &mut Sheet, keys: &[(&'a str, Key<'a>)], octets: &Sums<'a>) {
    page.raw(KEYS);
    for (name, key) in keys.iter().take(MOST_ROWS) {
        push_key(page, name, key, sum_of(octets, *name));
    }
    page.raw("</table></div>\n");
    push_more(page, keys.len());
}

/// Adds the grants and reports of the monitoring keys, and a table of the keys. Takes memory.
pub(crate) fn push_keys(
    alloc: Global,
    page: &mut Sheet,
    figures: &Figures,
    axis: Axis<'_>,
) -> Result<(), AllocError> {
    page.raw("<h2>Monitoring keys</h2>\n");
    let events = events_of(alloc, figures)?;
    let keys = keys_of(alloc, figures, events.as_slice())?;
    let octets = octets_by_key(alloc, figures.usage.as_slice())?;
    let keys = keys.entries();
    if keys.is_empty() {
        page.raw("<p>No key has a grant or a report.</p>\n");
        return Ok(());
    }
    push_charts(page, keys, events.as_slice(), axis);
    push_table(page, keys, &octets);
    push_events(page, events.as_slice());
    Ok(())
}
