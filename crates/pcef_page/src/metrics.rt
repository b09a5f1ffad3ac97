//! Metrics: OpenMetrics text (version 1.0.0), or the text format of Prometheus (version 0.0.4).

ghost use Rattle.std.specs.Prelude.{◌≡◌, ◌++◌, OnOk, string_bytes};
ghost use Rattle.pcef_page.specs.Labels.{label_character, label_of};

use crate::keys::{Key, events_of, keys_of};
use crate::names::ByName;
use crate::sheet::Sheet;
use crate::stamps::push_time;
use crate::{Count, Figures, Rates, Sums, Verdict, octets_by_key, sum_of, sums_by_rule};
use std::alloc::{AllocError, Global};

/// Adds a character of the value of a label, escaped where it can't stand there as it is.
fn push_character(text: &mut String, character: char) -> Result<(), AllocError>
    ensures { OnOk result (string_bytes text.new ≡ string_bytes text.old ++ label_character character) }
{
    match character {
        '"' => text.push_str("\\\""),
        '\\' => text.push_str("\\\\"),
        '\n' => text.push_str("\\n"),
        _ => text.push(character),
    }
}

/// Adds the value of a label: a quotation mark, a backslash and a line feed are escaped, and other characters stand as
/// they are.
pub(crate) fn push_label(text: &mut String, value: &str) -> Result<(), AllocError>
    ensures { OnOk result (string_bytes text.new ≡ string_bytes text.old ++ label_of value.now) }
{
    for character in value.chars() {
        push_character(text, character)?;
    }
    Ok(())
}

/// Whose metrics are written, and in which form.
#[derive(Clone, Copy)]
pub struct Labeled<'a> {
    /// The session's name, which is a label of each sample.
    pub session: Option<&'a str>,
    /// Whether it is OpenMetrics, and not the text format of Prometheus.
    pub is_open: bool,
    /// The time of the last packet, in nanoseconds since 1970, where it is known.
    pub last_packet: Option<u64>,
}

/// Metrics that are being written.
struct Metrics<'a> {
    text: Sheet,
    labeled: Labeled<'a>,
}

// Written out, so that an owner proves one call on each return path.
impl Drop for Metrics<'_> {
    fn drop(self) {
        let Metrics {
            text: _,
            labeled: _,
        } = self;
    }
}

/// What a metric is.
#[derive(Clone, Copy, PartialEq, Eq)]
enum Kind {
    Counter,
    Gauge,
}

impl Metrics<'_> {
    /// Writes a line about a metric.
    fn about(&mut self, word: &str, name: &str, text: &str) {
        for piece in &["# ", word, " ", name, " ", text, "\n"] {
            self.text.raw(*piece);
        }
    }

    /// Begins a metric. A counter of OpenMetrics stays without a type: there its type and help would stand at its name
    /// without `_total`, where promtool misses them.
    fn begin(&mut self, name: &str, kind: Kind, help: &str) {
        self.about("HELP", name, help);
        match kind {
            Kind::Gauge => self.about("TYPE", name, "gauge"),
            Kind::Counter if !self.labeled.is_open => self.about("TYPE", name, "counter"),
            Kind::Counter => {}
        }
    }

    /// Writes a label; the first one stands behind a brace, and others behind a comma.
    fn label(&mut self, is_first: bool, name: &str, value: &str) {
        self.text.raw(if is_first { "{" } else { "," });
        self.text.raw(name);
        self.text.raw("=\"");
        self.text.label(value);
        self.text.raw("\"");
    }

    /// Writes the name of a sample, and its labels.
    fn push_name(&mut self, name: &str, labels: &[(&str, &str)]) {
        self.text.raw(name);
        let mut is_first = true;
        if let Some(session) = self.labeled.session {
            self.label(true, "session", session);
            is_first = false;
        }
        for (label, value) in labels {
            self.label(is_first, label, value);
            is_first = false;
        }
        self.text.raw(if is_first { " " } else { "} " });
    }

    /// Writes a sample.
    fn sample(&mut self, name: &str, labels: &[(&str, &str)], number: u64) {
        self.push_name(name, labels);
        self.text.number(number);
        self.text.raw("\n");
    }

    /// Writes a sample in octets a second, of bits a second.
    fn rate(&mut self, name: &str, labels: &[(&str, &str)], bits: u64) {
        self.push_name(name, labels);
        self.text.number(bits / 8);
        self.text.raw(EIGHTHS[(bits % 8) as usize]);
        self.text.raw("\n");
    }

    /// The whole text. Fails when out of memory.
    fn whole(self) -> Result<String, AllocError> {
        let Metrics { text, labeled: _ } = self;
        text.whole()
    }

    /// Writes a sample for each value of a label.
    fn samples(&mut self, name: &str, label: &str, samples: &[(&str, u64)]) {
        for (value, number) in samples {
            self.sample(name, &[(label, *value)], *number);
        }
    }
}

/// Eighths, behind a whole number.
const EIGHTHS: [&str; 8] = ["", ".125", ".25", ".375", ".5", ".625", ".75", ".875"];

/// How many packets have which verdict.
#[derive(Clone, Copy)]
struct Counts {
    passed: u64,
    gated: u64,
    unmatched: u64,
    stray: u64,
}

impl Counts {
    const NONE: Counts = Counts {
        passed: 0,
        gated: 0,
        unmatched: 0,
        stray: 0,
    };

    fn of(&self, verdict: Verdict) -> u64 {
        match verdict {
            Verdict::Passed => self.passed,
            Verdict::Gated => self.gated,
            Verdict::Unmatched => self.unmatched,
            Verdict::Stray => self.stray,
        }
    }

    fn count(&mut self, verdict: Verdict) {
        let count = match verdict {
            Verdict::Passed => &mut self.passed,
            Verdict::Gated => &mut self.gated,
            Verdict::Unmatched => &mut self.unmatched,
            Verdict::Stray => &mut self.stray,
        };
        *count = count.saturating_add(1);
    }
}

/// The rules that decided a packet, in the order in which they come, with the counts of their packets.
fn rules<'a>(alloc: Global, figures: &'a Figures) -> Result<ByName<&'a str, Counts>, AllocError> {
    let mut rules = ByName::new(alloc);
    for judged in &figures.judged {
        let rule = judged.rule.as_str();
        rules.begin(rule, Counts::NONE)?;
        if let Some(counts) = rules.get(rule) {
            counts.count(judged.verdict);
        }
    }
    Ok(rules)
}

/// The verdicts in the order of their samples.
const VERDICTS: &[Verdict] = &[
    Verdict::Passed,
    Verdict::Gated,
    Verdict::Unmatched,
    Verdict::Stray,
];

/// Adds a sample for each verdict on packets of a rule.
fn push_counts(metrics: &mut Metrics<'_>, rule: &str, counts: &Counts) {
    for verdict in VERDICTS {
        let count = counts.of(*verdict);
        if count > 0 {
            let labels = &[("rule", rule), ("verdict", verdict.text())];
            metrics.sample("pcef_packets_total", labels, count);
        }
    }
}

/// Adds the packets of the rules.
fn push_packets(metrics: &mut Metrics<'_>, rules: &[(&str, Counts)]) {
    metrics.begin(
        "pcef_packets_total",
        Kind::Counter,
        "Packets by their rule and verdict.",
    );
    for (rule, counts) in rules {
        push_counts(metrics, rule, counts);
    }
}

/// Adds the octets that passed by the rules in a direction, but those of 2^64 or more.
fn push_passed<'a>(
    metrics: &mut Metrics<'_>,
    rules: &[(&'a str, Counts)],
    direction: &str,
    octets: &Sums<'a>,
) {
    for (rule, counts) in rules {
        if let (true, Some(octets)) = (counts.passed > 0, sum_of(octets, *rule)) {
            let labels = &[("rule", *rule), ("direction", direction)];
            metrics.sample("pcef_passed_bytes_total", labels, octets);
        }
    }
}

fn push_rules(
    alloc: Global,
    metrics: &mut Metrics<'_>,
    figures: &Figures,
) -> Result<(), AllocError> {
    let judged = figures.judged.as_slice();
    let rules = rules(alloc, figures)?;
    push_packets(metrics, rules.entries());
    metrics.begin(
        "pcef_passed_bytes_total",
        Kind::Counter,
        "Octets of packets that passed by a rule, each way.",
    );
    let up = sums_by_rule(alloc, judged, Count::OctetsUp)?;
    push_passed(metrics, rules.entries(), "up", &up);
    let down = sums_by_rule(alloc, judged, Count::OctetsDown)?;
    push_passed(metrics, rules.entries(), "down", &down);
    Ok(())
}

/// The unreported octets of each key, one sample of each: that of the first state with its name.
fn unreported_by_key<'a>(
    alloc: Global,
    figures: &'a Figures,
) -> Result<ByName<&'a str, u64>, AllocError> {
    let mut keys = ByName::new(alloc);
    for state in &figures.keys {
        keys.begin(state.key.as_str(), state.unreported)?;
    }
    Ok(keys)
}

/// Adds the reported octets of each key, but those of 2^64 or more.
fn push_reported<'a>(metrics: &mut Metrics<'_>, keys: &[(&'a str, Key<'a>)], octets: &Sums<'a>) {
    metrics.begin(
        "pcef_reported_bytes_total",
        Kind::Counter,
        "Octets that usage reports have for a key.",
    );
    for (key, _) in keys {
        if let Some(octets) = sum_of(octets, *key) {
            metrics.sample("pcef_reported_bytes_total", &[("key", *key)], octets);
        }
    }
}

fn push_keys(
    alloc: Global,
    metrics: &mut Metrics<'_>,
    figures: &Figures,
) -> Result<(), AllocError> {
    let octets = octets_by_key(alloc, figures.usage.as_slice())?;
    let events = events_of(alloc, figures)?;
    let keys = keys_of(alloc, figures, events.as_slice())?;
    push_reported(metrics, keys.entries(), &octets);
    let unreported = unreported_by_key(alloc, figures)?;
    metrics.begin(
        "pcef_unreported_bytes",
        Kind::Gauge,
        "Octets of a key that no report has, by the last show.",
    );
    metrics.samples("pcef_unreported_bytes", "key", unreported.entries());
    Ok(())
}

/// The names of refusals and faults, in the order in which they come, with the counts of their lines.
fn refused_by_name<'a>(
    alloc: Global,
    figures: &'a Figures,
) -> Result<ByName<&'a str, u64>, AllocError> {
    let mut names = ByName::new(alloc);
    for refused in &figures.refused {
        let name = refused.name.as_str();
        names.begin(name, 0u64)?;
        if let Some(count) = names.get(name) {
            *count = count.saturating_add(1);
        }
    }
    Ok(names)
}

fn push_refused(
    alloc: Global,
    metrics: &mut Metrics<'_>,
    figures: &Figures,
) -> Result<(), AllocError> {
    let names = refused_by_name(alloc, figures)?;
    metrics.begin(
        "pcef_refused_lines_total",
        Kind::Counter,
        "Lines that were refused or at fault.",
    );
    metrics.samples("pcef_refused_lines_total", "name", names.entries());
    Ok(())
}

/// The last rates of a bearer.
fn last_rates(figures: &Figures, bearer: u64) -> Option<Rates> {
    figures
        .rates
        .iter()
        .rev()
        .find(|rates| rates.bearer == bearer)
        .copied()
}

/// The ids of bearers, as labels have them (TS 24.007, clause 11.2.3.1.5).
const BEARERS: &[(u64, &str)] = &[
    (5, "5"),
    (6, "6"),
    (7, "7"),
    (8, "8"),
    (9, "9"),
    (10, "10"),
    (11, "11"),
    (12, "12"),
    (13, "13"),
    (14, "14"),
    (15, "15"),
];

fn push_rates(metrics: &mut Metrics<'_>, figures: &Figures) {
    let name = "pcef_guaranteed_bytes_per_second";
    metrics.begin(name, Kind::Gauge, "Guaranteed rates of a bearer, each way.");
    for (bearer, text) in BEARERS {
        if let Some(Rates { up, down, .. }) = last_rates(figures, *bearer) {
            metrics.rate(name, &[("bearer", *text), ("direction", "up")], up);
            metrics.rate(name, &[("bearer", *text), ("direction", "down")], down);
        }
    }
}

/// Adds the time of the last packet, where it is known.
fn push_last_packet(metrics: &mut Metrics<'_>) {
    if let Some(nanoseconds) = metrics.labeled.last_packet {
        let name = "pcef_last_packet_timestamp_seconds";
        metrics.begin(name, Kind::Gauge, "When the last packet was recorded.");
        metrics.push_name(name, &[]);
        push_time(&mut metrics.text, nanoseconds);
        metrics.text.raw("\n");
    }
}

fn push_metrics(
    alloc: Global,
    metrics: &mut Metrics<'_>,
    figures: &Figures,
) -> Result<(), AllocError> {
    push_rules(alloc, metrics, figures)?;
    push_keys(alloc, metrics, figures)?;
    push_refused(alloc, metrics, figures)?;
    push_rates(metrics, figures);
    metrics.begin("pcef_generation", Kind::Gauge, "The newest generation.");
    metrics.sample("pcef_generation", &[], figures.generation);
    push_last_packet(metrics);
    if metrics.labeled.is_open {
        metrics.text.raw("# EOF\n");
    }
    Ok(())
}

/// The figures as metrics. Takes memory for them.
pub fn metrics_text(
    alloc: Global,
    figures: &Figures,
    labeled: Labeled<'_>,
) -> Result<String, AllocError> {
    let mut metrics = Metrics {
        text: Sheet::new(alloc),
        labeled,
    };
    push_metrics(alloc, &mut metrics, figures)?;
    metrics.whole()
}
