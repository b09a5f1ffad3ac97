//! The figures of a session from a script and its answers, and what shows them: a page, CSV, metrics.
//!
//! Its contracts say: which line has which answer; which reports of usage, grants, states of keys, guaranteed rates,
//! refusals and faults come with it; exact sums of packets and octets; which packet has which time; and how text stands
//! in a page and in a label.
//!
//! In the order of reading: `figures`, `sums`, `values`, `answers`, `lines`, `pairing`, `rates`, `collecting`,
//! `times`; `sources`, `fault`, `source`, `session_times`, `session`, `input`; `escape`, `metrics`, `sheet`, `names`,
//! `stamps`, `ticks`, `chart`, `axis`, `verdicts`, `rules`, `volume`, `keys`, `rate_chart`, `refusals`, `style`, `page`,
//! `table`.
#![tactic(auto)]

mod answers;
mod axis;
mod chart;
mod collecting;
mod escape;
mod fault;
mod figures;
mod input;
mod keys;
mod lines;
mod metrics;
mod names;
mod page;
mod pairing;
mod rate_chart;
mod rates;
mod refusals;
mod rules;
mod session;
mod session_times;
mod sheet;
mod source;
mod sources;
mod stamps;
mod style;
mod sums;
mod table;
mod ticks;
mod times;
mod values;
mod verdicts;
mod volume;

pub use collecting::{CollectFault, Collected, Watch, collect};
pub use fault::Fault;
pub use figures::{
    Figures, Grant, Handed, Judged, KeyState, Rates, Refused, Stamp, Usage, Verdict,
};
pub use input::{Input, read};
pub use metrics::{Labeled, metrics_text};
pub use page::{Subject, html_page};
pub use rates::ActiveRules;
pub use sources::Sources;
pub use sums::{Count, Sums, octets_by_key, sum_of, sums_by_rule};
pub use table::write_table;
pub use times::{TimesFault, is_take, read_times, stamp_of};
