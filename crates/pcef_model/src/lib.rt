//! What a reader must believe of a session, once: `Command`, `Step`, `Row`, `Report`, `Entry`, `Profile`, answers and
//! refusals as types, and the definitions of what a journal says.
//!
//! Its contracts say: the words in which all layers above state their contracts, and laws of lawful journals.
//!
//! In the order of reading: `laws`, `level`, `profile`, `trigger`, `verdict`, `answer`, `report`, `row`, `command`,
//! `pending_report`, `step`, `entry`.
#![tactic(auto)]

mod answer;
mod command;
mod entry;
mod laws;
mod level;
mod pending_report;
mod profile;
mod report;
mod row;
mod step;
mod trigger;
mod verdict;

pub use answer::{Accepted, AttachFault, FlushRefusal, Judged, OpenFault, Refusal, Verdicts};
pub use command::Command;
pub use entry::Entry;
pub use laws::{
    bearers_have_their_own_ids, commands_are_lawful, journals_grow, levels_stay, rows_are_lawful,
    sessions_end_whole, usage_is_exact, waiting_rows_stay,
};
pub use level::Level;
pub use pending_report::PendingReport;
pub use profile::{MAX_CAPACITY, MAX_COMMANDS, Profile};
pub use report::{Body, Cause, InactiveCause, Report};
pub use row::Row;
pub use step::Step;
pub use trigger::{AccessKind, NoticeValue, OfNotice, TriggerSet};
pub use verdict::Verdict;
