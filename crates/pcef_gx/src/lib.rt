//! Gx (TS 29.212), the protocol between a PCRF and a PCEF: what the AVPs of a RAR or of a CCA ask of a session, the rule
//! that a definition makes, and the AVPs that say what came of it.
//!
//! Its contracts say: what a message asks of a session, in order, or its first fault with the Result-Code and the
//! Failed-AVP; the rule of a definition, or why it can't be had; what is written, octet for octet; names go back.
//!
//! In the order of reading: `code`, `known`, `fault`, `looking`, `name`, `filters`, `flow`, `failure`, `quality`,
//! `definition`, `order`, `install`, `triggers`, `monitoring`, `reading`, `completing`, `writing`, `laws`.
#![tactic(auto)]

pub mod code;
mod completing;
mod definition;
mod failure;
mod fault;
mod filters;
mod flow;
mod install;
mod known;
mod laws;
mod looking;
mod monitoring;
mod name;
mod order;
mod quality;
mod reading;
mod triggers;
mod writing;

pub use code::{Code, THREE_GPP, code_of, is};
pub use completing::complete;
pub use definition::RuleChange;
pub use failure::{RuleFailure, failure_of};
pub use fault::{GxFault, Problem, Stop, example};
pub use filters::FilterList;
pub use known::is_known;
pub use laws::{names_go_back, one_message};
pub use looking::{group, only, required};
pub use name::{name_of, octets_of};
pub use order::{GivenName, NameOf, Order, Orders};
pub use quality::Quality;
pub use reading::{read_cca, read_rar};
pub use writing::{
    RuleReport, RuleStatus, put_number, put_number_reserved, put_octets, put_octets_reserved,
    put_rule_report, put_usage,
};
