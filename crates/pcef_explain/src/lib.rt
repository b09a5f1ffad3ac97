//! Explains in words, for people, why a line of a script can't be read or isn't taken: where, what was found there, and
//! what is expected; and where a file is no text.
//!
//! Its contracts say: that the explanation of a line stands on one line of printable ASCII; the line and the column of
//! an octet.
//!
//! In the order of reading: `wide`, `text`, `place`, `plain`, `wanted`, `column`, `nearest`, `message`, `wrong_value`,
//! `ports`, `filters`, `packets`, `parts`, `syntax`, `explaining`.
#![tactic(auto)]

mod column;
mod explaining;
mod filters;
mod message;
mod nearest;
mod packets;
mod parts;
mod place;
mod plain;
mod ports;
mod syntax;
mod text;
mod wanted;
mod wide;
mod wrong_value;

pub use explaining::{Explanation, explain, explain_field, explain_rule_name};
pub use plain::plain_text;
pub use text::{read_text, text_in};
