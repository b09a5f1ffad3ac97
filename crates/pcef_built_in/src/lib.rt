//! The three built-in predefined rules, which the program `pcef` and the library for C offer, and `ShapedCatalog`, a
//! catalog of them without closures.
//!
//! Its contracts say: what each rule is, and that each detects as its shape says.
//!
//! In the order of reading: `rules`, `shaped`.
#![tactic(auto)]

mod rules;
mod shaped;

pub use rules::{
    dns_properties, dns_shape, expedited_properties, expedited_shape, is_dns, is_expedited,
    is_remaining, remaining_properties, remaining_shape,
};
pub use shaped::ShapedCatalog;
