//! A compiled index of a table: `Index`, for fast look-ups, and `Indexed`, a table with its index. Tables of equal
//! rules share an index by an `IndexShelf`.
//!
//! Its contracts say: the same verdict and slots as the table's, with the place of the rule that decided, by one look-up,
//! and which entries may match a header; that a shared index changes nothing.
//!
//! In the order of reading: `candidates`, `rule_filter`, `lines`, `sides`, `kinds`, `by_kind`, `words`, `blocks`, `fields`,
//! `ends`, `steps`, `rows`, `digits`, `bounds`, `nets`, `addresses`, `free`, `runs`, `sieve`, `sieving`, `sieves`,
//! `standing_words`, `base`, `equal`, `part`, `parts`, `based`, `index`, `indexed`, `fingerprint`, `shelf`.
#![tactic(auto)]

mod addresses;
mod base;
mod based;
mod blocks;
mod bounds;
mod by_kind;
mod candidates;
mod digits;
mod ends;
mod equal;
mod fields;
mod fingerprint;
mod free;
mod index;
mod indexed;
mod kinds;
mod lines;
mod nets;
mod part;
mod parts;
mod rows;
mod rule_filter;
mod runs;
mod shelf;
mod sides;
mod sieve;
mod sieves;
mod sieving;
mod standing_words;
mod steps;
mod words;

pub use index::Index;
pub use indexed::{Decision, Indexed};
pub use shelf::{IndexShelf, MAX_SHELVED};
