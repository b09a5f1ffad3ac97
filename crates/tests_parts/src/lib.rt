//! Tests of the parts of a session: packets, filters, rules and catalogs; tables, their indexes and outlets of
//! reporters; and calls of counters and bearers that a session doesn't make. They stand above the crates that they test,
//! which are then proved once.
#![tactic(auto)]

#[cfg(test)]
mod tests;
