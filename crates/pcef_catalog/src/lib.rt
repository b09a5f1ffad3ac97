//! The catalog of predefined rules: `Test`, `Shape`, `Predefined` with its closure, `Catalog`, `Listing`, and the
//! traits `Offers` and `Detects`.
//!
//! Its contracts say: what a catalog offers, and that a closure answers as its rule's shape.
//!
//! In the order of reading: `shape`, `predefined`, `listing`, `places`, `catalog`.
#![tactic(auto)]

mod catalog;
mod listing;
mod places;
mod predefined;
mod shape;

pub use catalog::{Catalog, CatalogFault, Detects, Offers};
pub use listing::{Listing, MAX_OFFERS, Offer};
pub use predefined::{Detect, Predefined};
pub use shape::{Alternative, Shape, Test};
