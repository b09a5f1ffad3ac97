//! What the program is given beside its streams.

use crate::taken::Taken;
use pcef_catalog::Catalog;
use pcef_trigger::Outlet;
use std::alloc::Global;
use std::io;
use std::sync::Arc;

/// What the program stands on.
#[derive(Drop)]
pub struct Host<'a, T> {
    /// The threads and the waits of the system.
    pub rt: &'a T,
    /// Memory.
    pub alloc: Global,
}

/// The arguments, and the files that they name.
#[derive(Clone, Copy)]
pub struct Arguments<'a> {
    /// The words after the program's name.
    pub words: &'a [Vec<u8>],
    /// The texts of the profiles that the words name, in their order, or why these can't be read.
    pub profiles: &'a [io::Result<String>],
}

/// What sessions work with.
#[derive(Drop)]
pub struct Environment<'a> {
    /// The predefined rules.
    pub catalog: Arc<Catalog>,
    /// Where the reports of a run go.
    pub outlet: Outlet,
    /// What the outlet's reporters took.
    pub taken: &'a Taken,
}
