//! What the words over clap share: how each gathers what stands behind it, why no work is done, and what is printed of a
//! file at fault.
//!
//! In the order of reading: `words`, `refusing`, `faults`.

mod faults;
mod refusing;
mod words;

pub(crate) use faults::{or_no_memory, print_profile_fault, print_read_fault, print_write_fault};
pub(crate) use refusing::{refuse, refuse_usage, report_no_memory};
pub(crate) use words::gather;
