//! How far standard input is read, on a terminal.

use pcef_base::{Progress, Watched};
use std::fs;
use std::rt::Stdin;

/// Standard input. Where it is a file, the percents of it that were read are shown on standard error, if that is a
/// terminal.
pub(crate) fn watched_input(rt: &HostRuntime) -> Watched<Stdin> {
    let len = match fs::metadata(rt, "/dev/stdin") {
        Ok(metadata) if metadata.is_file() => metadata.len(),
        _ => 0,
    };
    Watched::new(rt.stdin(), Progress::new(rt, len))
}
