//! The version of this project.

/// The version that `--version` prints behind a program's name: its first number is that of the interface for C, its
/// second one goes up where something comes in, and its third one where something is mended.
pub const VERSION: &str = "1.0.0";

/// The line that `pcef --version` prints.
pub const VERSION_LINE: &str = "pcef 1.0.0\n";
