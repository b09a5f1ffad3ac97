//! What a line asks for.

use pcef_model::Step;

/// What a line asks for.
#[derive(Drop)]
pub enum Line {
    /// Something happens to the session or to its workers: each word but `show` is one such step.
    Step(Step),
    /// `show`: how the session stands.
    Show,
}
