//! Why the lines of a script can't be checked.

use pcef_model::OpenFault;
use thiserror::Error;

/// Why the lines of a script can't be checked.
#[derive(Clone, Copy, Debug, PartialEq, Eq, Error)]
pub enum FindFault {
    /// The session can't be opened.
    #[error("the session can't be opened: {0}")]
    Profile(OpenFault),
    /// There is no memory left.
    #[error("there is no memory left")]
    NoMemory,
}
