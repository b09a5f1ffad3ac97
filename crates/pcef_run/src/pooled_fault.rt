//! Why sessions can't be opened on a pool.

use pcef_model::OpenFault;
use pcef_share::PoolFault;
use thiserror::Error;

/// Why sessions can't be opened on a pool. Of several faults the first in this order is answered.
#[derive(Clone, Copy, Debug, PartialEq, Eq, Error)]
pub enum PooledFault {
    /// No session is asked for, or more than sixty-four.
    #[error("a pool has one to sixty-four sessions")]
    Sessions,
    /// The session of this number, counted from 0, can't be opened. Out of memory is [`PooledFault::NoMemory`] instead.
    #[error("session {0} can't be opened: {1}")]
    Session(u8, OpenFault),
    /// The pool can't be made.
    #[error("{0}")]
    Pool(PoolFault),
    /// There is no memory left.
    #[error("there is no memory left")]
    NoMemory,
}
