//! Why sessions on a pool don't answer all orders.

use crate::pooled_fault::PooledFault;
use thiserror::Error;

/// Why sessions on a pool don't answer all orders.
#[derive(Clone, Copy, Debug, PartialEq, Eq, Error)]
pub enum PoolEnd {
    /// The sessions can't be opened on the pool. Nothing is written.
    #[error("the sessions can't be opened on the pool: {0}")]
    Open(PooledFault),
    /// The writer failed. A front of the answers is written.
    #[error("the answers can't be written")]
    Write,
    /// There is no memory left. The answers to the orders before are written.
    #[error("there is no memory left")]
    NoMemory,
}
