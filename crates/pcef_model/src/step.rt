//! The steps of a session and its workers.

use crate::command::Command;
use pcef_packet::Header;

/// What happens next to a session and its workers. Workers are named by their numbers, 0 to 15.
#[derive(Drop)]
pub enum Step {
    /// A command is given.
    Command(Command),
    /// A worker is attached.
    Attach,
    /// A worker takes a packet.
    Take {
        /// The number of the worker.
        worker: u8,
        /// The header of the packet.
        header: Header,
    },
    /// A worker takes the newest generation.
    Refresh {
        /// The number of the worker.
        worker: u8,
    },
    /// A worker hands its waiting rows over.
    Flush {
        /// The number of the worker.
        worker: u8,
    },
    /// A worker hands its waiting rows over and leaves.
    Finish {
        /// The number of the worker.
        worker: u8,
    },
    /// A worker leaves, and its waiting rows get no verdict.
    Abandon {
        /// The number of the worker.
        worker: u8,
    },
}
