//! Packets that arrive for workers, and the commands of their session.

ghost use Rattle.std.specs.Prelude.{◌↔◌, ◌<◌, All, IsTrue};

use pcef_model::Command;
use pcef_packet::PackedHeader;
use std::mem::size_of;

/// A packet that arrives for a worker.
#[derive(Drop)]
pub struct Arrival {
    /// The packet's header.
    pub header: PackedHeader,
    /// The number of the worker, from 0 on.
    pub worker: u8,
}

const _: () = prove!(size_of::<Arrival>() == 52);

/// What a run works off.
#[derive(Drop)]
pub struct Workload {
    /// The packets, in the order in which they arrive.
    pub arrivals: Vec<Arrival>,
    /// The session's commands, in the order in which they are given.
    pub commands: Vec<Command>,
    /// How many workers take the packets: 1 to 16.
    pub workers: u8,
}

/// Whether each packet arrives for one of `workers` workers.
pub(crate) fn are_known(arrivals: &[Arrival], workers: u8) -> bool
    ensures { IsTrue result ↔ All (λ a. a.worker < workers) arrivals.now }
{
    arrivals.iter().all(|arrival| arrival.worker < workers)
}
