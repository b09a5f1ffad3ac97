//! Why a run of a session failed.

ghost use Rattle.std.specs.Prelude.{◌≡◌};
ghost use Rattle.pcef_gateway.specs.Faults.{run_fault_number, run_fault_of};

use pcef_lock::SharedFault;
use pcef_model::AttachFault;
use std::error::Error;
use std::fmt::{self, Display, Formatter, Write};

/// Why a run of a session failed. The session is discarded.
#[derive(Clone, Copy, Debug, PartialEq, Eq)]
pub enum RunFault {
    /// The number of workers is not 1 to 16.
    Workers,
    /// A packet names a worker that does not exist.
    StrangeWorker,
    /// The session couldn't be put behind its lock.
    Shared,
    /// There is no memory for the ring to a worker; or a ring ended too early, a packet was left in it at the end, or
    /// more packets were dropped than 64 bits count.
    Ring,
    /// A worker wasn't attached.
    Attach,
    /// There is no thread for a worker.
    Thread,
    /// What workers and desk handed in doesn't agree with the journal.
    Gather,
    /// There is no memory left.
    NoMemory,
}

impl RunFault {
    /// What the fault means, in a few words.
    fn message(self) -> &'static str {
        match self {
            RunFault::Workers => "there are one to sixteen workers",
            RunFault::StrangeWorker => "a packet arrives for a worker that there isn't",
            RunFault::Shared => "the session could not be shared by the workers",
            RunFault::Ring => "a ring to a worker failed",
            RunFault::Attach => "a worker was not attached",
            RunFault::Thread => "there is no thread for a worker",
            RunFault::Gather => "what was handed in does not agree with the journal",
            RunFault::NoMemory => "there is no memory left",
        }
    }
}

impl Display for RunFault {
    fn fmt<W: Write>(&self, f: &mut Formatter<W>) -> fmt::Result {
        f.write_str(self.message())
    }
}

impl Error for RunFault {}

impl RunFault {
    /// The number of the fault, from 1 to 8.
    pub fn number(self) -> u8
        ensures { result ≡ run_fault_number self }
    {
        match self {
            RunFault::Workers => 1,
            RunFault::StrangeWorker => 2,
            RunFault::Shared => 3,
            RunFault::Ring => 4,
            RunFault::Attach => 5,
            RunFault::Thread => 6,
            RunFault::Gather => 7,
            RunFault::NoMemory => 8,
        }
    }
}

/// Why a run failed after the first two checks: it has one to sixteen workers, and packets for no others.
#[derive(Clone, Copy, Debug)]
pub(crate) enum Failure {
    Shared,
    Ring,
    Attach,
    Thread,
    Gather,
    NoMemory,
}

impl Failure {
    /// The fault that is reported for it.
    pub(crate) fn fault(self) -> RunFault
        ensures { result ≡ run_fault_of self }
    {
        match self {
            Failure::Shared => RunFault::Shared,
            Failure::Ring => RunFault::Ring,
            Failure::Attach => RunFault::Attach,
            Failure::Thread => RunFault::Thread,
            Failure::Gather => RunFault::Gather,
            Failure::NoMemory => RunFault::NoMemory,
        }
    }
}

impl From<AttachFault> for Failure {
    ghost use Rattle.std.specs.Prelude.{◌≡◌};
    ghost use Rattle.pcef_gateway.specs.Faults.{failure_of_attach};

    ghost from_gives = { λ fault failure. failure ≡ failure_of_attach fault };

    fn from(fault: AttachFault) -> Failure {
        match fault {
            AttachFault::NoMemory => Failure::NoMemory,
            AttachFault::NoPlace | AttachFault::Closed => Failure::Attach,
        }
    }
}

impl From<SharedFault> for Failure {
    ghost use Rattle.std.specs.Prelude.{◌≡◌};
    ghost use Rattle.pcef_gateway.specs.Faults.{failure_of};

    ghost from_gives = { λ fault failure. failure ≡ failure_of fault };

    fn from(fault: SharedFault) -> Failure {
        match fault {
            SharedFault::NoMemory => Failure::NoMemory,
            SharedFault::Places | SharedFault::PoolPlaces | SharedFault::ReaderRefused =>
                Failure::Shared,
        }
    }
}
