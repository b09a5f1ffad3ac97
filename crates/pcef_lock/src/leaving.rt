//! How a worker leaves.

ghost use Rattle.std.specs.Prelude.{◌≡◌};

use pcef_model::Verdicts;
use pcef_share::Naming;
use std::marker::{Model, PhantomData};

/// How a worker left.
#[derive(Clone, Copy, Debug, PartialEq, Eq)]
pub enum Leaving {
    /// It finished: in the hold of the lock in which it left, it handed its last rows over, 0 to 32.
    Finished(u8),
    /// It abandoned the rows that waited with it, 0 to 32: they never reached the session.
    Abandoned(u8),
}

/// That a worker left, and how. Only a hold of the lock in which a worker leaves, or is found to have left, makes one.
pub struct Departure<N: Naming> {
    worker: u8,
    leaving: Leaving,
    name: PhantomData<N>,
}

// Written out, so that an owner proves one call on each return path.
impl<N: Naming> Drop for Departure<N> {
    fn drop(self) {
        let Departure {
            worker: _,
            leaving: _,
            name: _,
        } = self;
    }
}

impl<N: Naming> Model for Departure<N> {
    ghost use Rattle.pcef_lock.specs.HandedIn.{DepartureModel};

    ghost Value = { DepartureModel };

    ghost view = { λ d. record { worker = d.worker; leaving = d.leaving } };
}

impl<N: Naming> Departure<N> {
    /// That this worker left, in this way.
    pub(crate) fn new(worker: u8, leaving: Leaving) -> Departure<N>
        ensures { result ≡ record { worker = worker; leaving = leaving } }
    {
        Departure {
            worker,
            leaving,
            name: PhantomData,
        }
    }

    /// The number of the worker.
    pub(crate) fn worker(&self) -> u8
        ensures { result ≡ self.now.worker }
    {
        self.worker
    }

    /// How it left.
    pub(crate) fn leaving(&self) -> Leaving
        ensures { result ≡ self.now.leaving }
    {
        self.leaving
    }
}

/// The answer to a worker that finishes.
#[derive(Drop)]
pub struct LastFlush<N: Naming> {
    /// That it left.
    pub departure: Departure<N>,
    /// The verdicts of its last rows.
    pub verdicts: Verdicts,
}
