//! What is led to a thread, and the ring that leads there.

use rtrb::{Consumer, Producer, Protocol};
use std::alloc::Global;
use std::marker::{Brand, PhantomData};

/// Octets of a thread's lines, or their end.
#[derive(Drop)]
pub struct Parcel {
    /// The number of the thread that they are for.
    pub(crate) thread: usize,
    /// The next octets, or none where all were led.
    pub(crate) octets: Option<Vec<u8>>,
}

/// What is to be led to each thread. Each run picks it.
pub trait Leading {
    ghost use Rattle.std.specs.Prelude.{ℕ, List, Option};

    /// The part of a thread, where the input is known.
    ghost part: { ℕ → Option (List ℕ) };
}

impl Leading for Brand {
    ghost use Rattle.std.specs.Prelude.{None};

    ghost part = { λ t. None };
}

/// A ring leads to its thread the thread's part, from the first octet on, and then the end.
pub struct InOrder<N: Leading> {
    of: PhantomData<N>,
}

impl<N: Leading> Protocol<Parcel> for InOrder<N> {
    ghost use Rattle.pcef_shards.specs.Leading.{Follows};

    ghost allows = { Follows N.part };
}

/// The end of a ring by which parcels are led.
pub(crate) type Way<N> = Producer<Parcel, Global, InOrder<N>>;

/// The end of a ring from which they are taken.
pub(crate) type Taker<N> = Consumer<Parcel, Global, InOrder<N>>;
