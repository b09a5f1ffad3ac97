//! The way to a thread.

ghost use Rattle.std.specs.Prelude.{◌≡◌, ◌++◌, ◌∷◌, [], OnOk};
ghost use Rattle.rtrb.specs.Ring.{sent};
ghost use Rattle.pcef_shards.specs.Leading.{Follows, FollowsIn, IfKnown, octets_if_there};

use crate::parcel::{Leading, Parcel, Way};
use crate::signals::Signals;
use rtrb::PushError;
use std::alloc::AllocError;
use std::marker::Model;
use std::sync::Wait;

/// Why no more is led.
#[derive(Clone, Copy, Debug, PartialEq, Eq)]
pub(crate) enum Stop {
    /// All are to stop.
    Over,
    /// The reader failed.
    Read,
    /// There is no memory left.
    NoMemory,
}

impl From<AllocError> for Stop {
    fn from(_error: AllocError) -> Stop {
        Stop::NoMemory
    }
}

/// The way to a thread. Contracts see the octets that were led there.
#[derive(Drop)]
pub(crate) struct Lane<N: Leading> {
    way: Way<N>,
}

impl<N: Leading> Model for Lane<N> {
    ghost use Rattle.std.specs.Prelude.{ℕ, List};
    ghost use Rattle.rtrb.specs.Ring.{sent};
    ghost use Rattle.pcef_shards.specs.Leading.{octets_in};

    ghost Value = { List ℕ };

    ghost view = { λ l. octets_in (sent l.way) };
}

/// Puts a parcel on a way. Waits while the ring is full. Fails where all are to stop.
fn push<N: Leading, T: Wait>(
    rt: &T,
    signals: &Signals,
    way: &mut Way<N>,
    parcel: Parcel,
) -> Result<(), Stop>
    requires { Follows N.part (sent way.old) parcel }
    ensures { OnOk result (sent way.new ≡ sent way.old ++ parcel ∷ []) }
{
    let mut parcel = parcel;
    for _ in rt.forever() {
        if signals.is_over() {
            return Err(Stop::Over);
        }
        match way.push(parcel) {
            Ok(()) => return Ok(()),
            Err(PushError::Full(back)) => parcel = back,
        }
        signals.await_room(rt);
    }
    unreachable!()
}

impl<N: Leading> Lane<N> {
    /// A way by which nothing was led yet.
    pub(crate) fn new(way: Way<N>) -> Lane<N>
        requires { sent way ≡ [] }
        ensures { result ≡ [] }
    {
        Lane { way }
    }

    /// Leads octets to the thread of this number, or their end. Waits while its ring is full. Fails where all are to
    /// stop.
    pub(crate) fn lead<T: Wait>(
        &mut self,
        rt: &T,
        signals: &Signals,
        thread: usize,
        octets: Option<Vec<u8>>,
    ) -> Result<(), Stop>
        requires { IfKnown (N.part thread) (λ whole. FollowsIn whole self.old octets) }
        ensures { OnOk result (self.new ≡ self.old ++ octets_if_there octets) }
    {
        push(rt, signals, &mut self.way, Parcel { thread, octets })?;
        signals.signal_lines(thread);
        Ok(())
    }
}
