//! The lines of a thread, as a reader.

ghost use Rattle.std.specs.Prelude.{◌≡◌, ◌++◌, ◌∷◌, ◌<◌, ◌≤◌, [], IfNone, IfOk, IfSome, IsFalse, MatchBool, OnErr, vec_len};
ghost use Rattle.std.specs.Io.{ReadsAtMost};
ghost use Rattle.std.specs.Io.KnownBytes.{IsAtEnd, ReadConsumes};
ghost use Rattle.rtrb.specs.Ring.{received};
ghost use Rattle.pcef_shards.specs.Intakes.{left_of};
ghost use Rattle.pcef_shards.specs.Leading.{Follows};

use crate::parcel::{Leading, Parcel, Taker};
use crate::signals::Signals;
use std::io::{self, ErrorKind, Read};
use std::sync::{Arc, Wait};

/// What is led to a thread, and what of it was given.
#[derive(Drop)]
pub(crate) struct Led<N: Leading> {
    signals: Arc<Signals>,
    thread: usize,
    taker: Taker<N>,
    /// The octets that came last; the first `given` of them were given.
    block: Vec<u8>,
    given: usize,
}

/// The next parcel, if one is at hand and it is for this thread.
fn take_next<N: Leading>(taker: &mut Taker<N>, thread: usize) -> Option<Parcel>
    ensures next { IfSome result (λ p. (p.thread ≡ thread) × Follows N.part (received taker.old) p
        × (received taker.new ≡ received taker.old ++ p ∷ [])) }
    ensures none { IfNone result (received taker.new ≡ received taker.old) }
{
    if taker.slots() == 0 || taker.peek_known().thread != thread {
        return None;
    }
    Some(taker.pop_known())
}

/// The next parcel for a thread. Waits for it. Fails where all are to stop, or none will come.
fn await_next<N: Leading, T: Wait>(
    rt: &T,
    signals: &Signals,
    taker: &mut Taker<N>,
    thread: usize,
) -> io::Result<Parcel>
    ensures next { IfOk result (λ p. (p.thread ≡ thread) × Follows N.part (received taker.old) p
        × (received taker.new ≡ received taker.old ++ p ∷ [])) }
    ensures none { OnErr result (received taker.new ≡ received taker.old) }
{
    for _ in rt.forever() {
        if signals.is_over() {
            break;
        }
        let is_last = taker.is_abandoned();
        if let Some(parcel) = take_next(taker, thread) {
            signals.signal_room();
            return Ok(parcel);
        }
        if is_last {
            break;
        }
        signals.await_lines(rt, thread);
    }
    Err(io::Error::from(ErrorKind::UnexpectedEof))
}

impl<N: Leading> Led<N> {
    /// Takes the next parcel, and returns whether it has octets or is the end. None are at hand. Waits for it. Fails
    /// where all are to stop, or none will come.
    fn receive<T: Wait>(&mut self, rt: &T) -> io::Result<bool>
        requires { vec_len self.old.block ≤ self.old.given }
        ensures same { left_of N.part self.new ≡ left_of N.part self.old }
        ensures end { IfOk result (λ more. IsFalse more → IsAtEnd (left_of N.part self.new)) }
    {
        let parcel = await_next(rt, &self.signals, &mut self.taker, self.thread)?;
        let Parcel { thread: _, octets } = parcel;
        match octets {
            Some(octets) => {
                self.block = octets;
                self.given = 0;
                Ok(true)
            }
            None => Ok(false),
        }
    }

    /// Sees that octets are at hand, and returns whether there are any. Waits for them. Fails where all are to stop, or
    /// none will come.
    fn refill<T: Wait>(&mut self, rt: &T) -> io::Result<bool>
        ensures same { left_of N.part self.new ≡ left_of N.part self.old }
        ensures more { IfOk result (λ more. MatchBool more
            (self.new.given < vec_len self.new.block) (IsAtEnd (left_of N.part self.new))) }
    {
        for _ in rt.forever() {
            if self.given < self.block.len() {
                return Ok(true);
            }
            if !self.receive(rt)? {
                return Ok(false);
            }
        }
        unreachable!()
    }

    /// Gives octets that are at hand, as far as there is room.
    fn give(&mut self, buf: &mut [u8]) -> io::Result<usize>
        requires { self.old.given < vec_len self.old.block }
        ensures bound { ReadsAtMost result buf.new }
        ensures bytes { ReadConsumes (left_of N.part self.old) (left_of N.part self.new)
            result buf.new }
    {
        let mut left = self.block.as_slice().split_at(self.given).1;
        let count = left.read(buf)?;
        self.given += count;
        Ok(count)
    }
}

/// Reads what is led to a thread. Waits for it. Fails where all are to stop, or where the lines have no end.
#[derive(Drop)]
pub(crate) struct Intake<N: Leading, T: Wait + Drop> {
    rt: T,
    led: Led<N>,
}

impl<N: Leading, T: Wait + Drop> Intake<N, T> {
    /// The reader of a thread, to which this ring leads. Nothing was taken from the ring. The list is empty.
    pub(crate) fn new(
        rt: T,
        signals: Arc<Signals>,
        thread: usize,
        taker: Taker<N>,
        empty: Vec<u8>,
    ) -> Intake<N, T>
        requires first { received taker ≡ [] }
        requires none { empty.items ≡ [] }
        ensures { left_of N.part result.led ≡ N.part thread }
    {
        Intake {
            rt,
            led: Led {
                signals,
                thread,
                taker,
                block: empty,
                given: 0,
            },
        }
    }
}

impl<N: Leading, T: Wait + Drop> Read for Intake<N, T> {
    ghost use Rattle.pcef_shards.specs.Intakes.{left_of};

    ghost remaining = { λ i. left_of N.part i.led };

    fn read(&mut self, buf: &mut [u8]) -> io::Result<usize> {
        if buf.is_empty() {
            return Ok(0);
        }
        if self.led.refill(&self.rt)? {
            self.led.give(buf)
        } else {
            Ok(0)
        }
    }
}
