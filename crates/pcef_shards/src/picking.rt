//! Which thread a line goes to.

ghost use Rattle.std.specs.Prelude.{◌≡◌, ◌<◌};
ghost use Rattle.pcef_shards.specs.Picks.{front_of, has_space, is_settled, thread_of};

use memchr::memchr;
use std::hash::{BuildHasher, Hasher, RandomState};

/// A name and the space behind it take no more octets.
const FRONT: usize = 65;

/// What stands in a line before its first space, of its first 65 octets.
fn front_of(line: &[u8]) -> &[u8]
    ensures { result.now ≡ front_of line.now }
{
    let near = line.split_at(line.len().min(FRONT)).0;
    match memchr(b' ', near) {
        Some(place) => near.split_at(place).0,
        None => near,
    }
}

fn has_space(octets: &[u8]) -> bool
    ensures { result ≡ has_space octets.now }
{
    memchr(b' ', octets).is_some()
}

/// Whether a line goes to the same thread whatever follows these octets.
pub(crate) fn is_settled(octets: &[u8]) -> bool
    ensures { result ≡ is_settled octets.now }
{
    octets.len() >= FRONT || has_space(octets)
}

/// The keys of the hash that picks threads, and how many threads there are.
#[derive(Clone, Copy)]
pub(crate) struct Picking {
    keys: RandomState,
    threads: usize,
    ghost some: { 0 < threads },
}

impl Picking {
    pub(crate) fn new(keys: RandomState, threads: usize) -> Picking
        requires { 0 < threads }
        ensures keys { result.keys ≡ keys }
        ensures threads { result.threads ≡ threads }
    {
        Picking { keys, threads }
    }

    /// The thread of a line: the hash of what stands before its first space picks it.
    pub(crate) fn thread_of(&self, line: &[u8]) -> usize
        ensures { result ≡ thread_of self.now.keys self.now.threads line.now }
    {
        let mut hasher = self.keys.build_hasher();
        hasher.write(front_of(line));
        (hasher.finish() % self.threads as u64) as usize
    }
}
