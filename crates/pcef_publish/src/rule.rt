//! The rule of the history.
use logbook::{Gain, Pen, Plain, Play, Rule};
use pcef_index::Indexed;
use pcef_share::Naming;
use std::marker::PhantomData;

/// An item that the author of the chain `root` added by the pen of the key `by`. The pen of the key `next`
/// adds the next one. No value of it is made.
pub struct Note {
    pub root: u64,
    pub by: u64,
    pub next: u64,
    pub item: Indexed,
}

/// The rule of the history: chains are kept.
pub struct Law;

impl Rule<Note, u64> for Law {
    ghost use Rattle.std.specs.Prelude.{[]};
    ghost use base.Fml.{ftrue};
    ghost use Rattle.pcef_publish.specs.private.Chains.{IsKept};

    ghost holds = { λ cells log. IsKept cells log };

    ghost first = { [] };

    ghost hinted = { λ n log. Unit {0} };

    ghost shows = { λ log. [] };

    ghost keeps = { λ names log. ftrue };

    ghost moves = { λ ask before after answer. Unit {0} };
}

/// A step that gives its caller nothing.
pub struct Nothing;

impl Gain<Note, u64> for Nothing {
    ghost use base.Fml.{ftrue};

    ghost after = { λ names about answer. ftrue };
}

/// What is asked for.
#[derive(Drop)]
pub struct Ask<'a> {
    pub item: &'a Indexed,
    pub by: &'a Pen,
    pub next: &'a Pen,
}

/// A step that gives a new pen.
pub struct Draw;

impl Play<Note, u64> for Draw {
    ghost use Rattle.pcef_publish.specs.private.Chains.{Draws};

    ghost then = { Draws };
}

/// A step that adds a note.
pub struct Add<N: Naming> {
    of: PhantomData<N>,
}

impl<N: Naming> Play<Note, u64> for Add<N> {
    ghost use Rattle.pcef_publish.specs.private.Chains.{Adds};

    ghost then = { Adds };
}

impl<'a, N: Naming> Plain<Ask<'a>, Note, u64> for Add<N> {
    ghost use Rattle.std.specs.Prelude.{None};

    ghost ask = { λ a. record {
      root = N.root;
      by = a.by.now.nib.key;
      next = a.next.now.nib.key;
      item = a.item.now;
    } };

    ghost state = { λ a. None };
}

/// A step that finds the chain as its author knows it.
pub struct Check;

impl Play<Note, u64> for Check {
    ghost use Rattle.pcef_publish.specs.private.Chains.{Checks};

    ghost then = { Checks };
}
