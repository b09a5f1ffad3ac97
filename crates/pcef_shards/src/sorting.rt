//! Lines, sorted by their threads while their octets come.

ghost use Rattle.std.specs.Prelude.{◌≡◌, ◌++◌, ◌∷◌, ◌<◌, [], All, IfOk, None, OnOk, false, length};
ghost use Rattle.pcef_script.specs.ScriptLines.{has_feed};
ghost use Rattle.pcef_shards.specs.Sorted.{IsSorted, SortsEnd, SortsOn, Stays, Takes};
ghost use Rattle.pcef_shards.specs.private.Moves.{Ends, Leads, Settles};

use crate::picking::{Picking, is_settled};
use memchr::memchr;
use std::alloc::{AllocError, Global};
use std::hash::RandomState;
use std::marker::Model;
use std::mem;

/// Octets that wait for a thread. Contracts see them as a list.
#[derive(Drop)]
struct Part {
    octets: Vec<u8>,
}

impl Model for Part {
    ghost use Rattle.std.specs.Prelude.{ℕ, List};

    ghost Value = { List ℕ };

    ghost view = { λ p. p.octets.items };
}

impl Part {
    fn new(alloc: Global) -> Part
        ensures { result ≡ [] }
    {
        Part {
            octets: Vec::new(alloc),
        }
    }

    fn add(&mut self, octets: &[u8]) -> Result<(), AllocError>
        ensures { OnOk result (self.new ≡ self.old ++ octets.now) }
    {
        self.octets.extend_from_slice(octets)
    }

    fn take(&mut self, alloc: Global) -> Vec<u8>
        ensures all { result.items ≡ self.old }
        ensures none { self.new ≡ [] }
    {
        mem::replace(&mut self.octets, Vec::new(alloc))
    }
}

/// `threads` parts, each of them empty.
fn empty_parts(alloc: Global, threads: usize) -> Result<Vec<Part>, AllocError>
    ensures many { IfOk result (λ parts. length parts.items ≡ threads) }
    ensures none { IfOk result (λ parts. All (λ part. part ≡ []) parts.items) }
{
    let mut parts = Vec::new(alloc);
    for _ in 0..threads {
        parts.push(Part::new(alloc))?;
    }
    Ok(parts)
}

/// Puts octets behind what waits for a thread.
fn lead(parts: &mut Vec<Part>, thread: usize, octets: &[u8]) -> Result<(), AllocError>
    ensures { OnOk result (Leads parts.old.items thread octets.now parts.new.items) }
{
    if thread < parts.len() {
        parts[thread].add(octets)
    } else {
        Ok(())
    }
}

/// Lines that are sorted by their threads. The octets of a line before its first space pick its thread. What came for a
/// thread waits there till it is taken. A line longer than a block is led on piece by piece.
#[derive(Drop)]
pub struct Sorting {
    alloc: Global,
    picking: Picking,
    /// What came of a line whose thread isn't settled.
    line: Vec<u8>,
    /// The thread of the line that is coming, once it is settled.
    thread: Option<usize>,
    /// What waits for each thread.
    parts: Vec<Part>,
}

impl Sorting {
    /// No octets came yet. The fronts of lines are hashed by these keys, which are to be random, since strangers choose
    /// names. That there is a thread is the caller's condition. Takes memory.
    pub fn new(alloc: Global, keys: RandomState, threads: usize) -> Result<Sorting, AllocError>
        requires { 0 < threads }
        ensures { IfOk result (λ s. IsSorted keys threads (λ t. []) s []) }
    {
        let parts = empty_parts(alloc, threads)?;
        Ok(Sorting {
            alloc,
            picking: Picking::new(keys, threads),
            line: Vec::new(alloc),
            thread: None,
            parts,
        })
    }

    /// Settles the thread of the line that is coming, and leads there what came of it.
    fn settle(&mut self) -> Result<usize, AllocError>
        ensures { IfOk result (Settles self.old self.new) }
    {
        let thread = self.picking.thread_of(&self.line);
        lead(&mut self.parts, thread, &self.line)?;
        self.line.clear();
        self.thread = Some(thread);
        Ok(thread)
    }

    /// The thread of the line that is coming, which is settled where it wasn't.
    fn settle_lines(&mut self) -> Result<usize, AllocError>
        ensures { IfOk result (Ends self.old self.new) }
    {
        match self.thread {
            Some(thread) => Ok(thread),
            None => self.settle(),
        }
    }

    /// Sorts octets of a line whose thread isn't settled.
    fn sort_unsettled(&mut self, run: &[u8]) -> Result<(), AllocError>
        requires feed { has_feed run.now ≡ false }
        requires thread { self.old.thread ≡ None }
        ensures { OnOk result (SortsOn self.old self.new run.now) }
    {
        self.line.extend_from_slice(run)?;
        if is_settled(&self.line) {
            self.settle()?;
        }
        Ok(())
    }

    /// Sorts octets of a line.
    fn sort_run(&mut self, run: &[u8]) -> Result<(), AllocError>
        requires { has_feed run.now ≡ false }
        ensures { OnOk result (SortsOn self.old self.new run.now) }
    {
        match self.thread {
            Some(thread) => lead(&mut self.parts, thread, run),
            None => self.sort_unsettled(run),
        }
    }

    /// Ends the last line, which no line feed ends. Takes memory; when out of memory, nothing is said of what waits.
    pub fn end(&mut self) -> Result<(), AllocError>
        ensures { OnOk result (SortsEnd self.old self.new) }
    {
        self.settle_lines()?;
        Ok(())
    }

    /// Sorts a line feed.
    fn sort_feed(&mut self) -> Result<(), AllocError>
        ensures { OnOk result (SortsOn self.old self.new (10 ∷ [])) }
    {
        let thread = self.settle_lines()?;
        lead(&mut self.parts, thread, b"\n")?;
        self.thread = None;
        Ok(())
    }

    /// Sorts more octets. Takes memory; when out of memory, nothing is said of what waits.
    pub fn sort(&mut self, block: &[u8]) -> Result<(), AllocError>
        ensures { OnOk result (SortsOn self.old self.new block.now) }
    {
        let mut rest = block;
        'lines: while let Some(place) = memchr(b'\n', rest) {
            self.sort_run(rest.split_at(place).0)?;
            self.sort_feed()?;
            rest = rest.split_at(place + 1).1;
        }
        self.sort_run(rest)
    }

    /// Takes what waits for a thread.
    pub fn take(&mut self, thread: usize) -> Vec<u8>
        ensures part { Takes self.old self.new thread result.items }
        ensures rest { Stays self.old self.new }
    {
        if thread < self.parts.len() {
            self.parts[thread].take(self.alloc)
        } else {
            Vec::new(self.alloc)
        }
    }
}
