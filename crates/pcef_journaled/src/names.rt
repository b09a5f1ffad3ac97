//! The names of rules that rows speak of.

ghost use Rattle.std.specs.Prelude.{◌≡◌, ◌<◌, ◌≤◌, ◌+◌, [], Some, slice_get, IsOk, IsTrue, OnOk};
ghost use Rattle.pcef_journaled.specs.KeptNames.{NamesGoOn, with_name};

use indexmap::IndexSet;
use pcef_rule::RuleName;
use std::alloc::{AllocError, Global};
use std::marker::Model;

/// How many names there are places for, so that a place takes four octets.
const MOST_NAMES: usize = 0x1_0000_0000;

/// Names of rules, each of which stands once and keeps its place.
pub(crate) struct Names {
    names: IndexSet<RuleName>,
    // The place of the name that was asked for last. Most rows have the name of the row before them,
    // which is found here without a hash.
    last: u32,
}

// Written out, so that an owner proves one call on each return path.
impl Drop for Names {
    fn drop(self) {
        let Names { names: _, last: _ } = self;
    }
}

impl Model for Names {
    ghost use Rattle.pcef_journaled.specs.KeptNames.{KeptNames};

    ghost Value = { KeptNames };

    ghost use Rattle.pcef_journaled.specs.NamesView.{kept_names};

    ghost view = { kept_names };
}

/// Whether a name stands at a place.
fn stands_at(names: &[RuleName], place: u32, name: &RuleName) -> bool
    ensures { IsTrue result → slice_get names.now place ≡ Some name.now }
{
    match names.get(place as usize) {
        Some(found) => *found == *name,
        None => false,
    }
}

impl Names {
    /// No names. Takes no memory.
    pub(crate) fn new(alloc: Global) -> Names
        ensures { result.names ≡ [] }
    {
        Names {
            names: IndexSet::new(alloc),
            last: 0,
        }
    }

    /// Takes memory for `additional` more names. When out of memory, nothing has changed but the room.
    pub(crate) fn reserve(&mut self, additional: usize) -> Result<(), AllocError>
        ensures names { self.new.names ≡ self.old.names }
        ensures room { OnOk result (additional ≤ self.new.room) }
        ensures kept { self.old.room ≤ self.new.room }
        ensures enough { additional ≤ self.old.room → IsOk result }
    {
        if MOST_NAMES.saturating_sub(self.names.len()) < additional {
            return Err(AllocError);
        }
        self.names.reserve(additional)
    }

    /// The place of a name that isn't the last one, found by its hash or added. Apart from `place_of`, which
    /// stays small. Takes no memory.
    #[inline(never)]
    fn find(&mut self, name: &RuleName) -> u32
        requires { 0 < self.old.room }
        ensures place { slice_get self.new.names result ≡ Some name.now }
        ensures names { self.new.names ≡ with_name name.now self.old.names }
        ensures more { NamesGoOn self.old.names self.new.names }
        ensures room { self.old.room ≤ self.new.room + 1 }
    {
        let Ok((place, _)) = self.names.insert_full(name.copy()) else {
            unreachable!()
        };
        self.last = place as u32;
        self.last
    }

    /// The place of a name, which is added where it is new. Takes no memory.
    pub(crate) fn place_of(&mut self, name: &RuleName) -> u32
        requires { 0 < self.old.room }
        ensures place { slice_get self.new.names result ≡ Some name.now }
        ensures names { self.new.names ≡ with_name name.now self.old.names }
        ensures more { NamesGoOn self.old.names self.new.names }
        ensures room { self.old.room ≤ self.new.room + 1 }
    {
        if stands_at(self.names.as_slice(), self.last, name) {
            return self.last;
        }
        self.find(name)
    }

    /// The names, each at its place.
    pub(crate) fn as_slice(&self) -> &[RuleName]
        ensures { result.now ≡ self.now.names }
    {
        self.names.as_slice()
    }
}
