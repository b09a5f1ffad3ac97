//! Indexes that tables of equal rules share.

ghost use Rattle.std.specs.Prelude.{map, ◌≡◌, ◌≤◌, ◌<◌, [], IfSome, length};
ghost use Rattle.std.specs.Arc.{arc_value};
ghost use Rattle.pcef_index.specs.Shelves.{most_shelved};

use crate::equal::are_equal;
use crate::fingerprint::fingerprint;
use crate::index::Index;
use crate::indexed::Indexed;
use pcef_table::Source;
use std::alloc::Global;
use std::marker::Model;
use std::sync::Arc;

/// The most indexes of a shelf.
pub const MAX_SHELVED: usize = 16;

/// An index, and the fingerprint of its rules: lists with other fingerprints needn't be compared.
#[derive(Drop)]
struct Shelved {
    fingerprint: u64,
    index: Arc<Index>,
}

/// At most 16 indexes of tables, so that tables whose rules are equal share one. Contracts see the rules of each.
pub struct IndexShelf {
    indexes: Vec<Shelved>,
}

// Written out, so that an owner proves one call on each return path.
impl Drop for IndexShelf {
    fn drop(self) {
        let IndexShelf { indexes: _ } = self;
    }
}

impl Model for IndexShelf {
    ghost use Rattle.std.specs.Prelude.{List, ◌≤◌, length, map};
    ghost use Rattle.std.specs.Arc.{arc_value};
    ghost use Rattle.pcef_table.specs.declared.entry.Source.{Source};
    ghost use Rattle.pcef_index.specs.Shelves.{most_shelved};

    ghost Value = { List (List Source) };

    ghost view = { λ s. map (λ i. arc_value i.index) s.indexes.items };

    ghost invariant = { λ s. length s.indexes.items ≤ most_shelved };
}

/// An index of a table's rules, which have this fingerprint, for the table's session.
fn equal_to<'a>(
    indexes: &'a [Shelved],
    fingerprint: u64,
    indexed: &Indexed,
) -> Option<&'a Arc<Index>>
    ensures { IfSome result (λ i. arc_value i.now ≡ map (λ e. e.source) indexed.now.entries) }
{
    let sources = indexed.index().sources();
    for shelved in indexes {
        if shelved.fingerprint == fingerprint
            && indexed.is_served_by(&shelved.index)
            && are_equal(shelved.index.sources(), sources)
        {
            return Some(&shelved.index);
        }
    }
    None
}

/// The number of owners of an index, the shelf among them.
fn owners(shelved: &Shelved) -> usize {
    Arc::strong_count(&shelved.index)
}

/// The place of the first index that has the fewest owners.
fn place_of_least_owned(indexes: &[Shelved]) -> usize
    requires { 0 < length indexes.now }
    ensures { result < length indexes.now }
{
    let mut least = 0;
    for place in 1..indexes.len() {
        if owners(&indexes[place]) < owners(&indexes[least]) {
            least = place;
        }
    }
    least
}

/// Drops the indexes that nobody else owns: a new table has an index of its own.
fn drop_unowned(indexes: &mut Vec<Shelved>)
    ensures { length indexes.new.items ≤ length indexes.old.items }
{
    indexes.retain(|shelved| owners(shelved) > 1);
}

/// Makes a place for one more index: drops those that nobody else owns and, where the shelf is still full, the oldest
/// of those with the fewest owners.
fn make_place(indexes: &mut Vec<Shelved>)
    requires { length indexes.old.items ≤ most_shelved }
    ensures { length indexes.new.items < most_shelved }
{
    drop_unowned(indexes);
    if indexes.len() >= MAX_SHELVED {
        indexes.remove(place_of_least_owned(indexes));
    }
}

impl IndexShelf {
    /// An empty shelf. Takes no memory.
    pub fn new(alloc: Global) -> IndexShelf
        ensures { result ≡ [] }
    {
        IndexShelf {
            indexes: Vec::new(alloc),
        }
    }

    /// How many indexes there are.
    pub fn len(&self) -> usize
        ensures is { result ≡ length self.now }
        ensures most { result ≤ most_shelved }
    {
        self.indexes.len()
    }

    /// Puts the index of a table here, unless there is no memory for it.
    fn put(&mut self, indexed: &mut Indexed, fingerprint: u64)
        ensures { indexed.new ≡ indexed.old }
    {
        make_place(&mut self.indexes);
        if let Ok(index) = indexed.shelved() {
            drop(self.indexes.push(Shelved { fingerprint, index }));
        }
    }

    /// Gives a table the index of another table whose rules are equal, and which was made for any session or for its own;
    /// or puts its own here, for others to share. A full shelf drops the oldest index of those with the fewest owners. A
    /// table with few filters keeps its index, which takes little memory, and so does one whose index was here before.
    /// When out of memory, nothing is shared.
    pub fn share(&mut self, indexed: &mut Indexed)
        ensures { indexed.new ≡ indexed.old }
    {
        if !indexed.is_to_share() {
            return;
        }
        let fingerprint = fingerprint(indexed.index().sources());
        match equal_to(&self.indexes, fingerprint, indexed) {
            Some(index) => indexed.share(index),
            None => self.put(indexed, fingerprint),
        }
    }
}
