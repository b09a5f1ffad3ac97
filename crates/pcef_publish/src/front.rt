//! The history of published tables, and beginnings of it.

ghost use Rattle.std.specs.Prelude.{◌≡◌, ◌+◌, ◌<◌, ◌++◌, ◌∷◌, [], length, MatchBool};
ghost use mathlib.Core.List.{IsPrefix};
ghost use Rattle.std.specs.Arc.{arc_value};
ghost use Rattle.logbook.specs.Pages.{may_write};
ghost use Rattle.pcef_table.specs.Tables.{IsTable};
ghost use Rattle.pcef_publish.specs.Lists.{IsRun, IsLonger};
ghost use Rattle.pcef_publish.specs.private.Chains.{head_of, items_of, word_of};

use crate::publication::Publication;
use crate::rule::{Add, Ask, Check, Draw, Law, Note, Nothing};
use logbook::{Offer, Pen, Seen, Start, Word};
use pcef_index::Indexed;
use pcef_share::Naming;
use std::marker::{Brand, Model, PhantomData};
use std::sync::Arc;

// A pen that may write a cell which is not at home.
fn draw(word: &Word<Note, u64, Law>, seen: &Seen<Note, u64, Law>, item: &Indexed) -> Pen
    requires { word.now ≡ word_of seen.now.book }
    ensures { (result.book ≡ seen.now.book) × (result.nib.right ≡ may_write) }
{
    let mut pen = seen.no_pen();
    let mut look = seen.again();
    let by = seen.no_pen();
    let ask = Ask {
        item,
        by: &by,
        next: &by,
    };
    let mut offer: Offer<Note, u64, Law, Nothing> = look.plain::<Nothing, Ask<'_>, Add<Brand>>(
        &ask,
    );
    word.compare_exchange::<Draw, Nothing>(0, 0, &mut look, &mut offer, &mut pen);
    let _made: Word<Note, u64, Law> = Word::tracked(0, &mut pen);
    pen
}

/// A history with no table in it, the table that it is to begin with, and the right to add it. No
/// session is named by it yet. Contracts see its book, the key of its first pen and that table.
pub struct Opened {
    word: Word<Note, u64, Law>,
    seen: Seen<Note, u64, Law>,
    pen: Pen,
    table: Arc<Indexed>,
}

// Written out, so that an owner proves one call on each return path.
impl Drop for Opened {
    fn drop(self) {
        let Opened {
            word: _,
            seen: _,
            pen: _,
            table: _,
        } = self;
    }
}

impl Model for Opened {
    ghost use Rattle.std.specs.Prelude.{◌≡◌, []};
    ghost use Rattle.std.specs.Arc.{arc_value};
    ghost use Rattle.logbook.specs.Pages.{may_write};
    ghost use Rattle.pcef_publish.specs.Lists.{Opening};
    ghost use Rattle.pcef_publish.specs.private.Chains.{word_of};

    ghost Value = { Opening };

    ghost view = { λ o. record {
      book = o.seen.book;
      root = o.pen.nib.key;
      table = arc_value o.table;
    } };

    ghost invariant = { λ o.
        (o.seen.log ≡ [])
        × (o.word ≡ word_of o.seen.book)
        × (o.pen.book ≡ o.seen.book)
        × (o.pen.nib.right ≡ may_write) };
}

impl Opened {
    /// A history that begins with this table, once it has a name. Takes no memory of its own.
    pub fn new(table: Arc<Indexed>) -> Opened
        ensures { result.table ≡ arc_value table }
    {
        let (seen, mut first, _second) = Seen::open(Start::alone(), 0, 0);
        let word = Word::tracked(0, &mut first);
        let pen = draw(&word, &seen, &table);
        Opened {
            word,
            seen,
            pen,
            table,
        }
    }

    /// The author under a name, and the first table with its history.
    pub fn into_named<N: Naming>(self) -> (Author<N>, Publication<N>)
        requires book { (self.book ≡ N.book) × (self.root ≡ N.root) }
        requires first { self.table.number ≡ N.first }
        requires table { IsTable N.setting.catalog self.table.entries }
        ensures author { result.0 ≡ self.table ∷ [] }
        ensures entry { result.1 ≡ self.table ∷ [] }
    {
        let Opened {
            word,
            seen,
            pen,
            table,
        } = self;
        let mut author = Author {
            word,
            pen,
            len: 0,
            seen,
            of: PhantomData,
        };
        author.add(&table);
        let front = author.front();
        (author, Publication::new(table, front))
    }
}

/// The one who adds to the history. Contracts see it as all its tables.
pub struct Author<N: Naming> {
    word: Word<Note, u64, Law>,
    pen: Pen,
    len: u64,
    seen: Seen<Note, u64, Law>,
    of: PhantomData<N>,
}

// Written out, so that an owner proves one call on each return path.
impl<N: Naming> Drop for Author<N> {
    fn drop(self) {
        let Author {
            word: _,
            pen: _,
            len: _,
            seen: _,
            of: _,
        } = self;
    }
}

impl<N: Naming> Model for Author<N> {
    ghost use Rattle.std.specs.Prelude.{◌≡◌, List, length};
    ghost use Rattle.logbook.specs.Pages.{may_write};
    ghost use Rattle.pcef_table.specs.Tables.{TableValue};
    ghost use Rattle.pcef_publish.specs.Lists.{IsRun};
    ghost use Rattle.pcef_publish.specs.private.Chains.{head_of, items_of, word_of};

    ghost Value = { List TableValue };

    ghost view = { λ a. items_of N.root a.seen.log };

    ghost invariant = { λ a.
        (a.word ≡ word_of N.book)
        × (a.seen.book ≡ N.book)
        × (a.pen.book ≡ N.book)
        × (a.pen.nib.right ≡ may_write)
        × (a.pen.nib.key ≡ head_of N.root a.seen.log)
        × (a.len ≡ length (items_of N.root a.seen.log))
        × IsRun N.setting.catalog N.first (items_of N.root a.seen.log) };
}

impl<N: Naming> Author<N> {
    /// The whole history.
    pub fn front(&self) -> Front<N>
        ensures { result ≡ self.now }
    {
        Front {
            len: self.len,
            seen: self.seen.again(),
            of: PhantomData,
        }
    }

    /// Adds a table to all that there are. It can't fail.
    pub fn add(&mut self, table: &Indexed)
        requires number { table.now.number ≡ N.first + length self.old }
        requires table { IsTable N.setting.catalog table.now.entries }
        ensures { self.new ≡ self.old ++ table.now ∷ [] }
    {
        // A generation fits 32 bits, so the number of tables fits 64.
        let _generation = table.generation();
        let next = draw(&self.word, &self.seen, table);
        let ask = Ask {
            item: table,
            by: &self.pen,
            next: &next,
        };
        let mut offer: Offer<Note, u64, Law, Nothing> = self
            .seen
            .plain::<Nothing, Ask<'_>, Add<N>>(&ask);
        self.word
            .compare_exchange::<Add<N>, Nothing>(0, 0, &mut self.seen, &mut offer, &mut self.pen);
        self.pen = next;
        self.len += 1;
    }

    /// Shows that a front is a beginning of the whole. It can't fail.
    pub fn compare(&mut self, front: &Front<N>, table: &Indexed)
        ensures same { self.new ≡ self.old }
        ensures begins { IsPrefix front.now self.old }
    {
        let ask = Ask {
            item: table,
            by: &self.pen,
            next: &self.pen,
        };
        let mut both = self.seen.again();
        both.learn(&front.seen);
        let mut offer: Offer<Note, u64, Law, Nothing> = both.plain::<Nothing, Ask<'_>, Add<N>>(
            &ask,
        );
        self.word
            .compare_exchange::<Check, Nothing>(0, 0, &mut both, &mut offer, &mut self.pen);
    }
}

/// A beginning of the history. Contracts see it as its tables.
pub struct Front<N: Naming> {
    len: u64,
    seen: Seen<Note, u64, Law>,
    of: PhantomData<N>,
}

// Written out, so that an owner proves one call on each return path.
impl<N: Naming> Drop for Front<N> {
    fn drop(self) {
        let Front {
            len: _,
            seen: _,
            of: _,
        } = self;
    }
}

impl<N: Naming> Model for Front<N> {
    ghost use Rattle.std.specs.Prelude.{◌≡◌, List, length};
    ghost use Rattle.pcef_table.specs.Tables.{TableValue};
    ghost use Rattle.pcef_publish.specs.Lists.{IsRun};
    ghost use Rattle.pcef_publish.specs.private.Chains.{items_of};

    ghost Value = { List TableValue };

    ghost view = { λ f. items_of N.root f.seen.log };

    ghost invariant = { λ f.
        (f.len ≡ length (items_of N.root f.seen.log))
        × (f.seen.book ≡ N.book)
        × IsRun N.setting.catalog N.first (items_of N.root f.seen.log) };
}

impl<N: Naming> Front<N> {
    /// How many tables it has.
    pub fn len(&self) -> u64
        ensures length { result ≡ length self.now }
        ensures run { IsRun N.setting.catalog N.first self.now }
    {
        self.len
    }

    /// A copy.
    pub fn again(&self) -> Front<N>
        ensures { result ≡ self.now }
    {
        Front {
            len: self.len,
            seen: self.seen.again(),
            of: PhantomData,
        }
    }

    /// Whether the other goes on from here. If not, it begins this one.
    pub fn begins(&self, other: &Front<N>) -> bool
        ensures { MatchBool result (IsPrefix self.now other.now) (IsLonger other.now self.now) }
    {
        // For proofs alone: what both have seen, seen together, says which begins the other.
        let mut both = self.seen.again();
        both.learn(&other.seen);
        self.len <= other.len
    }
}
