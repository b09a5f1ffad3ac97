//! The one who publishes the tables of a session's generations.

ghost use Rattle.std.specs.Prelude.{◌≡◌, ◌+◌, ◌^◌, ◌<◌, [], ◌∷◌, ◌++◌, length, All, IfOk, OnOk, OnErr};
ghost use mathlib.Core.List.{IsPrefix};
ghost use Rattle.std.specs.Arc.{arc_value};
ghost use Rattle.pcef_table.specs.Tables.{IsTable};
ghost use Rattle.pcef_publish.specs.Lists.{IsRun, EndsWith};

use crate::front::{Author, Front, Opened};
use crate::publication::Publication;
use crate::shown::{Board, Cell, Shown, Writer};
use crate::subscriber::Subscriber;
use left_right::WriteHandle;
use pcef_index::Indexed;
use pcef_share::Naming;
use std::alloc::{AllocError, Global};
use std::marker::Model;
use std::sync::{Arc, OnceLock, Wait};
use thiserror::Error;

/// Why tables could not be published.
#[derive(Clone, Copy, Debug, PartialEq, Eq, Error)]
pub enum PublishFault {
    /// The board gave no reader.
    #[error("the board gave no reader")]
    ReaderRefused,
    /// There is no memory left.
    #[error("there is no memory left")]
    NoMemory,
}

impl From<AllocError> for PublishFault {
    ghost use Rattle.pcef_publish.specs.declared.publisher.PublishFault.TheVariants.{NoMemory};

    ghost from_gives = { λ _ fault. fault ≡ NoMemory };

    fn from(_error: AllocError) -> PublishFault {
        PublishFault::NoMemory
    }
}

/// Publishes the tables of a session's generations, one after the other. Contracts see the list of the
/// published tables. It keeps the allocator that it was made with.
pub struct Publisher<N: Naming, W: Board<Cell<N>> + Drop> {
    alloc: Global,
    author: Author<N>,
    newest: Publication<N>,
    board: W,
}

// Written out, so that an owner proves one call on each return path.
impl<N: Naming, W: Board<Cell<N>> + Drop> Drop for Publisher<N, W> {
    fn drop(self) {
        let Publisher {
            alloc: _,
            author: _,
            newest: _,
            board: _,
        } = self;
    }
}

impl<N: Naming, W: Board<Cell<N>> + Drop> Model for Publisher<N, W> {
    ghost use Rattle.std.specs.Prelude.{List, ◌≡◌};
    ghost use Rattle.pcef_table.specs.Tables.{TableValue};

    ghost Value = { List TableValue };

    ghost view = { λ p. p.newest };

    ghost invariant = { λ p. p.author ≡ p.newest };
}

/// A subscriber that holds the newest table.
fn subscribe<N: Naming, R: Wait + Drop>(
    writer: &Writer<N, R>,
    newest: &Publication<N>,
) -> Result<Subscriber<N>, PublishFault>
    ensures { IfOk result (λ s. s ≡ newest.now) }
{
    let held = newest.again()?;
    let Ok(reader) = writer.handle() else {
        return Err(PublishFault::ReaderRefused);
    };
    Ok(Subscriber::new(reader, held))
}

/// One such subscriber for each place.
fn subscribe_all<N: Naming, R: Wait + Drop>(
    alloc: Global,
    writer: &Writer<N, R>,
    newest: &Publication<N>,
    places: usize,
) -> Result<Vec<Subscriber<N>>, PublishFault>
    ensures newest { IfOk result (λ v. All (λ s. s ≡ newest.now) v.items) }
    ensures many { IfOk result (λ v. length v.items ≡ places) }
{
    let mut subscribers = Vec::new(alloc);
    for place in 0..places {
        let subscriber = subscribe(writer, newest)?;
        if subscribers.push(subscriber).is_err() {
            return Err(PublishFault::NoMemory);
        }
    }
    Ok(subscribers)
}

// Two values that share one slot, which holds the first publication.
fn first_slots<N: Naming>(
    alloc: Global,
    newest: &Publication<N>,
) -> Result<(Shown<N>, Shown<N>), AllocError>
    ensures { IfOk result (λ r. arc_value r.0.slot ≡ arc_value r.1.slot) }
{
    let slot = Arc::new(alloc, OnceLock::new())?;
    let _ = slot.try_set(newest.again()?);
    let second = Arc::try_clone(&slot)?;
    Ok((Shown { slot }, Shown { slot: second }))
}

impl<N: Naming, R: Wait + Drop> Publisher<N, Writer<N, R>> {
    /// A publisher whose list is the one table of the opened history, and as many subscribers as there are places, at
    /// least one, each of which holds that table. The name stands for the opened history, and the table is over the
    /// name's catalog. Takes memory. A fault says that there was none, or that the board gave no reader; the opened
    /// history is then lost. May wait for readers.
    pub fn new(
        rt: R,
        alloc: Global,
        opened: Opened,
        places: usize,
    ) -> Result<(Publisher<N, Writer<N, R>>, Vec<Subscriber<N>>), PublishFault>
        requires places { (0 < places) × (places < 2 ^ 32) }
        requires book { (opened.book ≡ N.book) × (opened.root ≡ N.root) }
        requires first { opened.table.number ≡ N.first }
        requires table { IsTable N.setting.catalog opened.table.entries }
        ensures list { IfOk result (λ r. r.0 ≡ opened.table ∷ []) }
        ensures held { IfOk result (λ r. All (λ s. s ≡ opened.table ∷ []) r.1.items) }
        ensures many { IfOk result (λ r. length r.1.items ≡ places) }
    {
        let (author, newest) = opened.into_named::<N>();
        let (first, second) = first_slots(alloc, &newest)?;
        let writer = WriteHandle::new(alloc, rt, first, second, places)?;
        let subscribers = subscribe_all(alloc, &writer, &newest, places)?;
        let publisher = Publisher {
            alloc,
            author,
            newest,
            board: writer,
        };
        Ok((publisher, subscribers))
    }
}

impl<N: Naming, W: Board<Cell<N>> + Drop> Publisher<N, W> {
    pub(crate) fn newest(&self) -> &Publication<N>
        ensures { result.now ≡ self.now }
    {
        &self.newest
    }

    /// The generation of the newest published table. By this a caller knows which comes next. Takes no
    /// memory.
    pub fn generation(&self) -> u32
        ensures { result + 1 ≡ N.first + length self.now }
    {
        self.newest.current().0
    }

    /// Shows that a front is a beginning of what is published.
    pub(crate) fn compare(&mut self, front: &Front<N>)
        ensures same { self.new ≡ self.old }
        ensures begins { IsPrefix front.now self.old }
    {
        let (_generation, table) = self.newest.current();
        self.author.compare(front, table);
    }

    // Shows readers an empty place. All that can be refused is done then.
    fn open(&mut self) -> Result<Cell<N>, AllocError>
        ensures { self.new ≡ self.old }
    {
        let slot = Arc::new(self.alloc, OnceLock::new())?;
        let shown = Arc::try_clone(&slot)?;
        self.board.show(shown)?;
        Ok(slot)
    }

    /// Adds the next table to the list. The table is over the name's catalog, and its generation is one
    /// above the last published one: both are the caller's condition. Takes memory; where there is none,
    /// the list stays as it was. May wait for readers to leave.
    pub fn publish(&mut self, table: Arc<Indexed>) -> Result<(), AllocError>
        requires number { (arc_value table).number ≡ N.first + length self.old }
        requires table { IsTable N.setting.catalog (arc_value table).entries }
        ensures published { OnOk result (self.new ≡ self.old ++ arc_value table ∷ []) }
        ensures refused { OnErr result (self.new ≡ self.old) }
    {
        let second = Arc::try_clone(&table)?;
        let slot = self.open()?;
        self.author.add(&table);
        let front = self.author.front();
        let _ = slot.try_set(Publication::new(second, front.again()));
        self.newest = Publication::new(table, front);
        Ok(())
    }
}
