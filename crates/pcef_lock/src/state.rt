//! The value behind the lock of a session.

ghost use Rattle.std.specs.Prelude.{◌≡◌, ◌≤◌, ◌+◌, IfErr, IfOk, OnErr, OnOk, Some, false, length, true};
ghost use Rattle.pcef_model.specs.Outcomes.{CommandStep, CommandStepWithin};
ghost use Rattle.pcef_model.specs.Refusals.{total_now};
ghost use Rattle.pcef_model.specs.Entries.{commands};
ghost use Rattle.pcef_model.specs.Journals.{attach_count};
ghost use Rattle.pcef_model.specs.Lawful.{Lawful};
ghost use Rattle.pcef_share.specs.Names.{ledger_at};
ghost use Rattle.pcef_lock.specs.Outcomes.{AnswersSeat, with_share};
ghost use Rattle.pcef_handover.specs.Counting.{books_with_command, with_command};
ghost use Rattle.pcef_lock.specs.Desks.{desk_shares, first_books};
ghost use Rattle.pcef_lock.specs.Kept.{HoldFinds, Kept};
ghost use Rattle.pcef_share.specs.Pools.{IsPart, pool_with, rates_due, room_beside};
ghost use Rattle.pcef_lock.specs.Published.{ArePublished};
ghost use Rattle.pcef_lock.specs.Seats.{ChangesOnlySubscriber, HasSeenAll, IsNewSeat};
ghost use mathlib.Core.List.{IsPrefix};

use crate::pooled_share::{give_rates, held_in, room_in};
use crate::publishing::{Publishing, make_ready, next_subscriber, publish};
use crate::seat::Seat;
use pcef_core::{SessionParts, session_is_exact};
use pcef_journaled::JournaledState;
use pcef_model::{Accepted, AttachFault, Command, Refusal};
use pcef_packet::Addr;
use pcef_publish::{Board, Cell, Publisher, Subscriber};
use pcef_rule::Sums;
use pcef_share::{Blanks, Books, Naming, NoPool, PoolState, Pooling, RateShares, Shares};
use std::alloc::{AllocError, Global};
use std::marker::Model;

mod collecting;
mod gathering;
mod handing;

pub use gathering::StateUngathered;

/// A session with the publisher of its tables, the subscribers that no worker has yet, and its books. It is the value
/// behind a session's lock: what always holds of it, every hold of the lock finds.
pub struct State<N: Naming, W: Board<Cell<N>> + Drop, P: Pooling = NoPool> {
    alloc: Global,
    session: JournaledState,
    publisher: Publisher<N, W>,
    subscribers: Vec<Subscriber<N>>,
    books: Books<N>,
    rates: Option<RateShares<P>>,
    places: u8,
}

// Written out, so that an owner proves one call on each return path.
impl<N: Naming, W: Board<Cell<N>> + Drop, P: Pooling> Drop for State<N, W, P> {
    fn drop(self) {
        let State {
            alloc: _,
            session: _,
            publisher: _,
            subscribers: _,
            books: _,
            rates: _,
            places: _,
        } = self;
    }
}

impl<N: Naming, W: Board<Cell<N>> + Drop, P: Pooling> Model for State<N, W, P> {
    ghost use Rattle.std.specs.Prelude.{length, ◌≡◌};
    ghost use Rattle.pcef_share.specs.Pools.{rates_due};
    ghost use Rattle.pcef_lock.specs.Locked.{Locked};
    ghost use Rattle.pcef_lock.specs.private.Soundness.{IsSound};

    ghost Value = { Locked };

    ghost view = { λ s. record {
      session = s.session.session;
      tables = s.publisher;
      books = s.books;
      places = s.places;
    } };

    ghost invariant = { λ s. IsSound N.setting N.first (record {
      session = s.session.session;
      tables = s.publisher;
      books = s.books;
      places = s.places;
    }) (length s.subscribers.items)
        × (s.rates ≡ rates_due P.is_there s.session.session.setting s.session.session.journal) };
}

/// How many commands a session took. Its journal is lawful, and takes 4,294,967,295 rows at most.
fn commands_of(session: &JournaledState) -> u64
    ensures commands { result ≡ length (commands session.now.session.journal) }
    ensures lawful { Lawful session.now.session.setting session.now.session.journal }
    ensures few_rows { session.now.session.setting.rows ≤ 4294967295 }
{
    session.session().journal().commands_len()
}

/// The address of the user equipment of a session.
fn ue_of(session: &JournaledState) -> Addr
    ensures { result ≡ session.now.session.setting.ue }
{
    session.session().profile().ue
}

impl<N: Naming, W: Board<Cell<N>> + Drop, P: Pooling> State<N, W, P> {
    /// The value behind the lock, of a session to which no worker was ever attached and whose tables are published, and
    /// the shares of the desk, which hold the session's commands so far. A subscriber is there for each place.
    pub(crate) fn new(
        alloc: Global,
        session: JournaledState,
        publishing: Publishing<N, W>,
        blanks: Blanks,
        rates: Option<RateShares<P>>,
        places: u8,
    ) -> (State<N, W, P>, Shares<N>)
        requires name { N.ledger ≡ ledger_at blanks }
        requires setting { session.session.setting ≡ N.setting }
        requires fresh { attach_count session.session.journal ≡ 0 }
        requires published { ArePublished N.setting session.session.journal N.first
            publishing.publisher }
        requires rates { rates ≡ rates_due P.is_there session.session.setting session.session.journal }
        requires places { places ≤ 16 }
        requires subscribers { length publishing.subscribers.items ≡ places }
        ensures session { result.0.session ≡ session.session }
        ensures tables { result.0.tables ≡ publishing.publisher }
        ensures places { result.0.places ≡ places }
        ensures books { result.0.books ≡ first_books session.session.journal }
        ensures shares { result.1 ≡ desk_shares session.session.journal }
    {
        let Publishing {
            publisher,
            subscribers,
        } = publishing;
        let commands = commands_of(&session);
        let mut books = Books::new(blanks);
        let mut shares = books.issue();
        books.add_commands(&mut shares, commands);
        let state = State {
            alloc,
            session,
            publisher,
            subscribers,
            books,
            rates,
            places,
        };
        (state, shares)
    }

    /// What the session keeps: all that a hold of the lock finds, in one statement. It is exact, its published tables
    /// show its generations, and its books hold what its journal counts.
    pub fn found(&self) -> SessionParts<'_>
        ensures { HoldFinds N.setting N.first self.now result }
    {
        let session = self.session();
        session_is_exact(session.session())
    }

    /// The session. Its journal is lawful, its published tables show its generations, and its books hold what its
    /// journal counts.
    pub fn session(&self) -> &JournaledState
        ensures session { result.now.session ≡ self.now.session }
        ensures lawful { Lawful N.setting self.now.session.journal }
        ensures kept { Kept N.setting N.first self.now }
    {
        // For what it says of the journal: that it is lawful.
        let _journal = self.session.session().journal();
        &self.session
    }

    /// What the session's share of a pool has, in bit/s, where there is a pool: what its own rules' guaranteed rates sum up
    /// to.
    pub fn rates(&self) -> Option<Sums>
        ensures { result ≡ rates_due P.is_there N.setting self.now.session.journal }
    {
        held_in(&self.rates)
    }

    /// What was added to each book: octets of slots 0 to 7, rows, commands.
    pub fn totals(&self) -> [u64; 10]
        ensures { result ≡ self.now.books.totals }
    {
        self.books.totals()
    }

    /// Does a command, publishes the table that it makes, if it makes one, and counts it into the shares of the desk
    /// that gives it, unless it changed nothing. Or answers the first refusal in the order of [`Refusal`], which changes
    /// nothing. Takes memory. May wait for readers of the publication.
    pub fn command(&mut self, shares: &mut Shares<N>, command: Command) -> Result<Accepted, Refusal>
        requires { P.is_there ≡ false }
        ensures answer { CommandStep N.setting command
            self.old.session.journal result self.new.session.journal }
        ensures tables { IsPrefix self.old.tables self.new.tables }
        ensures refused { IfErr result (λ _. self.new.tables ≡ self.old.tables) }
        ensures rest { self.new ≡ record self.old {
          session = self.new.session;
          tables = self.new.tables;
          books = books_with_command result self.old.books;
        } }
        ensures shares { shares.new ≡ with_command result shares.old }
    {
        let prepared = match self.session.prepare(command) {
            Ok(prepared) => prepared,
            Err(refusal) => return Err(refusal),
        };
        let before = commands_of(&self.session);
        if publish(&mut self.publisher, &prepared).is_err() {
            return Err(Refusal::NoMemory);
        }
        let accepted = self.session.settle(prepared);
        let gained = commands_of(&self.session) - before;
        self.books.add_commands(shares, gained);
        Ok(accepted)
    }

    /// The same for a session that has a share of a pool. A command that makes a rule active is refused where all
    /// shares would then be over the pool's capacity. The share is given what the session's rules sum up to then. What
    /// it had was part of what the pool had granted, so both move by the same rates.
    pub fn command_within(
        &mut self,
        shares: &mut Shares<N>,
        command: Command,
        pool: &mut PoolState<P>,
    ) -> Result<Accepted, Refusal>
        requires { P.is_there ≡ true }
        ensures answer { CommandStepWithin N.setting
            (Some (room_beside pool.old (total_now N.setting self.old.session.journal))) command
            self.old.session.journal result self.new.session.journal }
        ensures part { IsPart (total_now N.setting self.old.session.journal) pool.old }
        ensures tables { IsPrefix self.old.tables self.new.tables }
        ensures refused { IfErr result (λ _. self.new.tables ≡ self.old.tables) }
        ensures rest { self.new ≡ record self.old {
          session = self.new.session;
          tables = self.new.tables;
          books = books_with_command result self.old.books;
        } }
        ensures shares { shares.new ≡ with_command result shares.old }
        ensures granted { OnOk result (pool.new
            ≡ pool_with pool.old (total_now N.setting self.old.session.journal)
            (total_now N.setting self.new.session.journal)) }
        ensures pool { OnErr result (pool.new ≡ pool.old) }
    {
        let room = room_in(&mut self.rates, pool);
        let prepared = match self.session.prepare_within(command, room) {
            Ok(prepared) => prepared,
            Err(refusal) => return Err(refusal),
        };
        let before = commands_of(&self.session);
        if publish(&mut self.publisher, &prepared).is_err() {
            return Err(Refusal::NoMemory);
        }
        let accepted = self.session.settle(prepared);
        let more = commands_of(&self.session) - before;
        self.books.add_commands(shares, more);
        give_rates(&mut self.rates, pool, self.session.session().rates());
        Ok(accepted)
    }

    /// Attaches a worker, which then holds the newest table; or answers the first fault in the order of
    /// [`AttachFault`], which changes nothing. There is no place, either, once as many workers were attached as the
    /// lock has places. Takes memory.
    pub fn attach(&mut self) -> Result<Seat<N>, AttachFault>
        ensures answer { AnswersSeat self.old result self.new }
        ensures rest { self.new ≡ record self.old {
          session = self.new.session;
          books = with_share result self.old.books;
        } }
        ensures seat { IfOk result (IsNewSeat N.setting self.old.tables) }
    {
        if self.books.issued() > self.places {
            return Err(AttachFault::NoPlace);
        }
        if let Some(fault) = self.session.session().attach_fault() {
            return Err(fault);
        }
        if make_ready(&mut self.subscribers, &mut self.publisher).is_err() {
            return Err(AttachFault::NoMemory);
        }
        let worker = match self.session.attach() {
            Ok(worker) => worker,
            Err(fault) => return Err(fault),
        };
        Ok(Seat {
            worker,
            shares: self.books.issue(),
            subscriber: next_subscriber(&mut self.subscribers),
            ue: ue_of(&self.session),
        })
    }

    /// The worker of a seat takes the newest table, and its generation is returned. Where a further owner of the table
    /// is refused, the table held stays.
    pub fn meet(&mut self, seat: &mut Seat<N>) -> Result<u32, AllocError>
        ensures same { self.new ≡ self.old }
        ensures seen { IsPrefix seat.new.subscriber self.old.tables }
        ensures grows { IsPrefix seat.old.subscriber seat.new.subscriber }
        ensures newest { IfOk result (HasSeenAll self.old seat.new) }
        ensures number { IfOk result (λ g. g + 1 ≡ N.first + length seat.new.subscriber) }
        ensures refused { IfErr result (λ _. seat.new.subscriber ≡ seat.old.subscriber) }
        ensures seat { ChangesOnlySubscriber seat.old seat.new }
    {
        seat.subscriber.compare(&mut self.publisher);
        seat.subscriber.meet(&mut self.publisher)?;
        Ok(self.session.session().generation())
    }
}
