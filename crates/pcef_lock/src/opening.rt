//! Sessions that are put behind a lock.

ghost use Rattle.std.specs.Prelude.{◌≡◌, ◌≢◌, ◌≤◌, ◌<◌, ◌⊎◌, ◌↔◌, [], ◌∷◌, All, IfErr, IfOk, IsOk, IsTrue, OnErr, OnOk, length, reverse, true};
ghost use Rattle.std.specs.Arc.{arc_value};
ghost use Rattle.pcef_model.specs.Entries.{commands};
ghost use Rattle.pcef_model.specs.Journals.{attach_count};
ghost use Rattle.pcef_session.specs.Answers.{ShowsNewest};
ghost use Rattle.pcef_model.specs.Refusals.{total_now};
ghost use Rattle.pcef_share.specs.Rates.{no_rates};
ghost use Rattle.pcef_share.specs.Pools.{with_rate_share};
ghost use Rattle.pcef_table.specs.Tables.{IsTable};
ghost use Rattle.pcef_lock.specs.Desks.{desk_shares};
ghost use Rattle.pcef_lock.specs.Opening.{GoesBy, IsPlacesFault, IsPoolFull, unpublished};
ghost use Rattle.pcef_lock.specs.declared.opening.SharedFault.TheVariants.{Places, PoolPlaces};

use crate::desk::{Desk, commands_so_far};
use crate::pool::Pool;
use crate::publishing::Publishing;
use crate::shared::Shared;
use crate::state::State;
use pcef_catalog::Offers;
use pcef_journal::MAX_WORKERS;
use pcef_journaled::JournaledState;
use pcef_publish::{Opened, PublishFault, Publisher, Writer};
use pcef_share::{Blanks, Naming, PoolState, Pooling, Shares};
use std::alloc::{AllocError, Global};
use std::sync::{Arc, Wait};
use thiserror::Error;

/// Why a session wasn't put behind a lock. `Places` is looked for first.
#[derive(Clone, Copy, Debug, PartialEq, Eq, Error)]
pub enum SharedFault {
    /// The number of places for workers is not 1 to 16.
    #[error("there are one to sixteen places for workers")]
    Places,
    /// The publication gave no reader.
    #[error("the publication gave no reader")]
    ReaderRefused,
    /// There is no memory left.
    #[error("there is no memory left")]
    NoMemory,
    /// All shares of the pool were issued.
    #[error("all shares of the pool were issued")]
    PoolPlaces,
}

/// A session that is to be put behind a lock.
#[derive(Drop)]
pub struct Opening {
    /// The session. No worker was ever attached to it.
    pub session: JournaledState,
    /// The history that was opened with its newest table: [`open_history`].
    pub opened: Opened,
    /// The ledgers of its shares, which have no name yet.
    pub blanks: Blanks,
    /// How many workers it has places for: 1 to 16.
    pub places: u8,
}

/// A history that begins with the table of a session's newest generation. It takes its name where the session does.
/// Fails where a further owner of the table is refused.
pub fn open_history(session: &JournaledState) -> Result<Opened, AllocError>
    ensures { IfOk result (λ o. ShowsNewest session.now.session o.table) }
{
    Ok(Opened::new(Arc::try_clone(session.session().indexed())?))
}

/// The fault of a session whose first table wasn't published.
fn fault_of(fault: PublishFault) -> SharedFault
    ensures { result ≡ unpublished fault }
{
    match fault {
        PublishFault::ReaderRefused => SharedFault::ReaderRefused,
        PublishFault::NoMemory => SharedFault::NoMemory,
    }
}

/// Publishes the table of an opened history, with a subscriber for each place.
fn publish_first<N: Naming, R: Wait + Drop>(
    rt: R,
    alloc: Global,
    opened: Opened,
    places: u8,
) -> Result<Publishing<N, Writer<N, R>>, SharedFault>
    requires places { (0 < places) × (places ≤ 16) }
    requires book { (opened.book ≡ N.book) × (opened.root ≡ N.root) }
    requires first { opened.table.number ≡ N.first }
    requires table { IsTable N.setting.catalog opened.table.entries }
    ensures list { IfOk result (λ r. r.publisher ≡ opened.table ∷ []) }
    ensures many { IfOk result (λ r. length r.subscribers.items ≡ places) }
    ensures fault { IfErr result (λ f. f ≡ Places → ⊥) }
    ensures pool { IfErr result (λ f. f ≡ PoolPlaces → ⊥) }
{
    match Publisher::new(rt, alloc, opened, usize::from(places)) {
        Ok((publisher, subscribers)) => Ok(Publishing {
            publisher,
            subscribers,
        }),
        Err(fault) => Err(fault_of(fault)),
    }
}

/// Whether a lock may have `places` places: 1 to 16.
fn are_places(places: u8) -> bool
    ensures { IsTrue result ↔ ((0 < places) × (places ≤ 16)) }
{
    places > 0 && usize::from(places) <= MAX_WORKERS
}

impl<N: Naming, R: Wait + Drop> State<N, Writer<N, R>> {
    /// The value behind the lock of a session, with its places for workers, and the shares of its desk, which hold the
    /// session's commands so far. The condition of the caller: no worker was ever attached to the session, and the name
    /// is that of the session, of the blanks and of a history that was opened with the session's newest table. A fault
    /// gives the session back; the opened history is then lost. Takes memory. May wait for readers.
    // Apart, for inlined into `Shared::open` it takes LLVM a minute: the value is large, and is moved several times.
    #[inline(never)]
    pub fn open(
        rt: R,
        alloc: Global,
        opening: Opening,
    ) -> Result<(State<N, Writer<N, R>>, Shares<N>), (JournaledState, SharedFault)>
        requires named { GoesBy N.ledger N.setting N.first N.book N.root
            opening.session.session opening.opened opening.blanks }
        requires fresh { attach_count opening.session.session.journal ≡ 0 }
        ensures session { IfOk result (λ r. r.0.session ≡ opening.session.session) }
        ensures tables { IfOk result (λ r. r.0.tables ≡ opening.opened.table ∷ []) }
        ensures places { IfOk result (λ r. (r.0.places ≡ opening.places) × (r.0.books.issued ≡ 1)) }
        ensures shares { IfOk result (λ r. r.1 ≡ desk_shares opening.session.session.journal) }
        ensures fault { IsPlacesFault result ↔ ((opening.places ≡ 0) ⊎ (16 < opening.places)) }
        ensures back { IfErr result (λ e. e.0 ≡ opening.session) }
    {
        let Opening {
            session,
            opened,
            blanks,
            places,
        } = opening;
        if !are_places(places) {
            return Err((session, SharedFault::Places));
        }
        let publishing = match publish_first(rt, alloc, opened, places) {
            Ok(publishing) => publishing,
            Err(fault) => return Err((session, fault)),
        };
        Ok(State::new(alloc, session, publishing, blanks, None, places))
    }
}

impl<N: Naming, R: Wait + Drop, P: Pooling> State<N, Writer<N, R>, P> {
    /// The same for a session without guaranteed rates, which gets a share of a pool, or the fault `PoolPlaces` where
    /// all sixty-four were issued. The share is issued last, so that no fault loses one.
    // Apart, for the same reason.
    #[inline(never)]
    pub fn open_within(
        rt: R,
        alloc: Global,
        opening: Opening,
        pool: &mut PoolState<P>,
    ) -> Result<(State<N, Writer<N, R>, P>, Shares<N>), (JournaledState, SharedFault)>
        requires there { P.is_there ≡ true }
        requires rates { total_now opening.session.session.setting opening.session.session.journal
            ≡ no_rates }
        requires named { GoesBy N.ledger N.setting N.first N.book N.root
            opening.session.session opening.opened opening.blanks }
        requires fresh { attach_count opening.session.session.journal ≡ 0 }
        ensures session { IfOk result (λ r. r.0.session ≡ opening.session.session) }
        ensures tables { IfOk result (λ r. r.0.tables ≡ opening.opened.table ∷ []) }
        ensures places { IfOk result (λ r. (r.0.places ≡ opening.places) × (r.0.books.issued ≡ 1)) }
        ensures shares { IfOk result (λ r. r.1 ≡ desk_shares opening.session.session.journal) }
        ensures fault { IsPlacesFault result ↔ ((opening.places ≡ 0) ⊎ (16 < opening.places)) }
        ensures full { IsPoolFull result → pool.old.books.issued ≡ 64 }
        ensures room { IsOk result → pool.old.books.issued ≢ 64 }
        ensures back { IfErr result (λ e. e.0 ≡ opening.session) }
        ensures issued { OnOk result (pool.new ≡ with_rate_share pool.old) }
        ensures kept { OnErr result (pool.new ≡ pool.old) }
    {
        let Opening {
            session,
            opened,
            blanks,
            places,
        } = opening;
        if !are_places(places) {
            return Err((session, SharedFault::Places));
        }
        let publishing = match publish_first(rt, alloc, opened, places) {
            Ok(publishing) => publishing,
            Err(fault) => return Err((session, fault)),
        };
        let Some(rates) = pool.issue() else {
            return Err((session, SharedFault::PoolPlaces));
        };
        Ok(State::new(alloc, session, publishing, blanks, Some(rates), places))
    }
}

/// What is given back where a session wasn't put behind its lock.
#[derive(Drop)]
pub struct Unopened<C: Drop> {
    /// Why.
    pub fault: SharedFault,
    /// The catalog.
    pub catalog: Arc<C>,
    /// The session, as it was.
    pub session: JournaledState,
}

/// The fault where there is no memory. That of the number of places comes before it.
fn lacks_memory(places: u8) -> SharedFault
    ensures { (result ≡ Places) ↔ ((places ≡ 0) ⊎ (16 < places)) }
{
    if are_places(places) {
        SharedFault::NoMemory
    } else {
        SharedFault::Places
    }
}

impl<C: Offers + Drop, N: Naming, R: Wait + Drop> Shared<'_, C, N, Writer<N, R>> {
    /// Puts a session behind its lock, with its places for workers, beside a desk that has the session's commands so
    /// far. The conditions of the caller are those of [`State::open`], and the catalog is that of the session. A
    /// fault gives catalog and session back; the opened history is then lost. Takes memory. May wait for readers.
    pub fn open(
        rt: R,
        alloc: Global,
        catalog: Arc<C>,
        opening: Opening,
    ) -> Result<(Shared<'static, C, N, Writer<N, R>>, Desk<N>), Unopened<C>>
        requires named { GoesBy N.ledger N.setting N.first N.book N.root
            opening.session.session opening.opened opening.blanks }
        requires fresh { attach_count opening.session.session.journal ≡ 0 }
        requires offers { C.offers (arc_value catalog) ≡ opening.session.session.setting.catalog }
        ensures commands { IfOk result (λ r.
            r.1.commands ≡ reverse (commands opening.session.session.journal)) }
        ensures collected { IfOk result (λ r. r.1.collected ≡ 0) }
        ensures places { IfOk result (λ r. (0 < opening.places) × (opening.places ≤ 16)) }
        ensures fault { IfErr result (λ e.
            (e.fault ≡ Places) ↔ ((opening.places ≡ 0) ⊎ (16 < opening.places))) }
        ensures back { IfErr result (λ e. (e.catalog ≡ catalog) × (e.session ≡ opening.session)) }
    {
        let commands = match commands_so_far(alloc, &opening.session) {
            Ok(commands) => commands,
            Err(_) => {
                return Err(Unopened {
                    fault: lacks_memory(opening.places),
                    catalog,
                    session: opening.session,
                });
            }
        };
        match State::open(rt, alloc, opening) {
            Ok((state, shares)) => {
                Ok((
                    Shared::new(catalog, state, None),
                    Desk::new(commands, shares),
                ))
            }
            Err((session, fault)) => Err(Unopened {
                fault,
                catalog,
                session,
            }),
        }
    }
}

impl<'p, C: Offers + Drop, N: Naming, R: Wait + Drop, P: Pooling> Shared<
    'p,
    C,
    N,
    Writer<N, R>,
    P,
> {
    /// The same for a session without guaranteed rates that gets a share of a pool. The conditions of the caller are
    /// those of [`State::open_within`]. Holds the pool's lock while the first table is published: no reader of it is
    /// there yet, so this waits for none.
    pub fn open_within(
        rt: R,
        alloc: Global,
        catalog: Arc<C>,
        opening: Opening,
        pool: &'p Pool<P>,
    ) -> Result<(Shared<'p, C, N, Writer<N, R>, P>, Desk<N>), Unopened<C>>
        requires there { P.is_there ≡ true }
        requires rates { total_now opening.session.session.setting opening.session.session.journal
            ≡ no_rates }
        requires named { GoesBy N.ledger N.setting N.first N.book N.root
            opening.session.session opening.opened opening.blanks }
        requires fresh { attach_count opening.session.session.journal ≡ 0 }
        requires offers { C.offers (arc_value catalog) ≡ opening.session.session.setting.catalog }
        ensures commands { IfOk result (λ r.
            r.1.commands ≡ reverse (commands opening.session.session.journal)) }
        ensures collected { IfOk result (λ r. r.1.collected ≡ 0) }
        ensures places { IfOk result (λ r. (0 < opening.places) × (opening.places ≤ 16)) }
        ensures fault { IfErr result (λ e.
            (e.fault ≡ Places) ↔ ((opening.places ≡ 0) ⊎ (16 < opening.places))) }
        ensures back { IfErr result (λ e. (e.catalog ≡ catalog) × (e.session ≡ opening.session)) }
    {
        let commands = match commands_so_far(alloc, &opening.session) {
            Ok(commands) => commands,
            Err(_) => {
                return Err(Unopened {
                    fault: lacks_memory(opening.places),
                    catalog,
                    session: opening.session,
                });
            }
        };
        let mut state = pool.state.lock(&rt);
        match State::open_within(rt, alloc, opening, &mut state) {
            Ok((state, shares)) => Ok((
                Shared::new(catalog, state, Some(pool)),
                Desk::new(commands, shares),
            )),
            Err((session, why)) => Err(Unopened {
                fault: why,
                catalog,
                session,
            }),
        }
    }
}
