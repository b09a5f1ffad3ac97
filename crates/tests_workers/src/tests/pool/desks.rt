//! Two sessions behind locks of their own, on one pool, with a desk each.

ghost use Rattle.std.specs.Prelude.{◌≡◌, [], IfSome, true};
ghost use Rattle.std.specs.Arc.{arc_value};
ghost use Rattle.pcef_session.specs.Answers.{ShowsNewest};
ghost use Rattle.pcef_share.specs.Names.{ledger_at};
ghost use Rattle.pcef_lock.specs.Opening.{GoesBy};

use super::*;
use pcef_journaled::JournaledState;
use pcef_lock::{Desk, Opening, Pool, Shared, Totals, open_history};
use pcef_publish::{Board, Cell, Writer};
use pcef_share::{Blanks, Naming, Pooling, RateBlanks, RateShares};
use std::marker::Brand;
use std::sync::Arc;
use std::thread::join;

/// What two desks are to do.
#[derive(Clone, Copy)]
pub enum Task<'a> {
    /// These steps, one after the other, each once more where it found no memory.
    InTurn(&'a [Step]),
    /// Install and Remove of `voice`, this many times, each desk in a thread of its own.
    AtOnce(u32),
}

/// What two desks were answered.
#[derive(Drop)]
pub struct Seen {
    /// The answers to steps, in their order.
    pub answers: Vec<Result<Accepted, Refusal>>,
    /// How many commands in threads were answered otherwise than they may be.
    pub odd: u64,
}

/// The number of a session's newest generation at its end, and its share of the pool.
#[derive(Drop)]
struct Left<P: Pooling> {
    generation: u32,
    rates: RateShares<P>,
}

/// A session that is to come behind its lock.
#[derive(Drop)]
struct Side {
    catalog: Arc<Listing>,
    opening: Opening,
}

/// A session behind its lock, and its desk.
#[derive(Drop)]
struct Locked<'p, N: Naming, W: Board<Cell<N>> + Drop, P: Pooling> {
    shared: Shared<'p, Listing, N, W, P>,
    desk: Desk<N>,
}

/// A new session, or nothing when out of memory.
fn new_side(alloc: Global) -> Option<Side>
    ensures fresh { IfSome result (λ s. s.opening.session.session.journal ≡ []) }
    ensures offers { IfSome result (λ s.
        arc_value s.catalog ≡ s.opening.session.session.setting.catalog) }
    ensures table { IfSome result (λ s.
        ShowsNewest s.opening.session.session s.opening.opened.table) }
{
    let (profile, listing) = asked(alloc)?;
    let catalog = Arc::new(alloc, listing.share().ok()?).ok()?;
    let session = JournaledState::open(alloc, profile, listing).ok()?;
    match open_history(&session).ok() {
        Some(opened) => {
            let opening = Opening {
                session,
                opened,
                blanks: Blanks::new(),
                places: 1,
            };
            Some(Side { catalog, opening })
        }
        None => None,
    }
}

/// A session behind its lock, on a pool.
fn behind_lock<'p, N: Naming, P: Pooling, R: Wait + Drop>(
    rt: R,
    alloc: Global,
    pool: &'p Pool<P>,
    side: Side,
) -> Option<Locked<'p, N, Writer<N, R>, P>>
    requires named { GoesBy N.ledger N.setting N.first N.book N.root
        side.opening.session.session side.opening.opened side.opening.blanks }
    requires there { P.is_there ≡ true }
    requires fresh { side.opening.session.session.journal ≡ [] }
    requires offers { arc_value side.catalog ≡ side.opening.session.session.setting.catalog }
{
    let Side { catalog, opening } = side;
    match Shared::open_within(rt, alloc, catalog, opening, pool) {
        Ok((shared, desk)) => Some(Locked { shared, desk }),
        Err(_) => None,
    }
}

/// Makes a step at the desk of its session.
fn answer<
    A: Naming,
    B: Naming,
    V: Board<Cell<A>> + Drop,
    W: Board<Cell<B>> + Drop,
    P: Pooling,
    R: Wait,
>(
    rt: &R,
    alloc: Global,
    step: Step,
    one: &mut Locked<'_, A, V, P>,
    other: &mut Locked<'_, B, W, P>,
) -> Option<Result<Accepted, Refusal>> {
    let (session, command) = command_of(alloc, step)?;
    if session == 0 {
        Some(one.desk.command(rt, &one.shared, command))
    } else {
        Some(other.desk.command(rt, &other.shared, command))
    }
}

/// How many of `times` Installs and Removes are answered otherwise than they may be: an Install is accepted, or the
/// pool has no room for it, and a Remove is accepted, or there is nothing to remove.
fn odd_answers<N: Naming, W: Board<Cell<N>> + Drop, P: Pooling, R: Wait>(
    rt: &R,
    alloc: Global,
    times: u32,
    shared: &Shared<'_, Listing, N, W, P>,
    desk: &mut Desk<N>,
) -> u64 {
    let mut odd = 0u64;
    for _ in 0..times {
        if !matches!(
            installed(rt, alloc, shared, desk),
            Some(Ok(_)) | Some(Err(Refusal::PoolUp)),
        ) {
            odd = odd.saturating_add(1);
        }
        let removed = desk.command(rt, shared, Command::Remove(RuleName::known("voice")));
        if !matches!(removed, Ok(_) | Err(Refusal::UnknownRule)) {
            odd = odd.saturating_add(1);
        }
    }
    odd
}

fn installed<N: Naming, W: Board<Cell<N>> + Drop, P: Pooling, R: Wait>(
    rt: &R,
    alloc: Global,
    shared: &Shared<'_, Listing, N, W, P>,
    desk: &mut Desk<N>,
) -> Option<Result<Accepted, Refusal>> {
    let rule = voice(alloc, 64_000, 64_000)?;
    Some(desk.command(rt, shared, Command::Install(rule)))
}

/// What two desks are answered.
fn do_task<
    A: Naming + Send + Sync,
    B: Naming + Send + Sync,
    V: Board<Cell<A>> + Drop + Send,
    W: Board<Cell<B>> + Drop + Send,
    P: Pooling + Send + Sync,
    R: Threads + Wait + Sync,
>(
    rt: &R,
    alloc: Global,
    task: Task<'_>,
    one: &mut Locked<'_, A, V, P>,
    other: &mut Locked<'_, B, W, P>,
) -> Option<Seen> {
    let mut answers = Vec::new(alloc);
    let mut odd = 0u64;
    match task {
        Task::InTurn(steps) => {
            for &step in steps {
                let outcome = match answer(rt, alloc, step, one, other)? {
                    Err(Refusal::NoMemory) => answer(rt, alloc, step, one, other)?,
                    outcome => outcome,
                };
                answers.push(outcome).ok()?;
            }
        }
        Task::AtOnce(times) => {
            let (one, first) = (&one.shared, &mut one.desk);
            let (other, second) = (&other.shared, &mut other.desk);
            let (here, there) = join(
                rt,
                || odd_answers(rt, alloc, times, one, first),
                || odd_answers(rt, alloc, times, other, second),
            );
            odd = here.saturating_add(there);
        }
    }
    Some(Seen { answers, odd })
}

/// What a session has at its end.
fn end_of<N: Naming, W: Board<Cell<N>> + Drop, P: Pooling, R: Wait>(
    rt: &R,
    alloc: Global,
    locked: Locked<'_, N, W, P>,
) -> Option<Left<P>> {
    let Locked { shared, desk } = locked;
    let totals = shared.gather(rt, desk, Vec::new(alloc)).ok()?;
    let Totals {
        session,
        archive: _,
        compared: _,
        rows: _,
        abandoned: _,
        keys: _,
        lists: _,
        rates,
    } = totals;
    Some(Left {
        generation: session.generation(),
        rates: rates?,
    })
}

/// What two sessions behind their locks answer, and what they have at their end.
fn seen_and_left<
    A: Naming + Send + Sync,
    B: Naming + Send + Sync,
    V: Board<Cell<A>> + Drop + Send,
    W: Board<Cell<B>> + Drop + Send,
    P: Pooling + Send + Sync,
    R: Threads + Wait + Sync,
>(
    rt: &R,
    alloc: Global,
    task: Task<'_>,
    one: Locked<'_, A, V, P>,
    other: Locked<'_, B, W, P>,
) -> Option<(Seen, Left<P>, Left<P>)> {
    let mut one = one;
    let mut other = other;
    let seen = do_task(rt, alloc, task, &mut one, &mut other)?;
    let here = end_of(rt, alloc, one)?;
    let there = end_of(rt, alloc, other)?;
    Some((seen, here, there))
}

/// The same, where the second session comes behind its lock by this name.
fn second_named<
    A: Naming + Send + Sync,
    B: Naming + Send + Sync,
    V: Board<Cell<A>> + Drop + Send,
    P: Pooling + Send + Sync,
    R: Threads + Wait + Sync,
>(
    rt: &R,
    alloc: Global,
    task: Task<'_>,
    pool: &Pool<P>,
    one: Locked<'_, A, V, P>,
    side: Side,
) -> Option<(Seen, Left<P>, Left<P>)>
    requires named { GoesBy B.ledger B.setting B.first B.book B.root
        side.opening.session.session side.opening.opened side.opening.blanks }
    requires there { P.is_there ≡ true }
    requires fresh { side.opening.session.session.journal ≡ [] }
    requires offers { arc_value side.catalog ≡ side.opening.session.session.setting.catalog }
{
    let other = behind_lock::<B, P, _>(rt, alloc, pool, side)?;
    seen_and_left(rt, alloc, task, one, other)
}

/// The same, where the first session comes behind its lock by this name.
fn first_named<A: Naming + Send + Sync, P: Pooling + Send + Sync, R: Threads + Wait + Sync>(
    rt: &R,
    alloc: Global,
    task: Task<'_>,
    pool: &Pool<P>,
    side: Side,
) -> Option<(Seen, Left<P>, Left<P>)>
    requires named { GoesBy A.ledger A.setting A.first A.book A.root
        side.opening.session.session side.opening.opened side.opening.blanks }
    requires there { P.is_there ≡ true }
    requires fresh { side.opening.session.session.journal ≡ [] }
    requires offers { arc_value side.catalog ≡ side.opening.session.session.setting.catalog }
{
    let one = behind_lock::<A, P, _>(rt, alloc, pool, side)?;
    let side = new_side(alloc)?;
    second_named::<A, Brand, _, P, R>(rt, alloc, task, pool, one, side)
}

/// What two desks on a pool of this name are answered, and what sessions and pool have at the end.
fn pool_named<P: Pooling + Send + Sync, R: Threads + Wait + Sync>(
    rt: &R,
    alloc: Global,
    task: Task<'_>,
    capacity: Sums,
    blanks: RateBlanks,
) -> Option<(Seen, (u32, u32), Sums)>
    requires there { P.is_there ≡ true }
    requires name { P.ledger ≡ ledger_at blanks }
    requires capacity { P.capacity ≡ capacity }
{
    let pool = Pool::<P>::new(capacity, blanks).ok()?;
    let side = new_side(alloc)?;
    let (seen, here, there) = first_named::<Brand, P, R>(rt, alloc, task, &pool, side)?;
    let generations = (here.generation, there.generation);
    let mut shares = Vec::with_capacity(alloc, 2).ok()?;
    shares.push(here.rates).ok()?;
    shares.push(there.rates).ok()?;
    let found = (pool.granted(rt), pool.compare_all(rt, &mut shares));
    let granted = pool.gather(shares).ok()?;
    if found == (granted, Some(granted)) {
        Some((seen, generations, granted))
    } else {
        None
    }
}

/// What two desks on a pool of this capacity are answered, the number of each session's newest generation at the end,
/// and what the pool has granted then; or nothing when out of memory.
pub fn play_desks<R: Threads + Wait + Sync>(
    rt: &R,
    alloc: Global,
    capacity: Sums,
    task: Task<'_>,
) -> Option<(Seen, (u32, u32), Sums)> {
    pool_named::<Brand, R>(rt, alloc, task, capacity, RateBlanks::new())
}
