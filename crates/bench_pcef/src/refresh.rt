//! Measures the time of a refresh: tables are published and subscribers refreshed, again and again.
//!
//! `refresh SUBSCRIBERS TABLES REFRESHES` publishes TABLES empty tables, one after the other. After each table
//! each of SUBSCRIBERS subscribers refreshes REFRESHES times. At the end the newest generation is written, and the one
//! that the last subscriber holds.
//!
//! `refresh SUBSCRIBERS TABLES REFRESHES times` writes times on standard error, too: of a refresh that finds a newer
//! table, of one that finds none, and of the swap of an own `Arc` for the newest table. They are taken in turn in one
//! run, with the same subscribers and tables. Each has the least, the median and the 90th percentile over all tables,
//! less the time of a look at the clock.

mod times;

ghost use Rattle.std.specs.Prelude.{◌≡◌, ◌<◌, [], IfOk};
ghost use Rattle.std.specs.Arc.{arc_value};

use crate::arguments::number;
use crate::laps::Lap;
use pcef_index::Indexed;
use pcef_packet::Addr;
use pcef_publish::{Board, Cell, Opened, Publisher, Subscriber};
use pcef_share::Naming;
use std::alloc::{AllocError, Global};
use std::io;
use std::marker::Brand;
use std::sync::{Arc, Wait};
use std::time::Clock;
use times::{Spreads, Times, of_each};

/// What is to be done.
#[derive(Clone, Copy)]
struct Load {
    subscribers: u32,
    tables: u32,
    refreshes: u32,
    is_timed: bool,
}

/// What the words ask for, where three numbers are there, and `times` or nothing.
fn load_of(words: &[String]) -> Option<Load> {
    let (subscribers, tables, refreshes, is_timed) = match words {
        [subscribers, tables, refreshes] => (subscribers, tables, refreshes, false),
        [subscribers, tables, refreshes, word] if word.as_str() == "times" => {
            (subscribers, tables, refreshes, true)
        }
        _ => return None,
    };
    Some(Load {
        subscribers: number(subscribers)?,
        tables: number(tables)?,
        refreshes: number(refreshes)?,
        is_timed,
    })
}

/// The address of the sessions.
const UE: Addr = Addr::V4(0x0a00_0002);

/// The empty table of a generation.
fn empty_table(alloc: Global, generation: u32) -> Result<Arc<Indexed>, AllocError>
    ensures number { IfOk result (λ t. (arc_value t).number ≡ generation) }
    ensures entries { IfOk result (λ t. (arc_value t).entries ≡ []) }
{
    Ok(Arc::new(alloc, Indexed::empty(alloc, generation, UE)?)?)
}

fn refresh_each<N: Naming>(subscribers: &mut [Subscriber<N>], times: u32) {
    for subscriber in subscribers {
        for _ in 0..times {
            subscriber.refresh();
        }
    }
}

/// Swaps each of these for another owner of the newest table.
fn swap_each(held: &mut [Arc<Indexed>], newest: &Arc<Indexed>) -> Result<(), AllocError> {
    for own in held {
        *own = Arc::try_clone(newest)?;
    }
    Ok(())
}

/// `count` owners of a table.
fn owners(
    alloc: Global,
    table: &Arc<Indexed>,
    count: u32,
) -> Result<Vec<Arc<Indexed>>, AllocError> {
    let mut owners = Vec::new(alloc);
    for _ in 0..count {
        owners.push(Arc::try_clone(table)?)?;
    }
    Ok(owners)
}

/// What is timed beside the refreshes, and the times.
#[derive(Drop)]
struct Timed {
    /// As many owners of tables as there are subscribers.
    held: Vec<Arc<Indexed>>,
    times: Times,
}

/// Times one refresh of all subscribers that finds a newer table, one that finds none, the swap of as many owners, and
/// a look at the clock.
fn time_each<N: Naming, C: Clock>(
    clock: &C,
    subscribers: &mut [Subscriber<N>],
    newest: &Arc<Indexed>,
    timed: &mut Timed,
) -> io::Result<()> {
    let mut lap = Lap::begin(clock)?;
    refresh_each(subscribers, 1);
    timed.times.newer.push(lap.end(clock)?)?;
    refresh_each(subscribers, 1);
    timed.times.same.push(lap.end(clock)?)?;
    swap_each(&mut timed.held, newest)?;
    timed.times.own.push(lap.end(clock)?)?;
    timed.times.clock.push(lap.end(clock)?)?;
    Ok(())
}

/// The outcome: the generations at the end, and the times.
#[derive(Clone, Copy)]
struct Reached {
    newest: u32,
    held: u32,
    spreads: Spreads,
}

/// Publishes the next table, and lets each subscriber refresh. Where it is timed, as many owners of tables are swapped,
/// too.
fn publish_next<N: Naming, W: Board<Cell<N>> + Drop, C: Clock>(
    clock: &C,
    alloc: Global,
    load: Load,
    publisher: &mut Publisher<N, W>,
    subscribers: &mut [Subscriber<N>],
    timed: &mut Timed,
) -> Option<()> {
    let generation = publisher.generation().checked_add(1)?;
    let table = empty_table(alloc, generation).ok()?;
    let newest = Arc::try_clone(&table).ok()?;
    publisher.publish(table).ok()?;
    if load.is_timed {
        time_each(clock, subscribers, &newest, timed).ok()?;
    }
    refresh_each(subscribers, load.refreshes);
    Some(())
}

/// Publishes all tables, and returns the newest generation, the one that the last subscriber holds, and the times.
fn publish_all<N: Naming, W: Board<Cell<N>> + Drop, C: Clock>(
    clock: &C,
    alloc: Global,
    load: Load,
    publisher: &mut Publisher<N, W>,
    subscribers: &mut [Subscriber<N>],
) -> Option<Reached> {
    let mut timed = Timed {
        held: owners(alloc, subscribers.last()?.current().1, load.subscribers).ok()?,
        times: Times::new(alloc),
    };
    for _ in 0..load.tables {
        publish_next(clock, alloc, load, publisher, subscribers, &mut timed)?;
    }
    Some(Reached {
        newest: publisher.generation(),
        held: subscribers.last()?.current().0,
        spreads: timed.times.spreads().ok()?,
    })
}

/// The outcome with a publisher of its own.
fn measure_rounds<N: Naming, R: Wait + Drop, C: Clock>(
    rt: R,
    clock: &C,
    alloc: Global,
    opened: Opened,
    load: Load,
) -> Option<Reached>
    requires book { (opened.book ≡ N.book) × (opened.root ≡ N.root) }
    requires first { opened.table.number ≡ N.first }
    requires entries { opened.table.entries ≡ [] }
    requires subscribers { 0 < load.subscribers }
{
    match Publisher::<N, _>::new(rt, alloc, opened, load.subscribers as usize) {
        Ok((mut publisher, mut subscribers)) => {
            publish_all(clock, alloc, load, &mut publisher, &mut subscribers)
        }
        Err(_) => None,
    }
}

/// Prints the times of one refresh or swap of a kind, in hundredths of a nanosecond.
fn print_times(rt: &HostRuntime, name: &str, load: Load, rounds: [u64; 3], look: u64) {
    let [least, median, late] = rounds;
    let least = of_each(least, look, load.subscribers);
    let median = of_each(median, look, load.subscribers);
    let late = of_each(late, look, load.subscribers);
    let _ = eprintln!(rt; "{name}: least {least}, median {median}, ninetieth {late} (1/100 ns)");
}

/// Prints the times of each kind.
fn print_all(rt: &HostRuntime, load: Load, spreads: Spreads) {
    let [look, _, _] = spreads.clock;
    print_times(rt, "newer", load, spreads.newer, look);
    print_times(rt, "same", load, spreads.same, look);
    print_times(rt, "own Arc", load, spreads.own, look);
}

/// Publishes and refreshes as the words ask. False where they ask for nothing.
pub fn measure<R: Wait>(waiting: &R, rt: &HostRuntime, words: &[String]) -> io::Result<bool> {
    let Some(load) = load_of(words) else {
        return Ok(false);
    };
    if load.subscribers == 0 {
        return Ok(false);
    }
    let Ok(first) = empty_table(rt.alloc(), 0) else {
        return Err(AllocError.into());
    };
    let opened = Opened::new(first);
    let Some(reached) = measure_rounds::<Brand, _, _>(waiting, rt, rt.alloc(), opened, load) else {
        return Err(AllocError.into());
    };
    if load.is_timed {
        print_all(rt, load, reached.spreads);
    }
    println!(rt; "newest {} held {}", reached.newest, reached.held)?;
    Ok(true)
}
