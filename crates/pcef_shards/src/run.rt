//! Serves lines from a reader in threads.

ghost use Rattle.std.specs.Prelude.{◌≡◌, ◌++◌, ◌∷◌, ◌<◌, All, IfOk, OnOk, ◌≤◌, [], length, vec_capacity, vec_len};
ghost use Rattle.pcef_built_in.specs.BuiltIn.{built_in_offers};
ghost use Rattle.pcef_model.specs.ProfileModel.{setting_of};
ghost use Rattle.pcef_shards.specs.Leading.{part_known};
ghost use Rattle.pcef_shards.specs.Served.{EachServes};
ghost use Rattle.pcef_shards.specs.Sorted.{IsSorted};
ghost use Rattle.pcef_shards.specs.Ways.{led_to};
ghost use Rattle.pcef_shards.specs.private.Started.{AreFor, HaveKept};

use crate::feeding::feed;
use crate::lane::Lane;
use crate::parcel::Leading;
use crate::shard::{Ended, Handle, Shard, Task, start};
use crate::signals::Signals;
use crate::sorting::Sorting;
use pcef_model::Profile;
use pcef_script::ScriptFault;
use std::alloc::Global;
use std::hash::RandomState;
use std::io::{Read, Write};
use std::marker::Brand;
use std::sync::{Arc, Wait};
use std::thread::{self, JoinHandle, Threads};

/// Random keys for two hashes.
#[derive(Clone, Copy)]
pub struct Keys {
    /// For that which picks the thread of a line.
    pub lines: RandomState,
    /// For that of the names in a thread.
    pub names: RandomState,
}

/// The outcome of a run of threads.
#[derive(Drop)]
pub struct Ran<W: Write + Drop> {
    /// How each thread ended, in the order of their writers.
    pub threads: Vec<Ended<W>>,
    /// Whether the thread that read found no memory, so that the others got no end of their lines.
    pub lacks_memory: bool,
}

/// A profile of the same values.
fn same(profile: &Profile) -> Profile
    ensures { result ≡ profile.now }
{
    Profile {
        ue: profile.ue,
        default_qos: profile.default_qos,
        capacity: profile.capacity,
        qcis: profile.qcis,
        rows: profile.rows,
        commands: profile.commands,
    }
}

/// What the threads are to do.
#[derive(Drop)]
struct Tasks<'a, W: Write + Drop> {
    /// Takes the answers, one for each thread.
    writers: Vec<W>,
    /// The profile of all sessions.
    profile: &'a Profile,
    /// For the hash of names.
    keys: RandomState,
}

/// The threads, and the ways that lead to them.
#[derive(Drop)]
struct Started<N: Leading, W: Write + Drop> {
    lanes: Vec<Lane<N>>,
    handles: Vec<Handle<N, W>>,
}

/// Puts one more at the end. Fails when out of memory.
fn keep<T: Drop>(all: &mut Vec<T>, one: T) -> Result<(), ScriptFault>
    ensures { OnOk result (all.new.items ≡ all.old.items ++ one ∷ []) }
{
    match all.push(one) {
        Ok(()) => Ok(()),
        Err(_) => Err(ScriptFault::NoMemory),
    }
}

impl<N: Leading, W: Write + Drop> Started<N, W> {
    /// One thread more. Fails when out of memory.
    fn add(&mut self, shard: Shard<N, W>) -> Result<(), ScriptFault>
        ensures lanes { OnOk result
            (self.new.lanes.items ≡ self.old.lanes.items ++ shard.lane ∷ []) }
        ensures handles { OnOk result
            (self.new.handles.items ≡ self.old.handles.items ++ shard.handle ∷ []) }
    {
        let Shard { lane, handle } = shard;
        keep(&mut self.lanes, lane)?;
        keep(&mut self.handles, handle)
    }
}

/// Starts a thread for each writer.
fn start_each<
    N: Leading + Send + Sync + 'static,
    T: Threads + Wait + Drop + Send + Sync + Copy + 'static,
    W: Write + Drop + Send + 'static,
>(
    rt: T,
    alloc: Global,
    signals: &Arc<Signals>,
    tasks: Tasks<'_, W>,
) -> Result<Started<N, W>, ScriptFault>
    ensures many { IfOk result (λ s. length s.lanes.items ≡ length tasks.entry.writers.items) }
    ensures threads { IfOk result (λ s. vec_len s.handles ≡ vec_len tasks.entry.writers) }
    ensures lanes { IfOk result (λ s. All (λ lane. lane ≡ []) s.lanes.items) }
    ensures handles { IfOk result (λ s.
        AreFor tasks.entry.profile.now 0 tasks.entry.writers.items s.handles.items) }
{
    let Tasks {
        writers,
        profile,
        keys,
    } = tasks;
    let mut started = Started {
        lanes: Vec::new(alloc),
        handles: Vec::new(alloc),
    };
    for writer in writers {
        let task = Task {
            thread: started.handles.len(),
            writer,
            profile: same(profile),
            keys,
        };
        let shard = start::<N, T, W>(rt, alloc, signals, task)?;
        started.add(shard)?;
    }
    Ok(started)
}

/// Starts a thread for each writer, and makes a list with room for how each ends. Where one can't be started, wakes
/// those that were, whose lines have no end.
fn start_all<
    N: Leading + Send + Sync + 'static,
    T: Threads + Wait + Drop + Send + Sync + Copy + 'static,
    W: Write + Drop + Send + 'static,
>(
    rt: T,
    alloc: Global,
    signals: &Arc<Signals>,
    tasks: Tasks<'_, W>,
) -> Result<(Started<N, W>, Vec<Ended<W>>), ScriptFault>
    ensures many { IfOk result (λ r. length r.0.lanes.items ≡ length tasks.entry.writers.items) }
    ensures lanes { IfOk result (λ r. All (λ lane. lane ≡ []) r.0.lanes.items) }
    ensures handles { IfOk result (λ r.
        AreFor tasks.entry.profile.now 0 tasks.entry.writers.items r.0.handles.items) }
    ensures empty { IfOk result (λ r. r.1.items ≡ []) }
    ensures room { IfOk result (λ r. vec_len r.0.handles ≤ vec_capacity r.1) }
{
    let Ok(room) = Vec::with_capacity(alloc, tasks.writers.len()) else {
        return Err(ScriptFault::NoMemory);
    };
    match start_each::<N, T, W>(rt, alloc, signals, tasks) {
        Ok(started) => Ok((started, room)),
        Err(fault) => {
            signals.wake_all();
            Err(fault)
        }
    }
}

/// Waits for each thread. How each ended goes into a list that has room for all, so that nothing ends the wait early.
fn join_all<N: Leading, T: Threads, W: Write + Drop>(
    rt: &T,
    handles: Vec<Handle<N, W>>,
    room: Vec<Ended<W>>,
) -> Vec<Ended<W>>
    requires empty { room.items ≡ [] }
    requires room { vec_len handles ≤ vec_capacity room }
    ensures { HaveKept W.contents N.part handles.items result.items }
{
    let mut all = room;
    for handle in handles {
        all.push_reserved(handle.join(rt));
    }
    all
}

/// Whether no thread ended early.
fn are_whole<W: Write + Drop>(all: &[Ended<W>]) -> bool {
    all.iter().all(|ended| ended.end.is_ok())
}

/// Starts the thread that reads. Fails where there is no thread for it; the others then get no lines.
fn start_reading<
    N: Leading + Send + Sync + 'static,
    T: Threads + Wait + Drop + Send + Sync + Copy + 'static,
    R: Read + Drop + Send + 'static,
>(
    rt: T,
    signals: &Arc<Signals>,
    reader: R,
    sorting: Sorting,
    lanes: Vec<Lane<N>>,
) -> Result<JoinHandle<()>, ScriptFault>
    requires sorted { IsSorted sorting.picking.keys (length lanes.items) (led_to lanes.items) sorting [] }
    requires parts { N.part ≡ part_known sorting.picking.keys (length lanes.items) (R.remaining reader) }
{
    let Ok(theirs) = Arc::try_clone(signals) else {
        return Err(ScriptFault::NoMemory);
    };
    let job = move ||
        requires sorted { IsSorted sorting.picking.keys (length lanes.items) (led_to lanes.items) sorting [] }
        requires parts { N.part ≡ part_known sorting.picking.keys (length lanes.items) (R.remaining reader) }
    {
        let mut reader = reader;
        feed(&rt, &theirs, &mut reader, sorting, lanes);
    };
    match thread::spawn(&rt, job) {
        Ok(reading) => Ok(reading),
        Err(_) => Err(ScriptFault::NoMemory),
    }
}

/// Runs threads to which their parts are led.
fn run_named<
    N: Leading + Send + Sync + 'static,
    T: Threads + Wait + Drop + Send + Sync + Copy + 'static,
    R: Read + Drop + Send + 'static,
    W: Write + Drop + Send + 'static,
>(
    rt: T,
    alloc: Global,
    reader: R,
    sorting: Sorting,
    signals: Arc<Signals>,
    tasks: Tasks<'_, W>,
) -> Result<Ran<W>, ScriptFault>
    requires sorted { IsSorted sorting.picking.keys (length tasks.writers.items) (λ t. []) sorting [] }
    requires parts { N.part
        ≡ part_known sorting.picking.keys (length tasks.writers.items) (R.remaining reader) }
    ensures { IfOk result (λ ran.
        EachServes (setting_of tasks.entry.profile.now built_in_offers) W.contents
        (part_known sorting.picking.keys (length tasks.entry.writers.items) (R.remaining reader)) 0
        tasks.entry.writers.items ran.threads.items) }
{
    let (started, room) = start_all::<N, T, W>(rt, alloc, &signals, tasks)?;
    let Started { lanes, handles } = started;
    let reading = match start_reading(rt, &signals, reader, sorting, lanes) {
        Ok(reading) => reading,
        Err(fault) => {
            signals.wake_all();
            return Err(fault);
        }
    };
    let threads = join_all(&rt, handles, room);
    if are_whole(&threads) {
        reading.join(&rt);
    }
    Ok(Ran {
        threads,
        lacks_memory: signals.lacks_memory(),
    })
}

/// Answers each line of many sessions of a profile, in as many threads as there are writers.
///
/// A thread of its own reads in blocks of at most 65,536 octets. What stands in a line before its first space picks the
/// thread that answers, by a hash with `keys.lines`; a thread owns its sessions, and answers as [`serve`] does, on its
/// own writer. The keys are to be random, since strangers choose names. That there is a writer is the caller's
/// condition.
///
/// A thread that ends early, but for want of lines, stops all. Then, and where memory, a ring or a thread is missing,
/// the thread that reads is left behind: it ends after the block that it waits for. Fails with
/// [`ScriptFault::NoMemory`] alone, where not all threads could be started; those that were end. Takes memory for
/// blocks and rings, and what the sessions keep. Waits for lines and for the threads.
///
/// [`serve`]: pcef_sessions::serve
pub fn serve_in_threads<
    T: Threads + Wait + Drop + Send + Sync + Copy + 'static,
    R: Read + Drop + Send + 'static,
    W: Write + Drop + Send + 'static,
>(
    rt: T,
    alloc: Global,
    reader: R,
    writers: Vec<W>,
    profile: &Profile,
    keys: Keys,
) -> Result<Ran<W>, ScriptFault>
    requires { 0 < length writers.items }
    ensures { IfOk result (λ ran. EachServes (setting_of profile.now built_in_offers) W.contents
        (part_known keys.lines (length writers.items) (R.remaining reader)) 0
        writers.items ran.threads.items) }
{
    let threads = writers.len();
    let (Ok(sorting), Ok(signals)) = (
        Sorting::new(alloc, keys.lines, threads),
        Signals::new(alloc, threads),
    ) else {
        return Err(ScriptFault::NoMemory);
    };
    let Ok(signals) = Arc::new(alloc, signals) else {
        return Err(ScriptFault::NoMemory);
    };
    let tasks = Tasks {
        writers,
        profile,
        keys: keys.names,
    };
    run_named::<Brand, T, R, W>(rt, alloc, reader, sorting, signals, tasks)
}
