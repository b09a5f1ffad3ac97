//! What a thread does.

ghost use Rattle.std.specs.Prelude.{◌≡◌, [], IfOk};
ghost use Rattle.rtrb.specs.Ring.{received};
ghost use Rattle.pcef_built_in.specs.BuiltIn.{built_in_offers};
ghost use Rattle.pcef_model.specs.ProfileModel.{setting_of};
ghost use Rattle.pcef_sessions.specs.Served.{Serves};
ghost use Rattle.pcef_shards.specs.Intakes.{left_of};
ghost use Rattle.pcef_shards.specs.Served.{ServesPart};

use crate::intake::Intake;
use crate::lane::Lane;
use crate::parcel::{InOrder, Leading, Taker};
use crate::signals::Signals;
use pcef_built_in::ShapedCatalog;
use pcef_model::Profile;
use pcef_script::ScriptFault;
use pcef_sessions::serve;
use rtrb::RingBuffer;
use std::alloc::Global;
use std::hash::RandomState;
use std::io::{Read, Write};
use std::marker::PhantomData;
use std::snapshot::Snapshot;
use std::sync::{Arc, Wait};
use std::thread::{self, Promise, PromisedHandle, Threads};

/// The places of a ring.
const PLACES: usize = 8;

/// How a thread ended.
#[derive(Drop)]
pub struct Ended<W: Write + Drop> {
    /// Its writer.
    pub writer: W,
    /// Whether one of its lines was at fault, or why it ended early.
    pub end: Result<bool, ScriptFault>,
}

/// A thread serves its part of the lines: its number, the profile of its sessions, and its writer at the start.
#[derive(Drop)]
pub(crate) struct Serving<N: Leading, W: Write + Drop> {
    thread: usize,
    profile: Snapshot<Profile>,
    writer: Snapshot<W>,
    of: PhantomData<N>,
}

impl<N: Leading, W: Write + Drop> Promise<Ended<W>> for Serving<N, W> {
    ghost use Rattle.pcef_built_in.specs.BuiltIn.{built_in_offers};
    ghost use Rattle.pcef_model.specs.ProfileModel.{setting_of};
    ghost use Rattle.pcef_shards.specs.Served.{ServesPart};

    ghost kept_by = { λ p e. ServesPart (setting_of p.profile.value built_in_offers) e.end
        (N.part p.thread) (W.contents p.writer.value) (W.contents e.writer) };
}

/// What a thread is to do.
#[derive(Drop)]
pub(crate) struct Task<W: Write + Drop> {
    /// Its number.
    pub(crate) thread: usize,
    /// Takes its answers.
    pub(crate) writer: W,
    /// The profile of its sessions.
    pub(crate) profile: Profile,
    /// For the hash of its sessions' names.
    pub(crate) keys: RandomState,
}

/// A thread in which a writer serves.
pub(crate) type Handle<N, W> = PromisedHandle<Ended<W>, Serving<N, W>>;

/// A thread, and the way to it.
#[derive(Drop)]
pub(crate) struct Shard<N: Leading, W: Write + Drop> {
    pub(crate) lane: Lane<N>,
    pub(crate) handle: Handle<N, W>,
}

/// Serves lines with the built-in rules.
fn serve_shard<R: Read, W: Write>(
    alloc: Global,
    reader: &mut R,
    writer: &mut W,
    profile: Profile,
    keys: RandomState,
) -> Result<bool, ScriptFault>
    ensures { Serves (setting_of profile built_in_offers) result
        (R.remaining reader.old) (R.remaining reader.new)
        (W.contents writer.old) (W.contents writer.new) }
{
    match ShapedCatalog::built_in(alloc) {
        Ok(catalog) => serve(alloc, reader, writer, profile, catalog, keys),
        Err(_) => Err(ScriptFault::NoMemory),
    }
}

/// Whether a thread that ends so stops all. One whose lines have no end doesn't: the others have theirs still.
fn ends_all(end: &Result<bool, ScriptFault>) -> bool {
    match end {
        Ok(_) | Err(ScriptFault::Read) => false,
        Err(_) => true,
    }
}

/// Serves the lines that come by a ring. Stops all where it ends early by itself.
fn work<N: Leading, T: Wait + Drop, W: Write + Drop>(
    alloc: Global,
    intake: Intake<N, T>,
    writer: W,
    profile: Profile,
    keys: RandomState,
    signals: &Signals,
) -> Ended<W>
    ensures { ServesPart (setting_of profile built_in_offers) result.end
        (left_of N.part intake.led) (W.contents writer) (W.contents result.writer) }
{
    let mut intake = intake;
    let mut writer = writer;
    let end = serve_shard(alloc, &mut intake, &mut writer, profile, keys);
    if ends_all(&end) {
        signals.stop();
    }
    Ended { writer, end }
}

/// Starts a thread, which takes from this ring.
fn start_thread<
    N: Leading + Send + Sync + 'static,
    T: Threads + Wait + Drop + Send + Sync + Copy + 'static,
    W: Write + Drop + Send + 'static,
>(
    rt: T,
    alloc: Global,
    signals: Arc<Signals>,
    intake: Intake<N, T>,
    task: Task<W>,
) -> Result<Handle<N, W>, ScriptFault>
    requires { left_of N.part intake.led ≡ N.part task.thread }
    ensures thread { IfOk result (λ h. h.promise.thread ≡ task.thread) }
    ensures profile { IfOk result (λ h. h.promise.profile.value ≡ task.profile) }
    ensures writer { IfOk result (λ h. h.promise.writer.value ≡ task.writer) }
{
    let Task {
        thread,
        writer,
        profile,
        keys,
    } = task;
    let promise = Serving {
        thread,
        profile: Snapshot::of(&profile),
        writer: Snapshot::of(&writer),
        of: PhantomData,
    };
    let job = move || -> Ended<W>
        ensures { ServesPart (setting_of profile built_in_offers) result.end
            (left_of N.part intake.led) (W.contents writer) (W.contents result.writer) }
    { work(alloc, intake, writer, profile, keys, &signals) };
    match thread::spawn_with(&rt, promise, job) {
        Ok(handle) => Ok(handle),
        Err(_) => Err(ScriptFault::NoMemory),
    }
}

/// Starts a thread, and returns the way that leads to it.
pub(crate) fn start<
    N: Leading + Send + Sync + 'static,
    T: Threads + Wait + Drop + Send + Sync + Copy + 'static,
    W: Write + Drop + Send + 'static,
>(rt: T, alloc: Global, signals: &Arc<Signals>, task: Task<W>) -> Result<Shard<N, W>, ScriptFault>
    ensures lane { IfOk result (λ s. s.lane ≡ []) }
    ensures thread { IfOk result (λ s. s.handle.promise.thread ≡ task.thread) }
    ensures profile { IfOk result (λ s. s.handle.promise.profile.value ≡ task.profile) }
    ensures writer { IfOk result (λ s. s.handle.promise.writer.value ≡ task.writer) }
{
    let Ok((way, taker)) = RingBuffer::with_protocol::<Global, InOrder<N>>(alloc, PLACES) else {
        return Err(ScriptFault::NoMemory);
    };
    let (Ok(reading), Ok(working)) = (Arc::try_clone(signals), Arc::try_clone(signals)) else {
        return Err(ScriptFault::NoMemory);
    };
    let intake = Intake::new(rt, reading, task.thread, taker, Vec::new(alloc));
    match start_thread(rt, alloc, working, intake, task) {
        Ok(handle) => Ok(Shard {
            lane: Lane::new(way),
            handle,
        }),
        Err(fault) => Err(fault),
    }
}
