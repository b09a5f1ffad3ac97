//! The functions that C calls on workers: each makes one call of a safe function, by pointers to one handle or two.
//! `include/pcef.h` says what the caller owes.

ghost use Rattle.std.specs.Prelude.{◌≡◌, None};
ghost use Rattle.std.specs.Borrow.{sem};
ghost use Rattle.pcef_handle.specs.Working.{BelongsTo};
ghost use Rattle.pcef_handle.specs.declared.held.Handle.{Handle};
ghost use Rattle.pcef_handle.specs.declared.worker.WorkerHandle.{WorkerHandle};
ghost use Rattle.pcef_c.specs.Handles.{lies, worker_lies, worker_room, worker_size};
ghost use Rattle.pcef_c.specs.Taking.{TakesAll};
ghost use Rattle.pcef_c.specs.Working.{AbandonReturns, AttachReturns, DropReturns, FinishReturns, FlushReturns, GenerationReturns, RefreshReturns};

use crate::judging::{CPacket, CVerdict};
use crate::taking::take_all;
use crate::working::{abandon, attach, drop_worker, finish, flush, generation, no_worker, refresh};
use pcef_handle::{Handle, WorkerHandle};
use std::mem::size_of;

/// The size of a worker's handle, in octets. Its room must be aligned to 16.
#[unsafe(no_mangle)]
pub extern "C" fn pcef_worker_size() -> usize
    ensures { result ≡ worker_size }
{
    size_of::<WorkerHandle>()
}

/// Makes a handle without a worker in the room at an address. Takes no memory.
#[unsafe(no_mangle)]
pub unsafe extern "C" fn pcef_worker_room(worker: *mut u8)
    requires* { sem 𝓛 (worker_room worker) }
    ensures* { ∃ₛ (λ (new : WorkerHandle). sem 𝓛 (worker_lies worker new) ∗ ⌜ new.worker ≡ None ⌝) }
{
    std::ptr::write(worker as *mut WorkerHandle, no_worker());
}

/// The number of the session's newest generation, or that there is no session. Takes no memory.
#[unsafe(no_mangle)]
pub unsafe extern "C" fn pcef_generation(at: *mut u8) -> usize
    ghost old: { Handle }
    requires* { sem 𝓛 (lies at old) }
    ensures* { ∃ₛ (λ (new : Handle). sem 𝓛 (lies at new) ∗ ⌜ GenerationReturns old new result ⌝) }
{
    generation(&mut *(at as *mut Handle))
}

/// A worker judges packets in their order by the generation that it holds, as many as there are verdicts, and lets the
/// row of each wait, until one can't be taken for now. Returns the number of those before it. Takes memory for rows.
#[unsafe(no_mangle)]
pub unsafe extern "C" fn pcef_take(
    worker: *mut u8,
    packets: &[CPacket<'_>],
    verdicts: &mut [CVerdict],
) -> usize
    ghost old: { WorkerHandle }
    requires* { sem 𝓛 (worker_lies worker old) }
    ensures* { ∃ₛ (λ (new : WorkerHandle). sem 𝓛 (worker_lies worker new)
        ∗ ⌜ TakesAll packets.now verdicts.old old result verdicts.new new ⌝) }
{
    take_all(packets, verdicts, &mut *(worker as *mut WorkerHandle))
}

/// Drops the worker, if there is one, and frees its memory. Returns 1, or 0 where there was none.
#[unsafe(no_mangle)]
pub unsafe extern "C" fn pcef_drop_worker(worker: *mut u8) -> u8
    ghost old: { WorkerHandle }
    requires* { sem 𝓛 (worker_lies worker old) }
    ensures* { ∃ₛ (λ (new : WorkerHandle). sem 𝓛 (worker_lies worker new) ∗ ⌜ DropReturns old new result ⌝) }
{
    drop_worker(&mut *(worker as *mut WorkerHandle))
}

/// Attaches a worker, which then lies at its own handle: it holds the newest generation, and no row waits. Returns its
/// number, 0 to 15, or why there is none. Takes memory.
#[unsafe(no_mangle)]
pub unsafe extern "C" fn pcef_attach(at: *mut u8, worker: *mut u8) -> u8
    ghost old: { Handle × WorkerHandle }
    requires* { sem 𝓛 (lies at old.0) ∗ sem 𝓛 (worker_lies worker old.1) }
    ensures* { ∃ₛ (λ (new : Handle). ∃ₛ (λ (after : WorkerHandle).
        (sem 𝓛 (lies at new) ∗ sem 𝓛 (worker_lies worker after))
        ∗ ⌜ AttachReturns old.0 old.1 new after result ⌝)) }
{
    attach(
        &mut *(at as *mut Handle),
        &mut *(worker as *mut WorkerHandle),
    )
}

/// A worker takes the newest generation of its session; its rows go on waiting. Returns the generation's number, or why it
/// takes none.
#[unsafe(no_mangle)]
pub unsafe extern "C" fn pcef_refresh(at: *mut u8, worker: *mut u8) -> u64
    ghost old: { Handle × WorkerHandle }
    requires* { sem 𝓛 (lies at old.0) ∗ sem 𝓛 (worker_lies worker old.1) ∗ ⌜ BelongsTo old.0 old.1 ⌝ }
    ensures* { ∃ₛ (λ (new : Handle). ∃ₛ (λ (after : WorkerHandle).
        (sem 𝓛 (lies at new) ∗ sem 𝓛 (worker_lies worker after))
        ∗ ⌜ RefreshReturns old.0 old.1 new after result ⌝)) }
{
    refresh(
        &mut *(at as *mut Handle),
        &mut *(worker as *mut WorkerHandle),
    )
}

/// A worker hands its waiting rows over to its session, all or none. Returns the number of the next report, or why they
/// go on waiting. Takes memory.
#[unsafe(no_mangle)]
pub unsafe extern "C" fn pcef_flush(at: *mut u8, worker: *mut u8) -> u64
    ghost old: { Handle × WorkerHandle }
    requires* { sem 𝓛 (lies at old.0) ∗ sem 𝓛 (worker_lies worker old.1) ∗ ⌜ BelongsTo old.0 old.1 ⌝ }
    ensures* { ∃ₛ (λ (new : Handle). ∃ₛ (λ (after : WorkerHandle).
        (sem 𝓛 (lies at new) ∗ sem 𝓛 (worker_lies worker after))
        ∗ ⌜ FlushReturns old.0 old.1 new after result ⌝)) }
{
    flush(
        &mut *(at as *mut Handle),
        &mut *(worker as *mut WorkerHandle),
    )
}

/// The same with its last rows, and the worker leaves. Returns the number of the next report, or why it stays. Takes
/// memory.
#[unsafe(no_mangle)]
pub unsafe extern "C" fn pcef_finish(at: *mut u8, worker: *mut u8) -> u64
    ghost old: { Handle × WorkerHandle }
    requires* { sem 𝓛 (lies at old.0) ∗ sem 𝓛 (worker_lies worker old.1) ∗ ⌜ BelongsTo old.0 old.1 ⌝ }
    ensures* { ∃ₛ (λ (new : Handle). ∃ₛ (λ (after : WorkerHandle).
        (sem 𝓛 (lies at new) ∗ sem 𝓛 (worker_lies worker after))
        ∗ ⌜ FinishReturns old.0 old.1 new after result ⌝)) }
{
    finish(
        &mut *(at as *mut Handle),
        &mut *(worker as *mut WorkerHandle),
    )
}

/// A worker leaves its session without its waiting rows, which never count. Returns their number, 0 to 32, or why it
/// stays. Takes no memory.
#[unsafe(no_mangle)]
pub unsafe extern "C" fn pcef_abandon(at: *mut u8, worker: *mut u8) -> u64
    ghost old: { Handle × WorkerHandle }
    requires* { sem 𝓛 (lies at old.0) ∗ sem 𝓛 (worker_lies worker old.1) ∗ ⌜ BelongsTo old.0 old.1 ⌝ }
    ensures* { ∃ₛ (λ (new : Handle). ∃ₛ (λ (after : WorkerHandle).
        (sem 𝓛 (lies at new) ∗ sem 𝓛 (worker_lies worker after))
        ∗ ⌜ AbandonReturns old.0 old.1 new after result ⌝)) }
{
    abandon(
        &mut *(at as *mut Handle),
        &mut *(worker as *mut WorkerHandle),
    )
}
