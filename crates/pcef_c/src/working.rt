//! What a worker and its session do together, as numbers.

ghost use Rattle.std.specs.Prelude.{◌≡◌, None};
ghost use Rattle.pcef_handle.specs.Working.{BelongsTo};
ghost use Rattle.pcef_c.specs.Working.{AbandonReturns, AttachReturns, DropReturns, FinishReturns, FlushReturns, GenerationReturns, RefreshReturns};

use crate::meeting::{
    attach_number, generation_number, left_number, refresh_number, report_number,
};
use pcef_handle::{Handle, WorkerHandle};

/// A worker's handle without a worker.
pub(crate) fn no_worker() -> WorkerHandle
    ensures { result.worker ≡ None }
{
    WorkerHandle::new()
}

/// The number of the newest generation, or that there is no session.
pub(crate) fn generation(handle: &mut Handle) -> usize
    ensures { GenerationReturns handle.old handle.new result }
{
    generation_number(handle.generation())
}

/// Attaches a worker. Returns its number, or why there is none.
pub(crate) fn attach(handle: &mut Handle, worker: &mut WorkerHandle) -> u8
    ensures { AttachReturns handle.old worker.old handle.new worker.new result }
{
    let answer = handle.attach(worker);
    attach_number(answer)
}

/// A worker takes the newest generation. Returns its number, or why it doesn't.
pub(crate) fn refresh(handle: &mut Handle, worker: &mut WorkerHandle) -> u64
    requires { BelongsTo handle.old worker.old }
    ensures { RefreshReturns handle.old worker.old handle.new worker.new result }
{
    let answer = handle.refresh(worker);
    refresh_number(answer)
}

/// A worker hands its rows over. Returns the number of the next report, or why it doesn't.
pub(crate) fn flush(handle: &mut Handle, worker: &mut WorkerHandle) -> u64
    requires { BelongsTo handle.old worker.old }
    ensures { FlushReturns handle.old worker.old handle.new worker.new result }
{
    let answer = handle.flush(worker);
    report_number(answer)
}

/// The same, and the worker leaves.
pub(crate) fn finish(handle: &mut Handle, worker: &mut WorkerHandle) -> u64
    requires { BelongsTo handle.old worker.old }
    ensures { FinishReturns handle.old worker.old handle.new worker.new result }
{
    let answer = handle.finish(worker);
    report_number(answer)
}

/// The worker leaves without its rows. Returns their number, or why it stays.
pub(crate) fn abandon(handle: &mut Handle, worker: &mut WorkerHandle) -> u64
    requires { BelongsTo handle.old worker.old }
    ensures { AbandonReturns handle.old worker.old handle.new worker.new result }
{
    let answer = handle.abandon(worker);
    left_number(answer)
}

/// Drops the worker. Returns 1, or 0 where there was none.
pub(crate) fn drop_worker(worker: &mut WorkerHandle) -> u8
    ensures { DropReturns worker.old worker.new result }
{
    let was_there = worker.worker.is_some();
    worker.drop_worker();
    if was_there { 1 } else { 0 }
}
