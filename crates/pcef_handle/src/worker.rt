//! A worker of a session in a handle of its own: a thread of its own may have it, and it judges without the session.

ghost use Rattle.std.specs.Prelude.{◌≡◌, None};
ghost use Rattle.pcef_handle.specs.Working.{AbandonsWorker, AttachesWorker, BelongsTo, FinishesWorker, FlushesWorker, RefreshesWorker, TakesPacket, generation_in};

use crate::attached::{AttachRefusal, AttachedWorker, MeetRefusal, TakeRefusal};
use crate::held::Handle;
use pcef_packet::Dir;

/// The state of a worker's handle: a worker, while one is attached.
#[derive(Drop)]
pub struct WorkerHandle {
    /// The worker.
    pub worker: Option<AttachedWorker>,
}

impl WorkerHandle {
    /// A handle without a worker. Takes no memory.
    pub fn new() -> WorkerHandle
        ensures { result.worker ≡ None }
    {
        WorkerHandle { worker: None }
    }

    /// Drops the worker, if there is one, and frees its memory. Its rows never count, and its session goes on taking it
    /// for attached.
    pub fn drop_worker(&mut self)
        ensures { self.new.worker ≡ None }
    {
        self.worker = None;
    }

    /// Judges a packet of `whole` octets by the table that the worker holds, and lets its row wait. The packet begins
    /// with `octets`; those beyond `whole` are ignored. Returns the place of the rule that decided, where one did.
    /// `TooFew` where two packets that begin so are read differently. A refusal changes nothing. Takes memory for the
    /// rows that wait.
    pub fn take(&mut self, dir: Dir, octets: &[u8], whole: usize) -> Result<Option<u8>, TakeRefusal>
        ensures { TakesPacket self.old dir octets.now whole result self.new }
    {
        let Some(worker) = &mut self.worker else {
            return Err(TakeRefusal::NoWorker);
        };
        worker.take_packet(dir, octets, whole)
    }
}

impl Handle {
    /// The number of the session's newest generation, if there is a session. Takes no memory.
    pub fn generation(&self) -> Option<u32>
        ensures { result ≡ generation_in self.now.session }
    {
        match &self.session {
            Some(session) => Some(session.world.session().indexed().generation()),
            None => None,
        }
    }

    /// Attaches a worker, which then lies in its own handle: it holds the newest table, and no row waits. Its number is
    /// returned, 0 to 15. Takes memory. A refusal changes nothing.
    pub fn attach(&mut self, worker: &mut WorkerHandle) -> Result<u8, AttachRefusal>
        ensures attaches { AttachesWorker self.old worker.old result self.new worker.new }
        ensures number { self.new.next_number ≡ self.old.next_number }
    {
        let Some(session) = &mut self.session else {
            return Err(AttachRefusal::NoSession);
        };
        if worker.worker.is_some() {
            return Err(AttachRefusal::AlreadyAttached);
        }
        match AttachedWorker::attach(self.alloc, session) {
            Ok(attached) => {
                let number = attached.number();
                worker.worker = Some(attached);
                Ok(number)
            }
            Err(fault) => Err(AttachRefusal::Session(fault)),
        }
    }

    /// A worker takes the newest table of its session, and the generation's number is returned. Its rows go on waiting,
    /// each with its verdict. A refusal changes nothing.
    pub fn refresh(&self, worker: &mut WorkerHandle) -> Result<u32, MeetRefusal>
        requires { BelongsTo self.now worker.old }
        ensures { RefreshesWorker self.now worker.old result worker.new }
    {
        let Some(session) = &self.session else {
            return Err(MeetRefusal::NoSession);
        };
        let Some(worker) = &mut worker.worker else {
            return Err(MeetRefusal::NoWorker);
        };
        worker.refresh(session)
    }

    /// A worker hands its waiting rows over to its session, all or none, and the number of the next report is returned.
    /// Takes memory. A refusal changes nothing.
    pub fn flush(&mut self, worker: &mut WorkerHandle) -> Result<u64, MeetRefusal>
        requires { BelongsTo self.old worker.old }
        ensures flushes { FlushesWorker self.old worker.old result self.new worker.new }
        ensures number { self.new.next_number ≡ self.old.next_number }
    {
        let Some(session) = &mut self.session else {
            return Err(MeetRefusal::NoSession);
        };
        let Some(worker) = &mut worker.worker else {
            return Err(MeetRefusal::NoWorker);
        };
        match worker.flush(session) {
            Ok(verdicts) => Ok(verdicts.past_last_report),
            Err(refusal) => Err(refusal),
        }
    }

    /// A worker hands its last rows over to its session and leaves it, and the number of the next report is returned.
    /// Where it is refused, nothing changes. Takes memory.
    pub fn finish(&mut self, worker: &mut WorkerHandle) -> Result<u64, MeetRefusal>
        requires { BelongsTo self.old worker.old }
        ensures finishes { FinishesWorker self.old worker.old result self.new worker.new }
        ensures number { self.new.next_number ≡ self.old.next_number }
    {
        let Some(session) = &mut self.session else {
            return Err(MeetRefusal::NoSession);
        };
        let Some(attached) = &worker.worker else {
            return Err(MeetRefusal::NoWorker);
        };
        match attached.finish(session) {
            Ok(verdicts) => {
                worker.worker = None;
                Ok(verdicts.past_last_report)
            }
            Err(refusal) => Err(refusal),
        }
    }

    /// A worker leaves its session without its waiting rows, which never count. Their number is returned, 0 to 32.
    pub fn abandon(&mut self, worker: &mut WorkerHandle) -> Result<u8, MeetRefusal>
        requires { BelongsTo self.old worker.old }
        ensures abandons { AbandonsWorker self.old worker.old result self.new worker.new }
        ensures number { self.new.next_number ≡ self.old.next_number }
    {
        let Some(session) = &mut self.session else {
            return Err(MeetRefusal::NoSession);
        };
        let Some(attached) = &worker.worker else {
            return Err(MeetRefusal::NoWorker);
        };
        match attached.abandon(session) {
            Ok(rows) => {
                worker.worker = None;
                Ok(rows)
            }
            Err(refusal) => Err(refusal),
        }
    }
}

fn is_send<T: Send>(_value: &T) {}

/// Both handles may go to other threads: that is what their types say of them.
pub fn handles_are_send(handle: &Handle, worker: &WorkerHandle) {
    is_send(handle);
    is_send(worker);
}
