//! A worker that is attached.

ghost use Rattle.std.specs.Prelude.{◌≡◌};
ghost use Rattle.std.specs.Option.{option_copied};
ghost use Rattle.pcef_world.specs.Apart.{held_apart};
ghost use Rattle.pcef_handle.specs.Attached.{last_of};
ghost use Rattle.pcef_handle.specs.Naming.{NamesAt};
ghost use Rattle.pcef_handle.specs.Working.{Abandons, Attaches, Belongs, Finishes, Flushes, Refreshes, TakesFront, TakesHeader};

use crate::held::OpenSession;
use crate::naming::{NameRefusal, name_at};
use pcef_built_in::ShapedCatalog;
use pcef_flow::FlowCache;
use pcef_front::{FrontFault, read_front, read_plain};
use pcef_model::{AttachFault, FlushRefusal, Verdicts};
use pcef_packet::{Dir, Header, PacketFault};
use pcef_session::Item;
use pcef_world::ApartWorker;
use std::alloc::Global;
use std::marker::Model;

/// How many flows a session and each worker remember: some 10 KB. With 64, one packet in eight of 24 connections in
/// bursts found the place of its flow taken by another one.
pub(crate) const MOST_FLOWS: usize = 128;

/// A worker that is attached: the predefined rules, the worker, the flows that it judged last, and the number of its
/// session. The table that it holds is one of the predefined rules, so a packet is judged without the session.
pub struct AttachedWorker {
    catalog: ShapedCatalog,
    apart: ApartWorker,
    flows: FlowCache,
    session: u64,
}

// Written out, so that an owner proves one call on each return path.
impl Drop for AttachedWorker {
    fn drop(self) {
        let AttachedWorker {
            catalog: _,
            apart: _,
            flows: _,
            session: _,
        } = self;
    }
}

impl Model for AttachedWorker {
    ghost use Rattle.std.specs.Prelude.{◌≤◌};
    ghost use Rattle.pcef_flow.specs.Flows.{Remembers};
    ghost use Rattle.pcef_table.specs.Tables.{IsTable};
    ghost use Rattle.pcef_world.specs.Apart.{held_apart};
    ghost use Rattle.pcef_handle.specs.Attached.{Attached};

    ghost Value = { Attached };

    ghost view = { λ w. record { catalog = w.catalog; apart = w.apart; session = w.session } };

    ghost invariant = { λ w. IsTable w.catalog (held_apart w.apart).entries × (w.apart.handed_over ≤ 4294967295)
        × Remembers w.catalog (held_apart w.apart).entries w.apart.ue w.flows };
}

/// Why no worker is attached: the first reason in this order.
#[derive(Clone, Copy, Debug, PartialEq, Eq)]
pub enum AttachRefusal {
    /// The handle has no session.
    NoSession,
    /// The worker's handle has a worker, which stays.
    AlreadyAttached,
    /// The session's reason.
    Session(AttachFault),
}

/// Why a packet isn't taken: the first reason in this order.
#[derive(Clone, Copy, Debug, PartialEq, Eq)]
pub enum TakeRefusal {
    /// The worker's handle has no worker.
    NoWorker,
    /// The octets are no packet, whatever follows them.
    NoPacket(PacketFault),
    /// The octets of the packet beyond those at hand decide what is read.
    TooFew,
    /// 32 rows wait.
    Full,
    /// There is no memory left.
    NoMemory,
}

/// Why a worker and a session do nothing together: the first reason in this order.
#[derive(Clone, Copy, Debug, PartialEq, Eq)]
pub enum MeetRefusal {
    /// The handle has no session.
    NoSession,
    /// The worker's handle has no worker.
    NoWorker,
    /// The session has another number than the one that the worker was attached to.
    OtherSession,
    /// The session's reason.
    Session(FlushRefusal),
}

impl AttachedWorker {
    /// Attaches a worker to a session. It holds the newest table, and no row waits. A refusal changes nothing of the
    /// session but the memory that it has in reserve.
    pub(crate) fn attach(
        alloc: Global,
        session: &mut OpenSession,
    ) -> Result<AttachedWorker, AttachFault>
        ensures { Attaches session.old result session.new }
    {
        if let Some(fault) = session.world.session().attach_fault() {
            return Err(fault);
        }
        let Ok(catalog) = session.catalog.share() else {
            return Err(AttachFault::NoMemory);
        };
        let Ok(mut flows) = FlowCache::new(alloc, MOST_FLOWS) else {
            return Err(AttachFault::NoMemory);
        };
        match session.world.attach_apart() {
            Ok(apart) => {
                flows.follow(&catalog, apart.held().table());
                Ok(AttachedWorker {
                    catalog,
                    apart,
                    flows,
                    session: session.number,
                })
            }
            Err(fault) => Err(fault),
        }
    }

    /// Its number.
    pub fn number(&self) -> u8
        ensures { result ≡ self.now.apart.worker.number }
    {
        self.apart.number()
    }

    /// The number of the session that it was attached to.
    pub fn session_number(&self) -> u64
        ensures { result ≡ self.now.session }
    {
        self.session
    }

    /// The row that waits last.
    pub fn last(&self) -> Option<&Item>
        ensures { option_copied result ≡ last_of self.now.apart.worker.waiting }
    {
        self.apart.waiting().last()
    }

    /// Writes the name of the rule at a place of the table that is held.
    pub(crate) fn rule_name(&self, place: u8, buffer: &mut [u8]) -> Result<usize, NameRefusal>
        ensures { NamesAt self.now.catalog (held_apart self.now.apart).entries place buffer.old
            result buffer.new }
    {
        name_at(&self.catalog, self.apart.held(), place, buffer)
    }

    /// Judges a packet by the table that is held, and lets its row wait. The place of the rule that decided is returned.
    pub(crate) fn take(&mut self, header: &Header) -> Result<Option<u8>, TakeRefusal>
        ensures { TakesHeader self.old header.now result self.new }
    {
        match self.apart.take(&self.catalog, &mut self.flows, header) {
            Ok(Ok(taken)) => Ok(taken.place),
            Ok(Err(_)) => Err(TakeRefusal::Full),
            Err(_) => Err(TakeRefusal::NoMemory),
        }
    }

    /// Judges a packet of `whole` octets that begins with `front`, and lets its row wait.
    fn take_front(
        &mut self,
        dir: Dir,
        front: &[u8],
        whole: usize,
    ) -> Result<Option<u8>, TakeRefusal>
        ensures { TakesFront self.old dir front.now whole result self.new }
    {
        match read_front(dir, front, whole) {
            Ok(header) => self.take(&header),
            Err(FrontFault::Packet(fault)) => Err(TakeRefusal::NoPacket(fault)),
            Err(FrontFault::TooFew) => Err(TakeRefusal::TooFew),
        }
    }

    /// The same, of a packet that most are like: it is read as a plain one first.
    pub(crate) fn take_packet(
        &mut self,
        dir: Dir,
        front: &[u8],
        whole: usize,
    ) -> Result<Option<u8>, TakeRefusal>
        ensures { TakesFront self.old dir front.now whole result self.new }
    {
        if whole == front.len() {
            if let Some(header) = read_plain(dir, front) {
                return self.take(&header);
            }
        }
        self.take_front(dir, front, whole)
    }

    /// Takes the newest table of its session, and returns the generation's number. Its rows go on waiting.
    pub(crate) fn refresh(&mut self, session: &OpenSession) -> Result<u32, MeetRefusal>
        requires { Belongs session.now self.old }
        ensures { Refreshes session.now self.old result self.new }
    {
        if self.session != session.number {
            return Err(MeetRefusal::OtherSession);
        }
        match session.world.refresh_apart(&mut self.apart) {
            Ok(generation) => {
                self.flows.follow(&self.catalog, self.apart.held().table());
                Ok(generation)
            }
            Err(_) => Err(MeetRefusal::Session(FlushRefusal::NoMemory)),
        }
    }

    /// Hands its rows over to its session, all or none.
    pub(crate) fn flush(&mut self, session: &mut OpenSession) -> Result<Verdicts, MeetRefusal>
        requires { Belongs session.old self.old }
        ensures { Flushes session.old self.old result session.new self.new }
    {
        if self.session != session.number {
            return Err(MeetRefusal::OtherSession);
        }
        match session.world.flush_apart(&mut self.apart) {
            Ok(verdicts) => Ok(verdicts),
            Err(refusal) => Err(MeetRefusal::Session(refusal)),
        }
    }

    /// Hands its last rows over to its session, which it leaves. Where it is refused, nothing changes.
    pub(crate) fn finish(&self, session: &mut OpenSession) -> Result<Verdicts, MeetRefusal>
        requires { Belongs session.old self.now }
        ensures { Finishes session.old self.now result session.new }
    {
        if self.session != session.number {
            return Err(MeetRefusal::OtherSession);
        }
        match session.world.finish_apart(&self.apart) {
            Ok((verdicts, _)) => Ok(verdicts),
            Err(refusal) => Err(MeetRefusal::Session(refusal)),
        }
    }

    /// Leaves its session without its waiting rows, whose number is returned.
    pub(crate) fn abandon(&self, session: &mut OpenSession) -> Result<u8, MeetRefusal>
        requires { Belongs session.old self.now }
        ensures { Abandons session.old self.now result session.new }
    {
        if self.session != session.number {
            return Err(MeetRefusal::OtherSession);
        }
        Ok(session.world.abandon_apart(&self.apart).waiting)
    }
}
