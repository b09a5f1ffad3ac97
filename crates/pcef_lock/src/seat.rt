//! The seats of workers.

ghost use Rattle.std.specs.Prelude.{◌≡◌, ◌<◌, ◌+◌, length};
ghost use mathlib.Core.List.{IsPrefix};
ghost use Rattle.pcef_lock.specs.Judging.{FollowsLast, TakesRow};

use pcef_catalog::{Detects, Offers};
use pcef_flow::FlowCache;
use pcef_packet::{Addr, Header};
use pcef_publish::Subscriber;
use pcef_session::{Batch, RowId};
use pcef_share::{Naming, Shares};

/// What a worker has of a session.
#[derive(Drop)]
pub struct Seat<N: Naming> {
    /// The number of the worker.
    pub worker: u8,
    /// What its rows count.
    pub shares: Shares<N>,
    /// The tables that it has seen, of which it holds the last.
    pub subscriber: Subscriber<N>,
    /// The address of the session's user equipment.
    pub ue: Addr,
}

impl<N: Naming> Seat<N> {
    /// Judges a packet by the table that is held, or by what a cache of its flows remembers; its row then waits, with
    /// this number in the lane. The catalog and the address are those of the session. Takes no lock, no memory, and
    /// doesn't wait.
    pub fn judge<C: Detects>(
        &self,
        catalog: &C,
        flows: &mut FlowCache,
        seq: u64,
        header: &Header,
        waiting: &mut Batch,
    )
        requires offers { C.offers catalog.now ≡ N.setting.catalog }
        requires ue { self.now.ue ≡ N.setting.ue }
        requires follows { FollowsLast N.setting self.now.subscriber flows.old }
        requires room { length waiting.old < 32 }
        ensures taken { TakesRow N.setting N.first self.now.worker seq
            self.now.subscriber header.now waiting.old waiting.new }
        ensures follows { FollowsLast N.setting self.now.subscriber flows.new }
    {
        let (generation, held) = self.subscriber.current();
        let id = RowId {
            worker: self.worker,
            seq,
            generation,
        };
        let Ok(place) = flows.own_place(held, catalog, &self.ue, header) else {
            return waiting.push_stray(id, header);
        };
        let _ = waiting.push_decided(id, header, held, catalog, place);
    }

    /// Reads the published table once, with no lock, and returns the generation that is then held, which is never older
    /// than before. The cache forgets its flows where the table is a newer one. Takes no memory.
    pub fn refresh<C: Offers>(&mut self, catalog: &C, flows: &mut FlowCache) -> u32
        requires offers { C.offers catalog.now ≡ N.setting.catalog }
        requires follows { FollowsLast N.setting self.old.subscriber flows.old }
        ensures grows { IsPrefix self.old.subscriber self.new.subscriber }
        ensures number { result + 1 ≡ N.first + length self.new.subscriber }
        ensures same { self.new ≡ record self.old { subscriber = self.new.subscriber } }
        ensures follows { FollowsLast N.setting self.new.subscriber flows.new }
    {
        let (held, _) = self.subscriber.current();
        let newest = self.subscriber.refresh();
        if newest != held {
            self.follow(catalog, flows);
        }
        newest
    }

    /// Has a cache forget its flows and follow the table that is held. Takes no lock, no memory, and doesn't wait.
    pub fn follow<C: Offers>(&self, catalog: &C, flows: &mut FlowCache)
        requires { C.offers catalog.now ≡ N.setting.catalog }
        ensures { FollowsLast N.setting self.now.subscriber flows.new }
    {
        let (_, held) = self.subscriber.current();
        flows.follow(catalog, held.table());
    }
}
