//! A session with its share of a pool.

ghost use Rattle.std.specs.Prelude.{◌≡◌, ◌<◌, IfOk, OnErr, OnOk, Some};
ghost use Rattle.pcef_model.specs.ProfileModel.{setting_of};
ghost use Rattle.pcef_session.specs.Answers.{AnswersCommandWithin, IsOpened};
ghost use Rattle.pcef_share.specs.Pools.{IsPart, pool_with, room_beside, with_rate_share};
ghost use Rattle.pcef_run.specs.Granting.{rates_of};

use pcef_catalog::Listing;
use pcef_model::{Accepted, Command, OpenFault, Profile, Refusal};
use pcef_session::SessionState;
use pcef_share::{PoolState, Pooling, RateShares};
use std::alloc::Global;
use std::marker::Model;

/// A session with its share of a pool, which is what the guaranteed rates of its rules sum up to. Contracts see the
/// session.
pub struct Member<P: Pooling> {
    session: SessionState,
    rates: RateShares<P>,
}

// Written out, so that an owner proves one call on each return path.
impl<P: Pooling> Drop for Member<P> {
    fn drop(self) {
        let Member {
            session: _,
            rates: _,
        } = self;
    }
}

impl<P: Pooling> Model for Member<P> {
    ghost use Rattle.std.specs.Prelude.{◌≡◌};
    ghost use Rattle.pcef_session.specs.SessionModel.{SessionModel};
    ghost use Rattle.pcef_run.specs.Granting.{rates_of};

    ghost Value = { SessionModel };

    ghost view = { λ m. m.session };

    // Its reports are all kept.
    ghost invariant = { λ m. (m.rates ≡ rates_of m.session) × (m.session.forgotten ≡ 0) };
}

impl<P: Pooling> Member<P> {
    /// Opens a session, which has an empty journal, and gives it a share without rates. Takes memory, and changes
    /// nothing where there is none, or where the profile is at fault.
    pub fn open(
        alloc: Global,
        profile: Profile,
        listing: Listing,
        pool: &mut PoolState<P>,
    ) -> Result<Member<P>, OpenFault>
        requires { pool.old.books.issued < 64 }
        ensures opened { IfOk result (IsOpened (setting_of profile listing)) }
        ensures issued { OnOk result (pool.new ≡ with_rate_share pool.old) }
        ensures refused { OnErr result (pool.new ≡ pool.old) }
    {
        let session = match SessionState::open(alloc, profile, listing) {
            Ok(session) => session,
            Err(fault) => return Err(fault),
        };
        match pool.issue() {
            Some(rates) => Ok(Member { session, rates }),
            None => unreachable!(),
        }
    }

    /// The session, of which no report is forgotten.
    pub fn session(&self) -> &SessionState
        ensures session { result.now ≡ self.now }
        ensures kept { self.now.forgotten ≡ 0 }
    {
        &self.session
    }

    /// Does a command in the room that the pool leaves the session, and gives its share what its rules sum up to then.
    /// A refusal changes nothing.
    pub fn command(
        &mut self,
        command: Command,
        pool: &mut PoolState<P>,
    ) -> Result<Accepted, Refusal>
        ensures answer { AnswersCommandWithin self.old command
            (Some (room_beside pool.old (rates_of self.old))) result self.new }
        ensures setting { self.new.setting ≡ self.old.setting }
        ensures part { IsPart (rates_of self.old) pool.old }
        ensures granted { OnOk result (pool.new
            ≡ pool_with pool.old (rates_of self.old) (rates_of self.new)) }
        ensures refused { OnErr result (pool.new ≡ pool.old) }
        ensures kept { OnErr result (rates_of self.new ≡ rates_of self.old) }
    {
        pool.compare(&mut self.rates);
        let room = pool.room(&self.rates);
        let prepared = match self.session.prepare_within(command, room) {
            Ok(prepared) => prepared,
            Err(refusal) => return Err(refusal),
        };
        let accepted = self.session.settle(prepared);
        match pool.change(&mut self.rates, self.session.rates()) {
            Ok(()) => Ok(accepted),
            Err(_) => unreachable!(),
        }
    }
}
