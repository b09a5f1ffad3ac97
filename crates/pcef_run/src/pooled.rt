//! Sessions on one pool.

ghost use Rattle.std.specs.Prelude.{◌≡◌, ◌<◌, IfOk, Some, length, slice_get};
ghost use Rattle.std.specs.Result.{result_err};
ghost use Rattle.pcef_share.specs.Names.{ledger_at};
ghost use Rattle.pcef_run.specs.Granting.{AnswersAt, KeepsOthers, PoolIsExact, granted_to, settings_of};
ghost use Rattle.pcef_run.specs.Opening.{AreOpened, OpensOn};

use crate::member::Member;
use crate::opening::{first_fault, open_members};
use crate::pooled_fault::PooledFault;
use pcef_catalog::Listing;
use pcef_model::{Accepted, Command, Profile, Refusal};
use pcef_rule::Sums;
use pcef_session::SessionState;
use pcef_share::{MAX_RATE_SHARES, PoolState, Pooling, RateBlanks};
use std::alloc::Global;
use std::marker::Model;

/// Sessions that share a pool of guaranteed rates. Contracts see the sessions, in their order, and the pool.
pub struct Pooled<P: Pooling> {
    members: Vec<Member<P>>,
    pool: PoolState<P>,
}

// Written out, so that an owner proves one call on each return path.
impl<P: Pooling> Drop for Pooled<P> {
    fn drop(self) {
        let Pooled {
            members: _,
            pool: _,
        } = self;
    }
}

impl<P: Pooling> Model for Pooled<P> {
    ghost use Rattle.std.specs.Prelude.{◌≡◌};
    ghost use Rattle.pcef_run.specs.Granting.{PooledModel, granted_to};

    ghost Value = { PooledModel };

    ghost view = { λ p. record { sessions = p.members.items; pool = p.pool } };

    ghost invariant = { λ p. p.pool.books.granted ≡ granted_to p.members.items };
}

impl<P: Pooling> Pooled<P> {
    /// Opens a session for each profile and listing, in their order, on a pool of this capacity, in bit/s, of which
    /// nothing is granted. The blanks and the capacity are those that the name stands for. Or answers the first fault in the order of
    /// [`PooledFault`], and gives all up. Takes memory for the sessions and their list.
    pub fn open(
        alloc: Global,
        capacity: Sums,
        profiles: Vec<(Profile, Listing)>,
        blanks: RateBlanks,
    ) -> Result<Pooled<P>, PooledFault>
        requires name { P.ledger ≡ ledger_at blanks }
        requires capacity { P.capacity ≡ capacity }
        ensures answer { OpensOn capacity profiles.items (result_err result) }
        ensures sessions { IfOk result (λ p. AreOpened profiles.items p.sessions) }
        ensures many { IfOk result (λ p. length p.sessions ≡ length profiles.items) }
        ensures capacity { IfOk result (λ p. p.pool.capacity ≡ capacity) }
        ensures granted { IfOk result (λ p. p.pool.books.granted ≡ granted_to p.sessions) }
    {
        if profiles.is_empty() || profiles.len() > MAX_RATE_SHARES {
            return Err(PooledFault::Sessions);
        }
        if let Some(fault) = first_fault(profiles.as_slice()) {
            return Err(fault);
        }
        let mut pool = match PoolState::new(capacity, blanks) {
            Ok(pool) => pool,
            Err(fault) => return Err(PooledFault::Pool(fault)),
        };
        match open_members(alloc, profiles, &mut pool) {
            Ok(members) => Ok(Pooled { members, pool }),
            Err(_) => Err(PooledFault::NoMemory),
        }
    }

    /// The session of a number, which is below the number of sessions. None of its reports is forgotten.
    pub fn session(&self, n: usize) -> &SessionState
        requires { n < length self.now.sessions }
        ensures session { slice_get self.now.sessions n ≡ Some result.now }
        ensures kept { result.now.forgotten ≡ 0 }
    {
        self.members[n].session()
    }

    /// The rates that the pool has granted, in bit/s: the sum over the sessions of what the guaranteed rates of their
    /// rules sum up to. They are within the capacity.
    pub fn granted(&self) -> Sums
        ensures sums { result ≡ granted_to self.now.sessions }
        ensures exact { PoolIsExact self.now }
    {
        self.pool.granted()
    }

    /// Does a command on the session of a number, which is below the number of sessions, in the room that the others
    /// leave it; or answers the first refusal in the order of [`Refusal`], which changes nothing. Every other session
    /// stays as it was, and so does what is fixed for this one. Takes memory.
    pub fn command(&mut self, n: usize, command: Command) -> Result<Accepted, Refusal>
        requires { n < length self.old.sessions }
        ensures answer { AnswersAt n self.old command result self.new }
        ensures settings { settings_of self.new.sessions ≡ settings_of self.old.sessions }
        ensures others { KeepsOthers n self.old self.new }
        ensures many { length self.new.sessions ≡ length self.old.sessions }
        ensures capacity { self.new.pool.capacity ≡ self.old.pool.capacity }
        ensures granted { self.new.pool.books.granted ≡ granted_to self.new.sessions }
    {
        self.members[n].command(command, &mut self.pool)
    }
}
