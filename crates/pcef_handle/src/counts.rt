//! What a session has counted, and what is left of its limits.

ghost use Rattle.std.specs.Prelude.{◌≡◌};
ghost use Rattle.pcef_handle.specs.Counts.{UsageIn, commands_left, commands_left_in, rows_left, rows_left_in, handle_workers_left, workers_left_in};

use crate::held::{Handle, OpenSession};

/// The octets that the rows of a session counted for a monitoring key.
#[derive(Clone, Copy, Debug, PartialEq, Eq)]
pub struct KeyUsage {
    /// Those that usage reports have.
    pub reported: u64,
    /// The others.
    pub unreported: u64,
}

/// Why there is no usage: the first reason in this order.
#[derive(Clone, Copy, Debug, PartialEq, Eq)]
pub enum UsageRefusal {
    /// The handle has no session.
    NoSession,
    /// No key has this slot yet.
    NoKey,
}

fn rows_left(session: &OpenSession) -> u64
    ensures { result ≡ rows_left session.now }
{
    let state = session.world.session();
    u64::from(state.profile().rows).saturating_sub(state.journal().rows_len())
}

fn commands_left(session: &OpenSession) -> u64
    ensures { result ≡ commands_left session.now }
{
    let state = session.world.session();
    u64::from(state.profile().commands).saturating_sub(state.journal().commands_len())
}

fn workers_left(session: &OpenSession) -> u64
    ensures { result ≡ handle_workers_left session.now }
{
    session.world.session().workers_left() as u64
}

impl Handle {
    /// How many more rows the session takes, if there is one: those that its profile allows, less those that were handed
    /// over. Takes no memory.
    pub fn rows_left(&self) -> Option<u64>
        ensures { result ≡ rows_left_in self.now.session }
    {
        match &self.session {
            Some(session) => Some(rows_left(session)),
            None => None,
        }
    }

    /// How many more commands the session's journal takes, if there is one. Takes no memory.
    pub fn commands_left(&self) -> Option<u64>
        ensures { result ≡ commands_left_in self.now.session }
    {
        match &self.session {
            Some(session) => Some(commands_left(session)),
            None => None,
        }
    }

    /// How many more workers the session attaches, if there is one: 16 in its life, less those that ever were. Takes no
    /// memory.
    pub fn workers_left(&self) -> Option<u64>
        ensures { result ≡ workers_left_in self.now.session }
    {
        match &self.session {
            Some(session) => Some(workers_left(session)),
            None => None,
        }
    }

    /// The usage of the key of a slot: the key that was named n-th has slot n, from 0. Takes no memory.
    pub fn usage(&self, slot: u8) -> Result<KeyUsage, UsageRefusal>
        ensures { UsageIn self.now.session slot result }
    {
        let Some(session) = &self.session else {
            return Err(UsageRefusal::NoSession);
        };
        match session
            .world
            .session()
            .usage()
            .states()
            .get(usize::from(slot))
        {
            Some(state) => Ok(KeyUsage {
                reported: state.reported,
                unreported: state.unreported,
            }),
            None => Err(UsageRefusal::NoKey),
        }
    }
}
