//! The sessions whose packets are taken.

use indexmap::{IndexMap, IndexSet};
use pcef_capture_script::Turn;
use pcef_packet::Addr;
use std::alloc::{AllocError, Global};

/// The addresses of a session.
#[derive(Clone, Copy, Debug, PartialEq, Eq, Hash)]
enum Home {
    /// One address of version 4.
    V4(u32),
    /// All addresses of version 6 that begin with these 64 bits.
    V6(u64),
}

impl Home {
    fn of(address: Addr) -> Home {
        match address {
            Addr::V4(number) => Home::V4(number),
            Addr::V6(number) => Home::V6((number >> 64) as u64),
        }
    }
}

/// Why a session isn't added.
#[derive(Clone, Copy)]
pub(crate) enum Refusal {
    /// There is one of this name.
    NameTwice,
    /// There is one with this address, or with another one of its /64.
    AddressTwice,
    /// There is no memory left.
    NoMemory,
}

/// The sessions whose packets are taken, each with its turn of workers. They are numbered from 0 in the order in which
/// they were added, and found by hashes: of names and of addresses.
#[derive(Drop)]
pub(crate) struct Sessions {
    /// The turns, by address.
    turns: IndexMap<Home, Turn>,
    /// The names, in the same order; none where the only session has none.
    names: IndexSet<String>,
}

impl Sessions {
    /// No sessions.
    pub(crate) fn new(alloc: Global) -> Sessions {
        Sessions {
            turns: IndexMap::new(alloc),
            names: IndexSet::new(alloc),
        }
    }

    /// One session without a name. Takes memory.
    pub(crate) fn one(alloc: Global, address: Addr, turn: Turn) -> Result<Sessions, AllocError> {
        let mut sessions = Sessions::new(alloc);
        sessions.turns.insert(Home::of(address), turn)?;
        Ok(sessions)
    }

    /// Adds a session with a name. Takes memory.
    pub(crate) fn add(&mut self, name: String, address: Addr, turn: Turn) -> Result<(), Refusal> {
        if self.names.contains(&name) {
            return Err(Refusal::NameTwice);
        }
        let home = Home::of(address);
        if self.turns.contains_key(&home) {
            return Err(Refusal::AddressTwice);
        }
        if self.names.insert(name).is_err() {
            return Err(Refusal::NoMemory);
        }
        match self.turns.insert(home, turn) {
            Ok(_) => Ok(()),
            Err(_) => Err(Refusal::NoMemory),
        }
    }

    /// How many there are.
    pub(crate) fn len(&self) -> usize {
        self.turns.len()
    }

    /// The number of the session of an address.
    pub(crate) fn number_of(&self, address: Addr) -> Option<usize> {
        self.turns.get_index_of(&Home::of(address))
    }

    /// The name of a session, if it has one.
    pub(crate) fn name(&self, number: usize) -> Option<&str> {
        match self.names.get_index(number) {
            Some(name) => Some(name.as_str()),
            None => None,
        }
    }

    /// The turn of a session.
    pub(crate) fn turn(&mut self, number: usize) -> Option<&mut Turn> {
        self.turns.get_index_mut(number)
    }
}
