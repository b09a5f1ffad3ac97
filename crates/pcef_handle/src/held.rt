//! The state of a handle.

ghost use Rattle.std.specs.Prelude.{◌≡◌, None};

use pcef_built_in::ShapedCatalog;
use pcef_line::LineReader;
use pcef_world::WorldState;
use std::alloc::Global;

/// A session that is open: the predefined rules, the session with its workers, and the reader of its lines.
pub struct OpenSession {
    /// The predefined rules.
    pub catalog: ShapedCatalog,
    /// The session and its workers.
    pub world: WorldState,
    /// Reads the lines.
    pub lines: LineReader,
    /// Its number among the sessions of its handle.
    pub number: u64,
    pub ghost offered: { catalog ≡ world.session.setting.catalog },
}

// Written out, so that an owner proves one call on each return path.
impl Drop for OpenSession {
    fn drop(self) {
        let OpenSession {
            catalog: _,
            world: _,
            lines: _,
            number: _,
        } = self;
    }
}

/// The state of a handle: a session, while one is open.
#[derive(Drop)]
pub struct Handle {
    /// The allocator of all its memory.
    pub alloc: Global,
    /// The session.
    pub session: Option<OpenSession>,
    /// The number that the next session gets.
    pub next_number: u64,
}

impl Handle {
    /// A handle without a session, whose first one gets number 0. Takes no memory.
    pub fn new(alloc: Global) -> Handle
        ensures session { result.session ≡ None }
        ensures number { result.next_number ≡ 0 }
    {
        Handle {
            alloc,
            session: None,
            next_number: 0,
        }
    }

    /// The sessions to come get this number and those behind it. A session that is open keeps its own.
    pub fn number_from(&mut self, number: u64)
        ensures session { self.new.session ≡ self.old.session }
        ensures number { self.new.next_number ≡ number }
    {
        self.next_number = number;
    }

    /// Drops the session, if there is one, and frees all its memory.
    pub fn close(&mut self)
        ensures session { self.new.session ≡ None }
        ensures number { self.new.next_number ≡ self.old.next_number }
    {
        self.session = None;
    }
}
