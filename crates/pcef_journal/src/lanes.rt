//! Where the lanes of a session's workers end.

ghost use Rattle.std.specs.Prelude.{◌≡◌, ◌<◌, ◌≤◌, ◌+◌, ◌^◌, [], ◌++◌, ◌∷◌, false, filter, get_or, length, set};
ghost use Rattle.std.specs.Option.{option_copied, option_map_or};
ghost use Rattle.pcef_journal.specs.Lanes.{just_attached, end_of, left, lengthened};

use arrayvec::ArrayVec;
use std::marker::Model;

/// The most workers that are ever attached to a session.
pub const MAX_WORKERS: usize = 16;

/// Where a worker's lane ends.
#[derive(Clone, Copy, Debug, Default, PartialEq, Eq)]
pub struct LaneEnd {
    /// How many rows the lane has.
    pub rows: u64,
    /// The generation of its newest row, or 0 where it has none.
    pub newest_generation: u32,
    /// Whether the worker is attached.
    pub attached: bool,
}

/// The ends of the lanes of all workers that were ever attached, by their numbers. Takes no memory.
pub struct Lanes {
    ends: ArrayVec<LaneEnd, 16>,
}

// Written out, so that an owner proves one call on each return path.
impl Drop for Lanes {
    fn drop(self) {
        let Lanes { ends: _ } = self;
    }
}

impl Model for Lanes {
    ghost use Rattle.std.specs.Prelude.{List};
    ghost use Rattle.pcef_journal.specs.declared.lanes.LaneEnd.{LaneEnd};

    ghost Value = { List LaneEnd };

    ghost view = { λ lanes. lanes.ends.items };
}

impl Lanes {
    /// No worker was attached.
    pub fn new() -> Lanes
        ensures { result ≡ [] }
    {
        Lanes {
            ends: ArrayVec::new(),
        }
    }

    /// How many workers were ever attached.
    pub fn len(&self) -> usize
        ensures { result ≡ length self.now }
    {
        self.ends.len()
    }

    /// Where the lane of a worker ends, if it was ever attached.
    pub fn get(&self, worker: u8) -> Option<&LaneEnd>
        ensures { option_copied result ≡ end_of self.now worker }
    {
        self.ends.as_slice().get(usize::from(worker))
    }

    /// How many rows the lane of a worker has: none, if it was never attached.
    pub fn rows(&self, worker: u8) -> u64
        ensures { result ≡ option_map_or (λ end. end.rows) (end_of self.now worker) 0 }
    {
        match self.get(worker) {
            Some(end) => end.rows,
            None => 0,
        }
    }

    /// Whether a worker is attached.
    pub fn is_attached(&self, worker: u8) -> bool
        ensures { result ≡ option_map_or (λ end. end.attached) (end_of self.now worker) false }
    {
        match self.get(worker) {
            Some(end) => end.attached,
            None => false,
        }
    }

    /// How many workers are attached.
    pub fn attached_count(&self) -> usize
        ensures number { result ≡ length (filter (λ end. end.attached) self.now) }
        ensures most { result ≤ 16 }
    {
        self.ends
            .as_slice()
            .iter()
            .filter(|end| end.attached)
            .count()
    }

    /// Attaches a worker, with the next number.
    pub fn add_lane(&mut self)
        requires { length self.old < 16 }
        ensures { self.new ≡ self.old ++ just_attached ∷ [] }
    {
        self.ends.push(LaneEnd {
            rows: 0,
            newest_generation: 0,
            attached: true,
        });
    }

    /// Detaches a worker that was attached.
    pub fn leave(&mut self, worker: u8)
        requires { worker < length self.old }
        ensures { self.new ≡ set self.old worker (left (get_or self.old worker just_attached)) }
    {
        let ends = self.ends.as_mut_slice();
        ends[usize::from(worker)].attached = false;
    }

    /// Adds `rows` rows to the lane of a worker, the newest of them by `generation`. The worker was attached at some
    /// time.
    pub fn lengthen(&mut self, worker: u8, rows: u64, generation: u32)
        requires came { worker < length self.old }
        requires fits { (get_or self.old worker just_attached).rows + rows < 2 ^ 64 }
        ensures { self.new
            ≡ set self.old worker (lengthened rows generation (get_or self.old worker just_attached)) }
    {
        let ends = self.ends.as_mut_slice();
        let end = &mut ends[usize::from(worker)];
        end.rows += rows;
        end.newest_generation = generation;
    }
}
