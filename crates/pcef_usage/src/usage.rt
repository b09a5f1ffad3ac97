//! The counters of monitoring keys.

ghost use Rattle.std.specs.Prelude.{◌≡◌, ◌<◌, ◌≤◌, ◌+◌, ◌^◌, ◌↔◌, [], ◌++◌, ◌∷◌, map, length, true, false, IfOk, IsErr, OnErr, OnOk, Some, if◌then◌else◌, ◌≢◌, Err, Ok};
ghost use Rattle.pcef_model.specs.Setting.{same_level};
ghost use Rattle.pcef_usage.specs.Keys.{FitsMore, HasPlaceFor, IsSlotOf, added, at_place, level_clashes, finds_no_place, fresh, has_slot, grant_is_reached, keys_of, place_if, slot_place, places_of, reached_places, reported_on, started, state_at, stopped, ungranted_if_reached, with_slot};

use arrayvec::ArrayVec;
use pcef_model::Level;
use pcef_rule::{KeyName, Slot};
use std::alloc::{AllocError, Global};
use std::marker::Model;
use thiserror::Error;

/// How many keys may have a slot.
pub const MAX_KEYS: usize = 8;

/// Why a key has no slot at a level. Of several faults the first in this order is answered.
#[derive(Clone, Copy, Debug, PartialEq, Eq, Error)]
pub enum SlotFault {
    /// The key has a slot, and another level.
    #[error("the key has another level")]
    LevelClash,
    /// The key has no slot, and there is none left for it.
    #[error("eight keys have a slot already")]
    KeysFull,
    /// There is no memory left.
    #[error("there is no memory left")]
    NoMemory,
}

/// What is kept of a key that has a slot.
#[derive(Debug, Drop)]
pub struct KeyState {
    /// The key.
    pub key: KeyName,
    /// What it counts, for good.
    pub level: Level,
    /// Whether it is on.
    pub on: bool,
    /// Its grant in octets, where it has one.
    pub grant: Option<u64>,
    /// The octets that were reported.
    pub reported: u64,
    /// The octets that were counted and not reported.
    pub unreported: u64,
}

/// Memory for keys that get a slot later.
pub type KeyPlaces = pcef_base::Places<KeyState>;

impl KeyState {
    fn start(&mut self, amount: u64)
        ensures { self.new ≡ started amount self.old }
    {
        self.on = true;
        self.grant = Some(amount);
    }

    fn stop(&mut self)
        ensures { self.new ≡ stopped self.old }
    {
        self.on = false;
        self.grant = None;
    }

    fn count(&mut self, octets: u32)
        requires { self.old.unreported + octets < 2 ^ 64 }
        ensures { self.new ≡ added octets self.old }
    {
        self.unreported += u64::from(octets);
    }

    fn report(&mut self) -> u64
        requires { self.old.reported + self.old.unreported < 2 ^ 64 }
        ensures octets { result ≡ self.old.unreported }
        ensures state { self.new ≡ reported_on self.old }
    {
        let octets = self.unreported;
        self.reported += octets;
        self.unreported = 0;
        octets
    }

    fn is_reached(&self) -> bool
        ensures { result ≡ grant_is_reached self.now }
    {
        match self.grant {
            None => false,
            Some(amount) => self.on && amount <= self.unreported,
        }
    }

    /// Takes the grant where it is reached, and returns whether it was.
    fn settle(&mut self) -> bool
        ensures reached { result ≡ grant_is_reached self.old }
        ensures state { self.new ≡ ungranted_if_reached self.old }
    {
        let is_reached = self.is_reached();
        if is_reached {
            self.grant = None;
        }
        is_reached
    }
}

/// The keys that have a slot, in slot order. It takes memory key by key: see [`KeyPlaces`].
pub struct Usage {
    alloc: Global,
    states: Vec<KeyState>,
}

// Written out, so that an owner proves one call on each return path.
impl Drop for Usage {
    fn drop(self) {
        let Usage {
            alloc: _,
            states: _,
        } = self;
    }
}

impl Model for Usage {
    ghost use Rattle.std.specs.Prelude.{List, ◌≤◌, length};
    ghost use Rattle.pcef_usage.specs.declared.usage.KeyState.{KeyState};
    ghost use Rattle.pcef_usage.specs.Keys.{AllFit};

    ghost Value = { List KeyState };

    ghost view = { λ u. u.states.items };

    ghost invariant = { λ u. (length u.states.items ≤ 8) × AllFit u.states.items };
}

/// Whether two levels are the same.
pub fn is_same_level(a: Level, b: Level) -> bool
    ensures { result ≡ same_level a b }
{
    match (a, b) {
        (Level::Rule, Level::Rule) | (Level::Session, Level::Session) => true,
        _ => false,
    }
}

fn note(reached: &mut ArrayVec<Slot, 8>, is_reached: bool, place: u8)
    requires { length reached.old.items < 8 }
    ensures slots { places_of reached.new.items
        ≡ places_of reached.old.items ++ place_if is_reached place }
    ensures few { length reached.new.items ≤ length reached.old.items + 1 }
{
    if is_reached {
        reached.push(Slot(place));
    }
}

impl Usage {
    /// No key has a slot. Takes no memory.
    pub fn new(alloc: Global) -> Usage
        ensures { result ≡ [] }
    {
        Usage {
            alloc,
            states: Vec::new(alloc),
        }
    }

    /// What is kept of each key that has a slot, in slot order.
    pub fn states(&self) -> &[KeyState]
        ensures states { result.now ≡ self.now }
        ensures few { length result.now ≤ 8 }
    {
        self.states.as_slice()
    }

    /// The slot of a key, if it has one.
    pub fn find(&self, key: &KeyName) -> Option<Slot>
        ensures { IsSlotOf key.now self.now result }
    {
        for (place, state) in self.states().iter().enumerate() {
            if *key == state.key {
                return Some(Slot(place as u8));
            }
        }
        None
    }

    /// Memory for a key to get a slot: none where it has one.
    pub fn places_for(&self, key: &KeyName) -> Result<KeyPlaces, AllocError>
        ensures { IfOk result (λ places. HasPlaceFor (Some key.now) places (keys_of self.now)) }
    {
        match self.find(key) {
            Some(_) => Ok(KeyPlaces::none(self.alloc)),
            None => KeyPlaces::new(self.alloc, self.states.len() + 1),
        }
    }

    /// Gives a key a slot at this level, unless it has one. Takes no memory but these places.
    pub fn keep_slot(&mut self, key: &KeyName, level: Level, places: KeyPlaces)
        requires slot { finds_no_place (Some key.now) self.old ≡ false }
        requires places { HasPlaceFor (Some key.now) places (keys_of self.old) }
        ensures { self.new ≡ with_slot (Some key.now) level self.old }
    {
        if self.find(key).is_none() {
            self.add(key, level, places);
        }
    }

    fn add(&mut self, key: &KeyName, level: Level, places: KeyPlaces)
        requires few { length self.old < 8 }
        requires places { length self.old < places }
        ensures { self.new ≡ self.old ++ fresh key.now level ∷ [] }
    {
        let state = KeyState {
            key: key.copy(),
            level,
            on: false,
            grant: None,
            reported: 0,
            unreported: 0,
        };
        places.take_in(&mut self.states, state);
    }

    /// The slot of a key; a key without one gets the next slot and this level. Or the first fault in the order of
    /// [`SlotFault`], which changes nothing. Takes memory for a new key.
    pub fn slot(&mut self, key: &KeyName, level: Level) -> Result<Slot, SlotFault>
        ensures clash { (result ≡ Err SlotFault.LevelClash)
            ↔ (level_clashes (Some key.now) level self.old ≡ true) }
        ensures full { (result ≡ Err SlotFault.KeysFull)
            ↔ (finds_no_place (Some key.now) self.old ≡ true) }
        ensures unchanged { OnErr result (self.new ≡ self.old) }
        ensures slot { IfOk result (λ s. s.0 ≡ slot_place key.now self.new) }
        ensures states { OnOk result (self.new ≡ with_slot (Some key.now) level self.old) }
    {
        match self.find(key) {
            Some(slot) => self.same_slot(slot, level),
            None => self.next_slot(key, level),
        }
    }

    fn same_slot(&self, slot: Slot, level: Level) -> Result<Slot, SlotFault>
        requires { slot.0 < length self.now }
        ensures { result ≡ (if same_level level (state_at slot.0 self.now).level
            then Ok slot else Err SlotFault.LevelClash) }
    {
        if is_same_level(level, self.level(slot)) {
            Ok(slot)
        } else {
            Err(SlotFault::LevelClash)
        }
    }

    fn next_slot(&mut self, key: &KeyName, level: Level) -> Result<Slot, SlotFault>
        requires { has_slot key.now self.old ≡ false }
        ensures clash { result ≢ Err SlotFault.LevelClash }
        ensures full { (result ≡ Err SlotFault.KeysFull)
            ↔ (finds_no_place (Some key.now) self.old ≡ true) }
        ensures unchanged { OnErr result (self.new ≡ self.old) }
        ensures slot { IfOk result (λ s. s.0 ≡ length self.old) }
        ensures states { OnOk result (self.new ≡ self.old ++ fresh key.now level ∷ []) }
    {
        let place = self.states.len();
        if place >= MAX_KEYS {
            return Err(SlotFault::KeysFull);
        }
        let Ok(places) = KeyPlaces::new(self.alloc, place + 1) else {
            return Err(SlotFault::NoMemory);
        };
        self.add(key, level, places);
        Ok(Slot(place as u8))
    }

    /// What the key of a slot counts.
    pub fn level(&self, slot: Slot) -> Level
        requires { slot.0 < length self.now }
        ensures { result ≡ (state_at slot.0 self.now).level }
    {
        let states = self.states.as_slice();
        states[slot.0 as usize].level
    }

    /// Switches the key of a slot on and sets its grant, in octets.
    pub fn start(&mut self, slot: Slot, amount: u64)
        requires { slot.0 < length self.old }
        ensures { self.new ≡ at_place slot.0 (started amount) self.old }
    {
        self.states[slot.0 as usize].start(amount);
    }

    /// Switches the key of a slot off and takes its grant.
    pub fn stop(&mut self, slot: Slot)
        requires { slot.0 < length self.old }
        ensures { self.new ≡ at_place slot.0 stopped self.old }
    {
        self.states[slot.0 as usize].stop();
    }

    /// Counts octets for the key of a slot.
    pub fn count(&mut self, slot: Slot, octets: u32)
        requires known { slot.0 < length self.old }
        requires fits { FitsMore slot.0 octets self.old }
        ensures { self.new ≡ at_place slot.0 (added octets) self.old }
    {
        self.states[slot.0 as usize].count(octets);
    }

    /// Moves the unreported octets of the key of a slot to the reported ones, and answers how many
    /// they were.
    pub fn take_report(&mut self, slot: Slot) -> u64
        requires { slot.0 < length self.old }
        ensures octets { result ≡ (state_at slot.0 self.old).unreported }
        ensures states { self.new ≡ at_place slot.0 reported_on self.old }
    {
        self.states[slot.0 as usize].report()
    }

    /// While usage reports are subscribed, the slots whose grants are reached, in order: their grants are
    /// taken.
    pub fn settle(&mut self, subscribed: bool) -> ArrayVec<Slot, 8>
        ensures slots { places_of result.items
            ≡ (if subscribed then reached_places 0 self.old else []) }
        ensures states { self.new
            ≡ (if subscribed then map ungranted_if_reached self.old else self.old) }
    {
        let mut reached = ArrayVec::new();
        if !subscribed {
            return reached;
        }
        let mut place: u8 = 0;
        for state in self.states.iter_mut() {
            let is_reached = state.settle();
            note(&mut reached, is_reached, place);
            place += 1;
        }
        reached
    }

    /// The key of a slot.
    pub(crate) fn key(&self, slot: Slot) -> &KeyName
        requires { slot.0 < length self.now }
        ensures { result.now ≡ (state_at slot.0 self.now).key }
    {
        &self.states.as_slice()[slot.0 as usize].key
    }

    /// The octets of the key of a slot that were reported.
    pub fn reported(&self, slot: Slot) -> u64
        requires { slot.0 < length self.now }
        ensures { result ≡ (state_at slot.0 self.now).reported }
    {
        let states = self.states.as_slice();
        states[slot.0 as usize].reported
    }

    /// The octets of the key of a slot that were counted and not reported.
    pub fn unreported(&self, slot: Slot) -> u64
        requires { slot.0 < length self.now }
        ensures { result ≡ (state_at slot.0 self.now).unreported }
    {
        let states = self.states.as_slice();
        states[slot.0 as usize].unreported
    }

    /// Whether the key of a slot is on.
    pub fn is_on(&self, slot: Slot) -> bool
        requires { slot.0 < length self.now }
        ensures { result ≡ (state_at slot.0 self.now).on }
    {
        let states = self.states.as_slice();
        states[slot.0 as usize].on
    }
}
