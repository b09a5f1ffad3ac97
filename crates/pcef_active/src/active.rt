//! Active rules by name.

ghost use Rattle.std.specs.Prelude.{◌≡◌, ◌≤◌, ◌<◌, ◌+◌, [], filter, length, slice_get, IsOk, OnOk};
ghost use Rattle.std.specs.List.{list_any};
ghost use Rattle.std.specs.Option.{option_map};
ghost use Rattle.pcef_bearer.specs.Bindings.{is_bound_as};
ghost use Rattle.pcef_active.specs.ByName.{is_kept_as, is_still_bound, put_kept, without_kept};

use indexmap::IndexMap;
use pcef_bearer::Bearers;
use pcef_rule::RuleName;
use pcef_table::Source;
use std::alloc::{AllocError, Global};
use std::marker::Model;

/// The active rules of a session by their names, in the order in which they became active.
pub struct ActiveRules {
    rules: IndexMap<RuleName, Source>,
}

// Written out, so that an owner proves one call on each return path.
impl Drop for ActiveRules {
    fn drop(self) {
        let ActiveRules { rules: _ } = self;
    }
}

impl Model for ActiveRules {
    ghost use Rattle.indexmap.specs.IndexMap.{spare};
    ghost use Rattle.pcef_active.specs.ByName.{RulesByName};

    ghost Value = { RulesByName };

    ghost view = { λ active. record { rules = active.rules.entries; room = spare active.rules } };
}

impl ActiveRules {
    /// No rules. Takes no memory.
    pub fn new(alloc: Global) -> ActiveRules
        ensures { result.rules ≡ [] }
    {
        ActiveRules {
            rules: IndexMap::new(alloc),
        }
    }

    /// How many rules are active.
    pub fn len(&self) -> usize
        ensures { result ≡ length self.now.rules }
    {
        self.rules.len()
    }

    /// Whether a rule of this name is active.
    pub fn contains(&self, name: &RuleName) -> bool
        ensures { result ≡ list_any (is_kept_as name.now) self.now.rules }
    {
        self.rules.contains_key(name)
    }

    /// The name and the source of the rule at a place of that order, counted from 0.
    pub fn get_index(&self, place: usize) -> Option<(&RuleName, &Source)>
        ensures { option_map (λ e. (e.0.now, e.1.now)) result ≡ slice_get self.now.rules place }
    {
        self.rules.get_index(place)
    }

    /// Makes room for `additional` more rules, or leaves the room as it was when out of memory.
    pub fn reserve(&mut self, additional: usize) -> Result<(), AllocError>
        ensures same { self.new.rules ≡ self.old.rules }
        ensures ok { OnOk result (additional ≤ self.new.room) }
        ensures room { self.old.room ≤ self.new.room }
        ensures enough { additional ≤ self.old.room → IsOk result }
    {
        self.rules.reserve(additional)
    }

    /// Puts an active rule in the place of the one of its name, or behind all others. Takes no memory.
    pub fn put(&mut self, name: RuleName, source: Source)
        requires { 0 < self.old.room }
        ensures rules { self.new.rules ≡ put_kept (name, source) self.old.rules }
        ensures room { self.old.room ≤ self.new.room + 1 }
    {
        match self.rules.insert(name, source) {
            Ok(_) => {}
            Err(_) => unreachable!(),
        }
    }

    /// Removes the rule of this name, if it is active. The others keep their order.
    pub fn remove(&mut self, name: &RuleName)
        ensures rules { self.new.rules ≡ without_kept name.now self.old.rules }
        ensures room { self.old.room ≤ self.new.room }
    {
        // For its contract on the names: each of them occurs once.
        let _count = self.rules.len();
        let _removed = self.rules.shift_remove(name);
    }

    /// Removes the rules that are no longer bound to a bearer. The others keep their order.
    pub fn retain_bound(&mut self, bearers: &Bearers)
        ensures rules { self.new.rules ≡ filter (is_still_bound bearers.now) self.old.rules }
        ensures room { self.old.room ≤ self.new.room }
    {
        self.rules.retain(
            |name: &RuleName, source: &mut Source| -> bool
                ensures { (result ≡ list_any (is_bound_as name.now) bearers.entry.now.bound)
                    × (source.new ≡ source.old) }
            { bearers.is_bound(name) },
        );
    }

    /// Removes all rules.
    pub fn clear(&mut self)
        ensures rules { self.new.rules ≡ [] }
        ensures room { self.old.room ≤ self.new.room }
    {
        self.rules.clear();
    }
}
