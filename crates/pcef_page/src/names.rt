//! Values by name.

use std::alloc::{AllocError, Global};
use std::collections::BTreeMap;

/// A value for each name, in the order in which the names first appear. Finding a name takes a number of steps that is
/// logarithmic in the number of names.
pub(crate) struct ByName<K: Ord + Copy, T: Drop> {
    entries: Vec<(K, T)>,
    places: BTreeMap<K, usize>,
}

// Written out, so that an owner proves one call on each return path.
impl<K: Ord + Copy, T: Drop> Drop for ByName<K, T> {
    fn drop(self) {
        let ByName {
            entries: _,
            places: _,
        } = self;
    }
}

impl<K: Ord + Copy, T: Drop> ByName<K, T> {
    /// No names. Takes no memory.
    pub(crate) fn new(alloc: Global) -> ByName<K, T> {
        ByName {
            entries: Vec::new(alloc),
            places: BTreeMap::new(alloc),
        }
    }

    /// The value of a name, if it has one.
    pub(crate) fn get(&mut self, name: K) -> Option<&mut T> {
        let place = *self.places.get(&name)?;
        match self.entries.get_mut(place) {
            Some(entry) => Some(&mut entry.1),
            None => None,
        }
    }

    /// Gives a name a value, unless it has one. Takes memory for a new name.
    pub(crate) fn begin(&mut self, name: K, value: T) -> Result<(), AllocError> {
        if self.places.get(&name).is_none() {
            self.places.insert(name, self.entries.len())?;
            self.entries.push((name, value))?;
        }
        Ok(())
    }

    /// The names with their values.
    pub(crate) fn entries(&self) -> &[(K, T)] {
        self.entries.as_slice()
    }
}
