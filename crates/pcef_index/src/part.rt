//! Part of the rules of a table: those that a base has, too.

ghost use Rattle.std.specs.Arc.{arc_value};
ghost use Rattle.pcef_index.specs.private.Standing.{AreStandingIn};

use crate::base::Base;
use crate::standing_words::StandingWords;
use pcef_packet::Addr;
use std::alloc::AllocError;
use std::sync::Arc;

/// The rules of a table that a base has, too.
#[derive(Drop)]
pub(crate) struct Part {
    /// The base.
    pub base: Arc<Base>,
    /// For each rule of the base its place in the table, if it is there.
    pub places: Vec<Option<u8>>,
    /// The base's lines whose rules are there.
    pub words: StandingWords,
    ghost standing: { AreStandingIn (arc_value base) places.items words },
}

impl Part {
    /// The base. Fails where a further owner is refused.
    pub(crate) fn base(&self) -> Result<Arc<Base>, AllocError> {
        Arc::try_clone(&self.base)
    }

    /// Whether the packets of a session with this address are looked up by its base.
    pub(crate) fn is_for(&self, ue: Addr) -> bool {
        self.base.is_for(ue)
    }

    /// Whether more of the base's rules than so many aren't in the table, or most of them.
    pub(crate) fn has_lost_many(&self, most: usize) -> bool {
        let mut gone = 0usize;
        for place in &self.places {
            if place.is_none() {
                gone = gone.saturating_add(1);
            }
        }
        gone > most || gone > self.places.len() / 2
    }
}
