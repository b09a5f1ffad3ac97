//! The index that a session shares with others.

ghost use Rattle.std.specs.Prelude.{◌≡◌};

use super::SessionState;
use crate::applying::share_index_of;
use pcef_index::IndexShelf;

impl SessionState {
    /// Lets the newest table share the index of another session's whose rules are equal, by this shelf, as
    /// [`IndexShelf::share`]. Call it after each command that changed a rule, and before a worker takes the new table:
    /// a table that has other owners keeps its index. Nothing else changes.
    pub fn share_index(&mut self, shelf: &mut IndexShelf)
        ensures { self.new ≡ self.old }
    {
        share_index_of(&mut self.newest, shelf);
    }
}
