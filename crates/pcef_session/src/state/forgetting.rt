//! Reports that a session forgets.

ghost use Rattle.std.specs.Prelude.{◌≡◌, length};
ghost use Rattle.pcef_model.specs.Entries.{reports};
ghost use Rattle.pcef_session.specs.SessionModel.{HasAtLeast};

use super::SessionState;

impl SessionState {
    /// Forgets the reports that were made so far: they can't be read any more, and the memory that they take serves for
    /// the next ones. They are still counted, and nothing else changes. Takes no memory.
    pub fn forget(&mut self)
        ensures setting { self.new.setting ≡ self.old.setting }
        ensures journal { self.new.journal ≡ self.old.journal }
        ensures forgotten { self.new.forgotten ≡ length (reports self.old.journal) }
        ensures room { HasAtLeast self.old.room self.new.room }
    {
        self.counted.forget();
    }
}
