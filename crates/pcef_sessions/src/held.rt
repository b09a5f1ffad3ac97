//! A session that is open.

ghost use Rattle.std.specs.Prelude.{◌≡◌, ◌⊎◌, IfOk, OnErr, OnOk, false, string_bytes};
ghost use Rattle.std.specs.Arc.{arc_value};
ghost use Rattle.pcef_model.specs.Journals.{report_count};
ghost use Rattle.pcef_renewal_lines.specs.Lines.{AnswersLines};
ghost use Rattle.pcef_script.specs.ScriptAnswers.{AnswersAs, AnswersLine, IsDoneOrNot, LacksForLine};
ghost use Rattle.pcef_script.specs.ScriptLines.{is_blank_line};
ghost use Rattle.pcef_sessions.specs.Under.{renewal_text, renewed};
ghost use Rattle.pcef_world.specs.Steps.{standing_of};

use crate::ahead::read_world;
use pcef_built_in::ShapedCatalog;
use pcef_index::IndexShelf;
use pcef_line::{Line, LineFault, LineReader};
use pcef_renewal_answer::answer_renew;
use pcef_renewal_lines::answer_lines;
use pcef_script::{LineAnswer, answer_alone, answer_read};
use pcef_world::WorldState;
use std::alloc::{AllocError, Global};
use std::marker::Model;
use std::sync::Arc;

/// A session that is open, with its workers. It shares the predefined rules with all others.
pub struct Held {
    catalog: Arc<ShapedCatalog>,
    world: WorldState,
}

// Written out, so that an owner proves one call on each return path.
impl Drop for Held {
    fn drop(self) {
        let Held {
            catalog: _,
            world: _,
        } = self;
    }
}

impl Model for Held {
    ghost use Rattle.pcef_sessions.specs.Under.{KeptSession};

    ghost Value = { KeptSession };

    ghost use Rattle.std.specs.Prelude.{◌≡◌};
    ghost use Rattle.std.specs.Arc.{arc_value};
    ghost use Rattle.pcef_world.specs.Steps.{standing_of};

    ghost view = { λ s. record {
      session = record { setting = s.world.session.setting; standing = standing_of s.world };
      forgotten = s.world.session.forgotten;
    } };

    ghost invariant = { λ s. arc_value s.catalog ≡ s.world.session.setting.catalog };
}

impl Held {
    /// Reads octets of what its next lines touch.
    pub(crate) fn read(&self) -> u64 {
        read_world(&self.world)
    }

    /// A session that was just opened.
    pub(crate) fn new(catalog: Arc<ShapedCatalog>, world: WorldState) -> Held
        requires { arc_value catalog ≡ world.session.setting.catalog }
        ensures setting { result.session.setting ≡ world.session.setting }
        ensures standing { result.session.standing ≡ standing_of world }
    {
        Held { catalog, world }
    }

    /// Does what a line of a script asks for, and answers as the script does. The reports of the lines before it were
    /// written, and are forgotten.
    pub(crate) fn answer(
        &mut self,
        alloc: Global,
        lines: &mut LineReader,
        line: &[u8],
    ) -> Result<LineAnswer, AllocError>
        requires { is_blank_line line.now ≡ false }
        ensures answer { IfOk result (λ a.
            AnswersLine self.old.session.setting self.old.session.standing line.now
            (string_bytes a.text) a.is_fault self.new.session.standing) }
        ensures lacks { OnErr result (LacksForLine self.old.session.setting self.old.session.standing
            line.now self.new.session.standing) }
        ensures setting { self.new.session.setting ≡ self.old.session.setting }
        ensures forgotten { self.new.forgotten ≡ report_count self.old.session.standing.journal }
    {
        self.world.forget();
        match answer_alone(alloc, &*self.catalog, &mut self.world, lines, line)? {
            Some(answer) => Ok(answer),
            None => unreachable!(),
        }
    }

    /// Does what a line asks for of which this was read, and answers as the script does. The reports of the lines before
    /// it were written, and are forgotten.
    pub(crate) fn answer_read(
        &mut self,
        alloc: Global,
        read: Result<Line, LineFault>,
    ) -> Result<LineAnswer, AllocError>
        ensures answer { IfOk result (λ a.
            AnswersAs self.old.session.setting self.old.session.standing read
            (string_bytes a.text) a.is_fault self.new.session.standing) }
        ensures lacks { OnErr result (IsDoneOrNot
            (AnswersAs self.old.session.setting self.old.session.standing read)
            self.old.session.standing self.new.session.standing) }
        ensures setting { self.new.session.setting ≡ self.old.session.setting }
        ensures forgotten { self.new.forgotten ≡ report_count self.old.session.standing.journal }
    {
        let state = &mut self.world;
        state.forget();
        answer_read(alloc, &*self.catalog, state, read)
    }

    /// Renews the session, and answers. The reports of the lines before it were written, and are forgotten.
    pub(crate) fn renew(&mut self, alloc: Global) -> Result<LineAnswer, AllocError>
        ensures text { IfOk result (λ a. string_bytes a.text ≡ renewal_text self.old.session) }
        ensures fault { IfOk result (λ a. a.is_fault ≡ false) }
        ensures there { OnOk result (self.new.session ≡ renewed self.old.session) }
        ensures lacks { OnErr result ((self.new.session ≡ self.old.session)
            ⊎ (self.new.session ≡ renewed self.old.session)) }
    {
        let world = &mut self.world;
        world.forget();
        Ok(LineAnswer {
            text: answer_renew(alloc, world, &*self.catalog).text?,
            is_fault: false,
        })
    }

    /// Shows the lines that make a new session like this one.
    pub(crate) fn lines(&self, alloc: Global) -> Result<LineAnswer, AllocError>
        ensures text { IfOk result (λ a. AnswersLines self.now.session.setting
            self.now.session.standing.journal (string_bytes a.text)) }
        ensures fault { IfOk result (λ a. a.is_fault ≡ false) }
    {
        Ok(LineAnswer {
            text: answer_lines(alloc, self.world.session())?,
            is_fault: false,
        })
    }

    /// Lets the session share the index of another one whose rules are equal, by this shelf. Nothing else changes.
    pub(crate) fn share_index(&mut self, shelf: &mut IndexShelf)
        ensures { self.new ≡ self.old }
    {
        self.world.share_index(shelf);
    }
}
