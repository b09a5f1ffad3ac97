//! Commands.

ghost use Rattle.std.specs.Prelude.{◌≡◌, OnErr};
ghost use Rattle.pcef_model.specs.declared.command.Command.TheVariants as of;
ghost use Rattle.pcef_model.specs.Outcomes.{CommandStep};
ghost use Rattle.pcef_session.specs.Answers.{DoesCommand, Settles};
ghost use Rattle.pcef_session.specs.Preparing.{IsIdle, IsPreparedFor, IsReady};
ghost use Rattle.pcef_session.specs.SessionModel.{HasAtLeast};

use super::SessionState;
use crate::applying::{
    change_rules, closed_by, enter, keep_table, report_all, rule_key, subscribed_by, terminated_by,
};
use crate::prepared::{Prepared, PreparedChange};
use pcef_model::{Accepted, Command, Refusal};
use pcef_rule::RuleName;

impl SessionState {
    /// Does a command that changes something.
    fn change(&mut self, change: PreparedChange) -> Accepted
        requires { IsReady self.old change }
        ensures answer { DoesCommand self.old change.command result self.new }
        ensures setting { self.new.setting ≡ self.old.setting }
        ensures forgotten { self.new.forgotten ≡ self.old.forgotten }
    {
        let PreparedChange {
            command,
            table,
            rule,
            bearer,
            places,
            key_places,
            reports,
        } = change;
        let first_report = self.counted.journal().reports_len();
        let key = rule_key(rule.as_ref());
        change_rules(
            &mut self.active,
            &mut self.bearers,
            &command,
            rule,
            bearer,
            places,
        );
        keep_table(&mut self.newest, table);
        self.subscribed = subscribed_by(&command, self.subscribed);
        self.closed = closed_by(&command, self.closed);
        self.terminated = terminated_by(&command, self.terminated);
        enter(&mut self.counted, command, key, key_places);
        report_all(&mut self.counted, &reports, self.subscribed.usage_report);
        Accepted {
            generation: self.newest.generation(),
            bearer,
            first_report,
            past_last_report: self.counted.journal().reports_len(),
            unchanged: false,
        }
    }

    /// What is answered to an Activate of an active rule.
    fn answer_unchanged(&self, name: &RuleName) -> Accepted
        requires { IsIdle self.now name.now }
        ensures { DoesCommand self.now (of.Activate name.now) result self.now }
    {
        let reports = self.counted.journal().reports_len();
        Accepted {
            generation: self.newest.generation(),
            bearer: self.bearers.bearer_of(name),
            first_report: reports,
            past_last_report: reports,
            unchanged: true,
        }
    }

    /// Does what was prepared since the session last changed. Takes no memory.
    pub fn settle(&mut self, prepared: Prepared) -> Accepted
        requires { IsPreparedFor self.old prepared }
        ensures answer { Settles self.old prepared result self.new }
        ensures setting { self.new.setting ≡ self.old.setting }
        ensures forgotten { self.new.forgotten ≡ self.old.forgotten }
    {
        match prepared {
            Prepared::Changing(change) => self.change(change),
            Prepared::Unchanged(name) => self.answer_unchanged(&name),
        }
    }

    /// Does a command, or answers the first refusal in the order of [`Refusal`], which changes nothing, and
    /// leaves no less room.
    pub fn command(&mut self, command: Command) -> Result<Accepted, Refusal>
        ensures answer { CommandStep self.old.setting command
            self.old.journal result self.new.journal }
        ensures setting { self.new.setting ≡ self.old.setting }
        ensures forgotten { self.new.forgotten ≡ self.old.forgotten }
        ensures room { OnErr result (HasAtLeast self.old.room self.new.room) }
    {
        match self.prepare(command) {
            Err(refusal) => Err(refusal),
            Ok(prepared) => Ok(self.settle(prepared)),
        }
    }
}
