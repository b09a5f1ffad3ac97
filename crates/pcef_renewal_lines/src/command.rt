//! Commands as lines.

ghost use Rattle.std.specs.Prelude.{◌≡◌, ◌++◌, IfOk, OnOk, map, string_bytes};
ghost use Rattle.pcef_model.specs.declared.command.Command.TheVariants as of;
ghost use Rattle.pcef_renewal_lines.specs.Commands.{line_text, event_words, level_word, word_if};

use crate::rule::{quoted, rule_text};
use pcef_line::event_text;
use pcef_model::{AccessKind, Command, Level, TriggerSet};
use pcef_rule::{KeyName, Rule, RuleName};
use std::alloc::{AllocError, Global};

#[tactic(auto, unfolding(crate::specs::Commands::line_text))]
fn install_line(alloc: Global, rule: &Rule) -> Result<String, AllocError>
    ensures { IfOk result (λ text. string_bytes text ≡ line_text (of.Install rule.now)) }
{
    let rule = rule_text(alloc, rule)?;
    format!(in alloc; "{{\"do\":\"install\",\"rule\":{rule}}}")
}

#[tactic(auto, unfolding(crate::specs::Commands::line_text))]
fn activate_line(alloc: Global, name: &RuleName) -> Result<String, AllocError>
    ensures { IfOk result (λ text. string_bytes text ≡ line_text (of.Activate name.now)) }
{
    let name = quoted(alloc, name.as_str())?;
    format!(in alloc; "{{\"do\":\"activate\",\"name\":{name}}}")
}

fn level_word(level: Level) -> &'static str
    ensures { result.now ≡ level_word level }
{
    match level {
        Level::Rule => "rule",
        Level::Session => "session",
    }
}

#[tactic(auto, unfolding(crate::specs::Commands::line_text))]
fn monitor_line(
    alloc: Global,
    key: &KeyName,
    grant: u64,
    level: Level,
) -> Result<String, AllocError>
    ensures { IfOk result (λ text. string_bytes text ≡ line_text (of.Monitor key.now grant level)) }
{
    let key = quoted(alloc, key.as_str())?;
    let level = level_word(level);
    format!(in alloc;
        "{{\"do\":\"monitor\",\"key\":{key},\"grant\":{grant},\"level\":\"{level}\"}}"
    )
}

/// Adds the word of an event, if it is subscribed.
fn push_event(
    alloc: Global,
    events: &mut Vec<String>,
    is_subscribed: bool,
    word: &str,
) -> Result<(), AllocError>
    ensures { OnOk result (map string_bytes events.new.items
        ≡ map string_bytes events.old.items ++ word_if is_subscribed word.now) }
{
    if is_subscribed {
        events.push(format!(in alloc; "\"{word}\"")?)?;
    }
    Ok(())
}

/// The words of the events that are subscribed.
fn event_words(alloc: Global, set: TriggerSet) -> Result<Vec<String>, AllocError>
    ensures { IfOk result (λ events. map string_bytes events.items ≡ event_words set) }
{
    let mut events = Vec::new(alloc);
    push_event(alloc, &mut events, set.usage_report, "USAGE_REPORT")?;
    push_event(
        alloc,
        &mut events,
        set.rat_change,
        event_text(AccessKind::RatChange),
    )?;
    push_event(
        alloc,
        &mut events,
        set.plmn_change,
        event_text(AccessKind::PlmnChange),
    )?;
    push_event(
        alloc,
        &mut events,
        set.user_location_change,
        event_text(AccessKind::UserLocationChange),
    )?;
    push_event(
        alloc,
        &mut events,
        set.ue_time_zone_change,
        event_text(AccessKind::UeTimeZoneChange),
    )?;
    Ok(events)
}

#[tactic(auto, unfolding(crate::specs::Commands::line_text))]
fn triggers_line(alloc: Global, set: TriggerSet) -> Result<String, AllocError>
    ensures { IfOk result (λ text. string_bytes text ≡ line_text (of.Triggers set)) }
{
    let events = event_words(alloc, set)?;
    let events = events.join(alloc, ",")?;
    format!(in alloc; "{{\"do\":\"triggers\",\"events\":[{events}]}}")
}

/// The line of a command, where a renewal may have it, and else nothing.
#[tactic(auto, unfolding(crate::specs::Commands::line_text))]
pub(crate) fn line_text(alloc: Global, command: &Command) -> Result<String, AllocError>
    ensures { IfOk result (λ text. string_bytes text ≡ line_text command.now) }
{
    match command {
        Command::Install(rule) => install_line(alloc, rule),
        Command::Activate(name) => activate_line(alloc, name),
        Command::Monitor { key, grant, level } => monitor_line(alloc, key, *grant, *level),
        Command::Triggers(set) => triggers_line(alloc, *set),
        Command::Close => String::from_str(alloc, "{\"do\":\"close\"}"),
        _ => Ok(String::new(alloc)),
    }
}
