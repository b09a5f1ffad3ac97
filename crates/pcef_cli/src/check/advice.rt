//! What to do about a refusal.

use pcef_line::Field;
use pcef_model::{AttachFault, FlushRefusal, Refusal};
use pcef_script::Found;

/// What to do about the refusal of a command.
fn on_command(refusal: Refusal) -> Option<&'static str> {
    Some(match refusal {
        Refusal::Terminated => "terminate is the last command of a session",
        Refusal::Closed => "behind close only terminate is taken",
        Refusal::CommandsFull => "raise commands in the profile",
        Refusal::NameIsPredefined => "take another name, or activate the predefined rule",
        Refusal::UnknownRule => "remove takes an active rule, and activate a predefined one",
        Refusal::UnknownKey => "monitor it first",
        Refusal::ZeroGrant => "a whole number from 1 on is expected",
        Refusal::UnknownBearer => "show lists the bearers",
        Refusal::DefaultBearer => "only another one can",
        Refusal::WorkersAttached(_) => "finish or abandon them first",
        Refusal::RulesFull => "remove one of the 64 that are active first",
        Refusal::LevelClash => "take the level that the key has, or another key",
        Refusal::KeysFull => "take one of the 8 that have one",
        Refusal::UnknownQci => "take a standard one, 1 to 9, or declare it in the profile",
        Refusal::RatesMissing => "its QCI wants gbr, with up and down in bit/s",
        Refusal::RatesNotWanted => "leave gbr out, or take a QCI with guaranteed bit rate",
        Refusal::TooManyBearers => "take the qci and arp of a rule that is active",
        Refusal::OverCapacityUp =>
            "lower gbr.up, remove a rule, or raise capacity.up in the profile",
        Refusal::OverCapacityDown => {
            "lower gbr.down, remove a rule, or raise capacity.down in the profile"
        }
        Refusal::PoolUp | Refusal::PoolDown => "lower gbr, or remove a rule",
        Refusal::NoMemory => return None,
    })
}

/// The field at which a command is refused, if the line always has it, or if it is the one that is missing.
fn field_of(refusal: Refusal) -> Option<Field> {
    match refusal {
        Refusal::NameIsPredefined => Some(Field::Name),
        Refusal::UnknownKey => Some(Field::Key),
        Refusal::ZeroGrant => Some(Field::Grant),
        Refusal::UnknownBearer | Refusal::DefaultBearer => Some(Field::Bearer),
        Refusal::UnknownQci => Some(Field::Qci),
        Refusal::RatesMissing | Refusal::RatesNotWanted => Some(Field::Gbr),
        _ => None,
    }
}

/// The field that the advice on a line belongs to, if there is one. The line isn't at fault.
pub(crate) fn field_on(found: Found) -> Option<Field> {
    match found {
        Found::Command(refusal) => field_of(refusal),
        Found::NoWorker | Found::Flush(FlushRefusal::NotAttached) => Some(Field::Worker),
        _ => None,
    }
}

/// What to do about what was found in a line that isn't at fault, if anything.
pub(crate) fn advice_on(found: Found) -> Option<&'static str> {
    match found {
        Found::Command(refusal) => on_command(refusal),
        Found::Attach(AttachFault::NoPlace) => Some(
            "16 workers came, as many as may in a session's life: use one that is attached, or open a new session",
        ),
        Found::Attach(AttachFault::Closed) => Some("attach before close"),
        Found::Flush(FlushRefusal::NotAttached) => Some("attach it first"),
        Found::Flush(FlushRefusal::RowsFull) => Some("raise rows in the profile"),
        Found::NoWorker => Some("attach it first; the answer has its number"),
        _ => None,
    }
}
