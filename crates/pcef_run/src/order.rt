//! What a line asks of sessions on a pool.

ghost use Rattle.std.specs.Prelude.{◌≡◌, ◌∷◌, ◌++◌, [], IfErr, IfOk, OnOk, option_map};
ghost use Rattle.pcef_run.specs.Reasons.{IsFor};
ghost use Rattle.pcef_run.specs.declared.unfit.Untaken.TheVariants.{NoMemory as LacksMemory};
ghost use Rattle.pcef_run.specs.Orders.{IsOrder, IsWrong, IsWrongLine, TakesLine, session_in};

use crate::unfit::{Unfit, Untaken, untaken_for};
use pcef_line::{Line, LineReader};
use pcef_model::{Command, Step};
use pcef_script::{is_blank, line_of};
use std::alloc::Global;

/// A command for one of several sessions.
#[derive(Drop)]
pub struct Order {
    /// The number of the session, from 0.
    pub session: u8,
    /// The command.
    pub command: Command,
}

/// The session number of one or two digits at the front of a line, and what follows the one space behind it.
fn session_in(bytes: &[u8]) -> Option<(u8, &[u8])>
    ensures { option_map (λ p. (p.0, p.1.now)) result ≡ session_in bytes.now }
{
    match bytes {
        [digit @ b'0'..=b'9', b' ', rest @ ..] => Some((*digit - b'0', rest)),
        [ten @ b'1'..=b'9', digit @ b'0'..=b'9', b' ', rest @ ..] => {
            Some(((*ten - b'0') * 10 + (*digit - b'0'), rest))
        }
        _ => None,
    }
}

/// The order on a line, if there is one for a session below `sessions`.
fn order_of(
    alloc: Global,
    reader: &mut LineReader,
    bytes: &[u8],
    sessions: usize,
) -> Result<Order, Untaken>
    ensures order { IfOk result (λ o. IsOrder sessions bytes.now o) }
    ensures wrong { IfErr result (IsFor (IsWrong sessions bytes.now)) }
{
    let Some((session, rest)) = session_in(bytes) else {
        return Err(Untaken::Unfit(Unfit::NoNumber));
    };
    if usize::from(session) >= sessions {
        return Err(Untaken::Unfit(Unfit::NoSession(sessions)));
    }
    match line_of(alloc, reader, rest) {
        Ok(Line::Step(Step::Command(command))) => Ok(Order { session, command }),
        Ok(_) => Err(Untaken::Unfit(Unfit::NotOfPool)),
        Err(fault) => Err(untaken_for(fault)),
    }
}

fn push_order(orders: &mut Vec<Order>, order: Order) -> Result<(), Untaken>
    ensures pushed { OnOk result (orders.new.items ≡ orders.old.items ++ order ∷ []) }
    ensures lacks { IfErr result (λ e. e ≡ LacksMemory) }
{
    match orders.push(order) {
        Ok(()) => Ok(()),
        Err(_) => Err(Untaken::NoMemory),
    }
}

/// Adds the order on a line to those of the lines before it. A blank line is passed over.
pub(crate) fn take_line(
    alloc: Global,
    reader: &mut LineReader,
    orders: &mut Vec<Order>,
    bytes: &[u8],
    sessions: usize,
) -> Result<(), Untaken>
    ensures taken { OnOk result (TakesLine sessions bytes.now orders.old.items orders.new.items) }
    ensures wrong { IfErr result (IsFor (IsWrongLine sessions bytes.now)) }
{
    if is_blank(bytes) {
        return Ok(());
    }
    match order_of(alloc, reader, bytes, sessions) {
        Ok(order) => push_order(orders, order),
        Err(untaken) => Err(untaken),
    }
}

/// How many octets of a line stand before what is a line of a script: the number of a session and a space, where they
/// are there.
pub(crate) fn front_of(bytes: &[u8]) -> usize {
    match session_in(bytes) {
        Some((_, rest)) => bytes.len().saturating_sub(rest.len()),
        None => 0,
    }
}
