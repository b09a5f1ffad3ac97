//! Sessions on a pool at work: each order is given to its session, and its answer is written.

ghost use Rattle.std.specs.Prelude.{◌≡◌, ◌<◌, All, IfErr, IfOk, OnOk, length, string_bytes};
ghost use Rattle.std.specs.Io.KnownBytes.{Appends};
ghost use Rattle.pcef_run.specs.PoolRuns.{AnswersOrder, AreFor, EndsOrders, StopsAtOrder, StopsInOrders, StopsText, WritesOrder, WritesOrders, granted_text};

use crate::order::Order;
use crate::pool_end::PoolEnd;
use crate::pooled::Pooled;
use pcef_answer::command_answer;
use pcef_model::Refusal;
use pcef_rule::Sums;
use pcef_script::put_all;
use pcef_share::Pooling;
use std::alloc::{AllocError, Global};
use std::io::Write;

/// Gives an order to its session, and returns the line for the answer. Fails when out of memory, which the command may
/// meet too.
fn answer_line<P: Pooling>(
    alloc: Global,
    pooled: &mut Pooled<P>,
    order: Order,
) -> Result<String, AllocError>
    requires { order.session < length pooled.old.sessions }
    ensures answer { IfOk result (λ text.
        AnswersOrder pooled.old order (string_bytes text) pooled.new) }
    ensures many { length pooled.new.sessions ≡ length pooled.old.sessions }
{
    let Order { session, command } = order;
    let n = usize::from(session);
    let answer = pooled.command(n, command);
    if matches!(answer, Err(Refusal::NoMemory)) {
        return Err(AllocError);
    }
    let mut text = command_answer(alloc, pooled.session(n).journal(), &answer)?;
    text.push('\n')?;
    Ok(text)
}

/// Gives an order to its session, and writes the line for the answer.
fn do_order<P: Pooling, W: Write>(
    alloc: Global,
    pooled: &mut Pooled<P>,
    order: Order,
    writer: &mut W,
) -> Result<(), PoolEnd>
    requires { order.session < length pooled.old.sessions }
    ensures all { OnOk result (WritesOrder pooled.old order pooled.new
        (W.contents writer.old) (W.contents writer.new)) }
    ensures front { IfErr result (λ e. StopsAtOrder e pooled.old order
        (W.contents writer.old) (W.contents writer.new)) }
    ensures many { length pooled.new.sessions ≡ length pooled.old.sessions }
{
    let Ok(line) = answer_line(alloc, pooled, order) else {
        return Err(PoolEnd::NoMemory);
    };
    match put_all(writer, line.as_bytes()) {
        Ok(()) => Ok(()),
        Err(_) => Err(PoolEnd::Write),
    }
}

/// Gives orders to their sessions, one after the other, and writes a line for each answer.
fn do_orders<P: Pooling, W: Write>(
    alloc: Global,
    pooled: &mut Pooled<P>,
    orders: Vec<Order>,
    writer: &mut W,
) -> Result<(), PoolEnd>
    requires { AreFor (length pooled.old.sessions) orders.items }
    ensures all { OnOk result (WritesOrders pooled.old orders.items pooled.new
        (W.contents writer.old) (W.contents writer.new)) }
    ensures front { IfErr result (λ e. StopsInOrders e pooled.old orders.items
        (W.contents writer.old) (W.contents writer.new)) }
{
    for order in orders {
        match do_order(alloc, pooled, order, writer) {
            Ok(()) => {}
            Err(end) => return Err(end),
        }
    }
    Ok(())
}

/// The last line: what the pool has granted.
fn granted_line(alloc: Global, granted: Sums) -> Result<String, AllocError>
    ensures { IfOk result (λ text. string_bytes text ≡ granted_text granted) }
{
    let Sums { up, down } = granted;
    format!(in alloc; "granted up {up} down {down}\n")
}

/// Writes the last line.
fn write_granted<W: Write>(alloc: Global, granted: Sums, writer: &mut W) -> Result<(), PoolEnd>
    ensures all { OnOk result (Appends (W.contents writer.old) (W.contents writer.new)
        (granted_text granted)) }
    ensures front { IfErr result (λ e. StopsText e (granted_text granted)
        (W.contents writer.old) (W.contents writer.new)) }
{
    let Ok(line) = granted_line(alloc, granted) else {
        return Err(PoolEnd::NoMemory);
    };
    match put_all(writer, line.as_bytes()) {
        Ok(()) => Ok(()),
        Err(_) => Err(PoolEnd::Write),
    }
}

/// Gives orders to their sessions, one after the other, and writes a line for each answer, and then one that says what
/// the pool has granted.
pub(crate) fn answer_orders<P: Pooling, W: Write>(
    alloc: Global,
    pooled: &mut Pooled<P>,
    orders: Vec<Order>,
    writer: &mut W,
) -> Result<(), PoolEnd>
    requires { AreFor (length pooled.old.sessions) orders.items }
    ensures { EndsOrders pooled.old orders.items result
        (W.contents writer.old) (W.contents writer.new) }
{
    match do_orders(alloc, pooled, orders, writer) {
        Ok(()) => write_granted(alloc, pooled.granted(), writer),
        Err(end) => Err(end),
    }
}
