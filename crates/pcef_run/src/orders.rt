//! Reads what is asked of sessions on a pool.

ghost use Rattle.std.specs.Prelude.{IfErr, IfOk};
ghost use Rattle.pcef_script.specs.Scripts.{all_lines};
ghost use Rattle.pcef_run.specs.Orders.{AreOrdered, FailsInOrders, ReadsOrders};

use crate::fault::PlanFault;
use crate::input::read_all;
use crate::order::{Order, front_of, take_line};
use pcef_line::LineReader;
use pcef_script::first_line;
use std::alloc::Global;
use std::io::Read;

/// The orders on the lines of an input.
fn orders_of(alloc: Global, input: &[u8], sessions: usize) -> Result<Vec<Order>, PlanFault>
    ensures orders { IfOk result (λ v. AreOrdered sessions (all_lines input.now) v.items) }
    ensures fault { IfErr result (λ e. FailsInOrders sessions (all_lines input.now) e) }
{
    let mut orders = Vec::new(alloc);
    let mut reader = LineReader::new(alloc);
    let mut number = 0u64;
    let mut rest = input;
    loop {
        let (line, later) = first_line(rest);
        number += 1;
        match take_line(alloc, &mut reader, &mut orders, line, sessions) {
            Ok(()) => {}
            Err(untaken) => {
                return Err(PlanFault::at(alloc, number, line, front_of(line), untaken));
            }
        }
        match later {
            Some(later) => rest = later,
            None => return Ok(orders),
        }
    }
}

/// Reads an input to its end, and returns the orders that its lines are for `sessions` sessions, numbered from 0. A
/// line is the number of a session in decimal digits without leading zeros, one space, and a line of a script that is a
/// command. Blank lines are passed over. Keeps the whole input, at most 1,073,741,824 bytes, until all lines are read.
/// Takes memory for it and for the orders.
///
/// Answers the first [`PlanFault`] that it meets: that of the reader, an input that is too long, out of memory, or,
/// once all is read, the first line that isn't of this form, names a session that there isn't, is at fault, or is no
/// command, with the reason. Takes memory to put the reason in words.
pub fn read_orders<R: Read>(
    alloc: Global,
    reader: &mut R,
    sessions: usize,
) -> Result<Vec<Order>, PlanFault>
    ensures { ReadsOrders sessions result (R.remaining reader.old) (R.remaining reader.new) }
{
    let input = read_all(alloc, reader)?;
    orders_of(alloc, &input, sessions)
}
