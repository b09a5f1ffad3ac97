//! The orders of a CCA.

ghost use Rattle.std.specs.Prelude.{◌≡◌, IfErr, IfOk};
ghost use Rattle.pcef_gx_dialogue.specs.Grants.{DoesGrant};

use crate::answering::room_of;
use pcef_catalog::Detects;
use pcef_gx::Order;
use pcef_gx_messages::put_reports;
use pcef_gx_orders::{NamedOrder, carry_out, with_names};
use pcef_world::WorldState;
use std::alloc::{AllocError, Global};

/// What came of the orders of a CCA.
#[derive(Clone, Copy, Debug, PartialEq, Eq)]
pub enum Grant {
    /// Each was done, or is told as a rule that couldn't be had.
    Done,
    /// One that names no rule was refused: those behind it weren't done, and no AVP tells so.
    CutShort,
}

#[tactic(auto, unfolding(crate::specs::Grants::DoesGrant))]
fn do_named<C: Detects>(
    alloc: Global,
    catalog: &C,
    world: &mut WorldState,
    orders: &[NamedOrder],
    due: &mut Vec<u8>,
) -> Result<Grant, AllocError>
    requires { C.offers catalog.now ≡ world.old.session.setting.catalog }
    ensures done { IfOk result (λ g.
        DoesGrant orders.now world.old due.old.items g world.new due.new.items) }
    ensures lacks { IfErr result (λ _. world.new ≡ world.old) }
    ensures due { IfErr result (λ _. due.new.items ≡ due.old.items) }
    ensures workers { world.new.workers ≡ world.old.workers }
    ensures setting { world.new.session.setting ≡ world.old.session.setting }
    ensures forgotten { world.new.session.forgotten ≡ world.old.session.forgotten }
{
    let octets = room_of(orders)?;
    let mut parts = Vec::with_capacity(alloc, octets)?;
    due.reserve(octets)?;
    let done = carry_out(alloc, catalog, world, orders)?;
    put_reports(&mut parts, due, &done.reports);
    match done.refused {
        Some(_) => Ok(Grant::CutShort),
        None => Ok(Grant::Done),
    }
}

/// Does the orders of a CCA, as [`pcef_gx_orders::carry_out`] does them (TS 29.212, clause 4.5.2). Nothing answers a
/// CCA: the Charging-Rule-Reports of the rules that couldn't be had are for the next CCR (clause 4.5.12), and are
/// written behind what is due for it. Takes memory before anything is done: an `Err` is its want, and nothing has
/// changed. Where memory is wanting for a rule, the rule couldn't be had.
pub fn do_grant<C: Detects>(
    alloc: Global,
    catalog: &C,
    world: &mut WorldState,
    orders: Vec<Order>,
    due: &mut Vec<u8>,
) -> Result<Grant, AllocError>
    requires { C.offers catalog.now ≡ world.old.session.setting.catalog }
    ensures done { IfOk result (λ g.
        DoesGrant orders.entry.items world.old due.old.items g world.new due.new.items) }
    ensures lacks { IfErr result (λ _. world.new ≡ world.old) }
    ensures due { IfErr result (λ _. due.new.items ≡ due.old.items) }
    ensures workers { world.new.workers ≡ world.old.workers }
    ensures setting { world.new.session.setting ≡ world.old.session.setting }
    ensures forgotten { world.new.session.forgotten ≡ world.old.session.forgotten }
{
    let named = with_names(alloc, orders)?;
    do_named(alloc, catalog, world, &named, due)
}
