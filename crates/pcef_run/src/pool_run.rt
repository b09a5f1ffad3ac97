//! Runs sessions on a pool.

ghost use Rattle.std.specs.Prelude.{◌≡◌, length};
ghost use Rattle.pcef_share.specs.Names.{ledger_at};
ghost use Rattle.pcef_run.specs.PoolRuns.{AreFor, RunsPool};

use crate::answering::answer_orders;
use crate::order::Order;
use crate::pool_end::PoolEnd;
use crate::pooled::Pooled;
use crate::pooled_fault::PooledFault;
use pcef_catalog::Listing;
use pcef_model::Profile;
use pcef_rule::Sums;
use pcef_share::{Pooling, RateBlanks};
use std::alloc::Global;
use std::io::Write;
use std::marker::Brand;

/// As [`run_pool`], on a pool that has this name.
fn run_named<P: Pooling, W: Write>(
    alloc: Global,
    capacity: Sums,
    profiles: Vec<(Profile, Listing)>,
    blanks: RateBlanks,
    orders: Vec<Order>,
    writer: &mut W,
) -> Result<(), PoolEnd>
    requires name { P.ledger ≡ ledger_at blanks }
    requires capacity { P.capacity ≡ capacity }
    requires known { AreFor (length profiles.items) orders.items }
    ensures { RunsPool capacity profiles.items orders.items result
        (W.contents writer.old) (W.contents writer.new) }
{
    match Pooled::<P>::open(alloc, capacity, profiles, blanks) {
        Ok(pooled) => {
            let mut pooled = pooled;
            answer_orders(alloc, &mut pooled, orders, writer)
        }
        Err(PooledFault::NoMemory) => Err(PoolEnd::NoMemory),
        Err(fault) => Err(PoolEnd::Open(fault)),
    }
}

/// Opens a session for each profile and listing, in their order, on a pool of this capacity, in bit/s. Gives each order
/// to its session, one after the other, and writes a line for each answer; then a line that says what the pool has
/// granted. That each order is for one of these sessions is the caller's condition. It doesn't flush. Takes memory.
///
/// Answers why the sessions can't be opened, the writer's fault (an interruption too, and a write that takes no byte),
/// or that memory ran out, also at a command.
pub fn run_pool<W: Write>(
    alloc: Global,
    capacity: Sums,
    profiles: Vec<(Profile, Listing)>,
    orders: Vec<Order>,
    writer: &mut W,
) -> Result<(), PoolEnd>
    requires { AreFor (length profiles.items) orders.items }
    ensures { RunsPool capacity profiles.items orders.items result
        (W.contents writer.old) (W.contents writer.new) }
{
    run_named::<Brand, W>(alloc, capacity, profiles, RateBlanks::new(), orders, writer)
}
