//! The program where sessions on a pool are asked for.

ghost use Rattle.std.specs.Prelude.{IfErr, IfOk, length};
ghost use Rattle.pcef_catalog.specs.Catalogs.{offers_of};
ghost use Rattle.pcef_run.specs.PoolRuns.{AreFor};
ghost use Rattle.pcef_run.specs.PoolEnds.{TextsAskFor, AsksFor, EndsPool, FirstUnread, IsProfileUnread, RanOrders, RanPool};

use crate::end::{End, plan_end, pool_end, profile_end, unread_end};
use crate::order::Order;
use crate::orders::read_orders;
use crate::pool_run::run_pool;
use pcef_catalog::{Catalog, Listing, Offers};
use pcef_model::Profile;
use pcef_profile::read_profile;
use pcef_rule::Sums;
use std::alloc::Global;
use std::io::{self, Read, Write};

/// The profile of a text, with the catalog's listing, or the end of the program where there is none.
fn read_one(
    alloc: Global,
    profile: &io::Result<String>,
    catalog: &Catalog,
) -> Result<(Profile, Listing), End>
    ensures asked { IfOk result (λ a. AsksFor (offers_of catalog.now) profile.now a) }
    ensures unread { IfErr result (λ e. IsProfileUnread profile.now e) }
{
    let text = match profile {
        Ok(text) => text,
        Err(error) => return Err(unread_end(error.kind())),
    };
    let profile = match read_profile(alloc, text.as_str()) {
        Ok(profile) => profile,
        Err(fault) => return Err(profile_end(fault)),
    };
    match catalog.listing().share() {
        Ok(listing) => Ok((profile, listing)),
        Err(_) => Err(End::NoMemory),
    }
}

/// The profiles of these texts, in their order, each with the catalog's listing, or the end of the program for the
/// first that can't be read.
fn read_profiles(
    alloc: Global,
    profiles: &[io::Result<String>],
    catalog: &Catalog,
) -> Result<Vec<(Profile, Listing)>, End>
    ensures asked { IfOk result (λ v. TextsAskFor (offers_of catalog.now) profiles.now v.items) }
    ensures unread { IfErr result (λ e. FirstUnread (offers_of catalog.now) profiles.now e) }
{
    let mut asked = Vec::new(alloc);
    for profile in profiles {
        let one = match read_one(alloc, profile, catalog) {
            Ok(one) => one,
            Err(end) => return Err(end),
        };
        match asked.push(one) {
            Ok(()) => {}
            Err(_) => return Err(End::NoMemory),
        }
    }
    Ok(asked)
}

/// Gives orders to sessions on a pool. The writer is flushed, also where that ends early.
fn run_orders<W: Write>(
    alloc: Global,
    capacity: Sums,
    asked: Vec<(Profile, Listing)>,
    orders: Vec<Order>,
    writer: &mut W,
) -> End
    requires { AreFor (length asked.items) orders.items }
    ensures { RanOrders capacity asked.items orders.items result
        (W.contents writer.old) (W.contents writer.new) }
{
    let ended = run_pool(alloc, capacity, asked, orders, writer);
    match writer.flush() {
        Ok(()) => pool_end(ended),
        Err(_) => End::Write,
    }
}

/// Reads the orders of an input, and gives them to sessions on a pool.
fn run_input<R: Read, W: Write>(
    alloc: Global,
    capacity: Sums,
    asked: Vec<(Profile, Listing)>,
    reader: &mut R,
    writer: &mut W,
) -> End
    ensures { RanPool capacity asked.items result
        (R.remaining reader.old) (R.remaining reader.new)
        (W.contents writer.old) (W.contents writer.new) }
{
    match read_orders(alloc, reader, asked.len()) {
        Ok(orders) => run_orders(alloc, capacity, asked, orders, writer),
        Err(fault) => plan_end(alloc, fault),
    }
}

/// Opens a session for each profile on a pool of this capacity, and gives them the orders of an input.
pub(crate) fn run_on_pool<R: Read, W: Write>(
    alloc: Global,
    capacity: Sums,
    profiles: &[io::Result<String>],
    catalog: &Catalog,
    reader: &mut R,
    writer: &mut W,
) -> End
    ensures { EndsPool (offers_of catalog.now) capacity profiles.now result
        (R.remaining reader.old) (R.remaining reader.new)
        (W.contents writer.old) (W.contents writer.new) }
{
    match read_profiles(alloc, profiles, catalog) {
        Ok(asked) => run_input(alloc, capacity, asked, reader, writer),
        Err(end) => end,
    }
}
