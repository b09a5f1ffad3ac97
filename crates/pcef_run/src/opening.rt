//! The sessions of a pool, as they are opened.

ghost use Rattle.std.specs.Prelude.{◌≡◌, ◌≤◌, IfOk, OnOk, length};
ghost use Rattle.pcef_model.specs.Refusals.{first_of};
ghost use Rattle.pcef_share.specs.Rates.{no_rates};
ghost use Rattle.pcef_run.specs.Opening.{AreOpened, list_faults};

use crate::member::Member;
use crate::pooled_fault::PooledFault;
use pcef_catalog::Listing;
use pcef_model::Profile;
use pcef_session::open_fault;
use pcef_share::{PoolState, Pooling};
use std::alloc::{AllocError, Global};

/// The first session that can't be opened, out of memory aside, and why.
pub(crate) fn first_fault(profiles: &[(Profile, Listing)]) -> Option<PooledFault>
    requires { length profiles.now ≤ 64 }
    ensures { result ≡ first_of (list_faults 0 profiles.now) }
{
    let mut number: u8 = 0;
    for asked in profiles {
        if let Some(fault) = open_fault(&asked.0) {
            return Some(PooledFault::Session(number, fault));
        }
        number += 1;
    }
    None
}

/// A session for each profile and listing, in their order, each with a share without rates. Takes memory.
pub(crate) fn open_members<P: Pooling>(
    alloc: Global,
    profiles: Vec<(Profile, Listing)>,
    pool: &mut PoolState<P>,
) -> Result<Vec<Member<P>>, AllocError>
    requires few { length profiles.items ≤ 64 }
    requires fresh { pool.old.books ≡ record { granted = no_rates; issued = 0 } }
    ensures sessions { IfOk result (λ v. AreOpened profiles.items v.items) }
    ensures pool { OnOk result (pool.new ≡ record pool.old {
      books = record { granted = no_rates; issued = length profiles.items };
    }) }
{
    let mut members = Vec::with_capacity(alloc, profiles.len())?;
    for asked in profiles {
        let (profile, listing) = asked;
        match Member::open(alloc, profile, listing, pool) {
            Ok(member) => members.push(member)?,
            Err(_) => return Err(AllocError),
        }
    }
    Ok(members)
}
