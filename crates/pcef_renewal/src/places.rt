//! The order in which bearers come in a new session, and the numbers that they get.

ghost use Rattle.std.specs.Prelude.{◌≡◌, ◌+◌, IfOk, filter, length, nat_lt};
ghost use Rattle.pcef_model.specs.Bearers.{default_id, other_ids};
ghost use Rattle.pcef_renewal.specs.Maps.{bearers_again};
ghost use Rattle.pcef_renewal.specs.Renewal.{placed, placed_from};
ghost use Rattle.pcef_renewal.specs.private.Again.{is_used, numbers, paired};

use pcef_bearer::{Bound, DEFAULT_BEARER};
use pcef_rule::BearerId;
use pcef_session::SessionState;
use std::alloc::{AllocError, Global};

/// A bearer beside the default one, by its number in the old session and in the new one: 6 to 15 each.
#[derive(Clone, Copy, Debug, PartialEq, Eq)]
pub struct BearerNumbers {
    /// Its number in the old session.
    pub old: BearerId,
    /// Its number in the new session.
    pub new: BearerId,
}

/// How many bearers there may be beside the default one.
const OTHERS: usize = 10;

/// The bearers beside the default one.
const OTHER_BEARERS: [BearerId; OTHERS] = [
    BearerId(6),
    BearerId(7),
    BearerId(8),
    BearerId(9),
    BearerId(10),
    BearerId(11),
    BearerId(12),
    BearerId(13),
    BearerId(14),
    BearerId(15),
];

/// Whether some rule is bound to a bearer.
fn is_used(bound: &[Bound], bearer: BearerId) -> bool
    ensures { result ≡ is_used bound.now bearer.0 }
{
    bound.iter().any(|rule| rule.bearer == bearer)
}

/// Those of some bearers that rules are bound to.
fn used(alloc: Global, bearers: &[BearerId], bound: &[Bound]) -> Result<Vec<BearerId>, AllocError>
    ensures { IfOk result (λ ids. numbers ids.items ≡ filter (is_used bound.now) (numbers bearers.now)) }
{
    let mut used = Vec::new(alloc);
    for bearer in bearers {
        if is_used(bound, *bearer) {
            used.push(*bearer)?;
        }
    }
    Ok(used)
}

/// Those of them whose numbers the new session doesn't give.
fn beyond(alloc: Global, used: &[BearerId]) -> Result<Vec<BearerId>, AllocError>
    ensures { IfOk result (λ ids. numbers ids.items
        ≡ filter (λ id. nat_lt (default_id + length used.now) id) (numbers used.now)) }
{
    let last = usize::from(DEFAULT_BEARER.0) + used.len();
    let mut beyond = Vec::new(alloc);
    for bearer in used {
        if last < usize::from(bearer.0) {
            beyond.push(*bearer)?;
        }
    }
    Ok(beyond)
}

/// At the place of each number the bearer that has it, and else the next of those beyond.
fn placed(
    alloc: Global,
    numbered: &[BearerId],
    beyond: &[BearerId],
    bound: &[Bound],
) -> Result<Vec<BearerId>, AllocError>
    ensures { IfOk result (λ ids. numbers ids.items
        ≡ placed (is_used bound.now) (numbers numbered.now) (numbers beyond.now)) }
{
    let mut placed = Vec::new(alloc);
    let mut next = 0;
    for bearer in numbered {
        if is_used(bound, *bearer) {
            placed.push(*bearer)?;
        } else if let Some(other) = beyond.get(next) {
            placed.push(*other)?;
            next += 1;
        }
    }
    Ok(placed)
}

/// The bearers beside the default one in the order in which the new session numbers them.
pub(crate) fn places(alloc: Global, bound: &[Bound]) -> Result<Vec<BearerId>, AllocError>
    ensures { IfOk result (λ ids. numbers ids.items
        ≡ placed_from (is_used bound.now) (filter (is_used bound.now) other_ids)) }
{
    let used = used(alloc, &OTHER_BEARERS, bound)?;
    let beyond = beyond(alloc, &used)?;
    let others: &[BearerId] = &OTHER_BEARERS;
    let numbered = &others[..used.len()];
    placed(alloc, numbered, &beyond, bound)
}

/// These bearers with the numbers that the new session gives in turn, as far as there are some.
fn paired(alloc: Global, others: &[BearerId]) -> Result<Vec<BearerNumbers>, AllocError>
    ensures { IfOk result (λ pairs. pairs.items ≡ paired (numbers others.now) other_ids) }
{
    let mut pairs = Vec::new(alloc);
    for (place, old) in others.iter().enumerate() {
        if let Some(new) = OTHER_BEARERS.get(place) {
            pairs.push(BearerNumbers {
                old: *old,
                new: *new,
            })?;
        }
    }
    Ok(pairs)
}

/// The bearers beside the default one by both numbers, in the order of the new ones.
pub(crate) fn bearers_again(
    alloc: Global,
    session: &SessionState,
) -> Result<Vec<BearerNumbers>, AllocError>
    ensures { IfOk result (λ pairs. pairs.items
        ≡ bearers_again session.now.setting session.now.journal) }
{
    // For its contract: it is lawful.
    let _journal = session.journal();
    let bound = session.bearers().bound();
    let others = places(alloc, bound)?;
    paired(alloc, &others)
}
