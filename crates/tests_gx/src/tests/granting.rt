//! The orders of CCAs, done on a session.

ghost use Rattle.std.specs.Prelude.{◌≡◌};

use super::cca_octets::{DEFAULT_AND_TRIGGERS, GONE, INSTALL_TWO, LOST, NINE_KEYS};
use super::ccr_octets::ONE_USAGE;
use super::expect_equal;
use super::hexadecimal::{is_hexadecimal_of, octets};
use super::playing::{SESSION_ID, Step, ccr_out, first_wrong_on_one, identity, left, totals};
use pcef_built_in::ShapedCatalog;
use pcef_diameter::read_message_header;
use pcef_gx::Orders;
use pcef_gx_dialogue::{Grant, Responder, Says, apart, do_grant, read_answer};
use pcef_gx_messages::RequestKind;
use pcef_world::WorldState;
use std::alloc::Global;

/// A CCA, and what is due behind it.
struct Cca {
    message: &'static str,
    /// The kind and the number of the CCR that it answers.
    out: (RequestKind, u32),
    /// What became of its orders.
    grant: Grant,
    /// What it leaves to the host, as [`left`] has it.
    left: [u32; 5],
    /// What is due for the next CCR, where usage was due already.
    due: &'static str,
    totals: [u64; 6],
}

/// One after the other, on one session.
static CCAS: [Cca; 3] = [
    Cca {
        message: INSTALL_TWO,
        out: (RequestKind::Initial, 0),
        grant: Grant::Done,
        left: [0; 5],
        due: LOST,
        totals: [2, 2, 64_000, 48_000, 0, 0],
    },
    // Eight keys are all that a session has: the ninth is refused, and no report is made.
    Cca {
        message: NINE_KEYS,
        out: (RequestKind::Update, 1),
        grant: Grant::CutShort,
        left: [0; 5],
        due: GONE,
        totals: [10, 2, 64_000, 48_000, 8, 0],
    },
    Cca {
        message: DEFAULT_AND_TRIGGERS,
        out: (RequestKind::Update, 2),
        grant: Grant::Done,
        left: [2, 18, 5, 3, 0],
        due: ONE_USAGE,
        totals: [10, 2, 64_000, 48_000, 8, 0],
    },
];

/// What became of orders, and what is left to the host; none for want of memory.
fn obeyed(
    alloc: Global,
    catalog: &ShapedCatalog,
    world: &mut WorldState,
    asked: Orders,
    due: &mut Vec<u8>,
) -> Option<(Grant, [u32; 5])>
    requires { catalog.now ≡ world.old.session.setting.catalog }
    ensures { world.new.session.setting ≡ world.old.session.setting }
{
    let (orders, host) = apart(asked);
    match do_grant(alloc, catalog, world, orders, due) {
        Ok(grant) => Some((grant, left(&host))),
        Err(_) => None,
    }
}

/// What a CCA asks for of the session whose CCR is out; none where it doesn't, or for want of memory.
fn asked<'m>(alloc: Global, out: (RequestKind, u32), message: &'m [u8]) -> Option<Orders<'m>> {
    let ccrs = ccr_out(alloc, out.0, out.1);
    match (identity(SESSION_ID), read_message_header(message)) {
        (Some(identity), Some(header)) => {
            match read_answer(alloc, &identity, &ccrs, &header, message) {
                Ok(Says::Granted(asked)) => Some(asked),
                _ => None,
            }
        }
        _ => None,
    }
}

/// What became of the orders of a CCA, and what it leaves to the host; none for want of memory, or where it isn't one
/// to this CCR that grants.
pub(super) fn granted(
    alloc: Global,
    catalog: &ShapedCatalog,
    world: &mut WorldState,
    out: (RequestKind, u32),
    message: &[u8],
    due: &mut Vec<u8>,
) -> Option<(Grant, [u32; 5])>
    requires { catalog.now ≡ world.old.session.setting.catalog }
    ensures { world.new.session.setting ≡ world.old.session.setting }
{
    match asked(alloc, out, message) {
        Some(asked) => obeyed(alloc, catalog, world, asked, due),
        None => None,
    }
}

impl Step for Cca {
    fn is_due(
        &self,
        alloc: Global,
        catalog: &ShapedCatalog,
        world: &mut WorldState,
        _responder: &mut Responder,
    ) -> bool {
        let message = octets(alloc, self.message);
        let mut due = octets(alloc, ONE_USAGE);
        let found = granted(alloc, catalog, world, self.out, &message, &mut due);
        found == Some((self.grant, self.left))
            && is_hexadecimal_of(&due, self.due)
            && totals(world.session()) == self.totals
    }
}

#[test]
fn orders_of_ccas_are_done_and_their_reports_are_due(rt: HostRuntime) {
    expect_equal(&rt, &first_wrong_on_one(rt.alloc(), &CCAS), &Some(None));
}
