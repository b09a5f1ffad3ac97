//! The one name of a session, by which its ledgers, its setting and its publication go.

use std::marker::{Brand, PhantomData};
use std::sync::ledger::Ledger;

/// Which session it is. A caller picks a name where it calls a generic function, with the blanks and
/// the opened history that the name is to stand for, and the name stays within that call.
pub trait Naming {
    ghost use Rattle.std.specs.Prelude.{ℕ};
    ghost use Rattle.logbook.specs.Pages.{Book};
    ghost use Rattle.pcef_model.specs.Setting.{Setting};

    /// The names of its ten ledgers: of slots 0 to 7, of the rows and of the commands.
    ghost ledger: { ℕ → ℕ };

    /// Its profile and its catalog.
    ghost setting: { Setting };

    /// The book in which the history of its published tables stands.
    ghost book: { Book };

    /// The key of that history's first pen.
    ghost root: { ℕ };

    /// The first generation that is published.
    ghost first: { ℕ };
}

impl Naming for Brand {
    ghost use Rattle.pcef_share.specs.Names.{no_book, no_setting};

    ghost ledger = { λ k. 0 };

    ghost setting = { no_setting };

    ghost book = { no_book };

    ghost root = { 0 };

    ghost first = { 0 };
}

/// Ledger `K` of the session `N`, which has seventeen parts.
pub struct Of<N: Naming, const K: u8> {
    of: PhantomData<N>,
}

impl<N: Naming, const K: u8> Ledger for Of<N, K> {
    ghost name = { N.ledger K };

    ghost parts = { 17 };
}
