//! A ledger's book and a part of it, each beside the number that it stands for.

ghost use Rattle.std.specs.Prelude.{◌≡◌, ℕ, ◌+◌, ◌-◌, ◌<◌, ◌≤◌, ◌^◌};
ghost use Rattle.pcef_share.specs.private.Standings.{Standing};

use std::marker::Model;
use std::sync::ledger::{Blank, Book, Ledger, Share};

/// One part of a ledger. Contracts see it as what was added to it, of which nothing is kept when it
/// runs.
#[derive(Drop)]
pub struct Part<L: Ledger> {
    pub(crate) share: Share<L>,
}

impl<L: Ledger> Model for Part<L> {
    ghost Value = { ℕ };

    ghost view = { λ p. p.share.amount };

    ghost invariant = { λ p. p.share.parts ≡ 1 };
}

/// The book of a ledger beside its total, with the parts that were not given out or came back.
#[derive(Drop)]
pub struct Tally<L: Ledger> {
    total: u64,
    book: Book<L>,
    pub(crate) kept: Share<L>,
}

impl<L: Ledger> Model for Tally<L> {
    ghost Value = { Standing };

    ghost view = { λ t. record { total = t.total; parts = t.kept.parts; amount = t.kept.amount } };

    ghost invariant = { λ t. t.total ≡ t.book.total };
}

/// A part of a ledger that keeps the number that it stands for.
#[derive(Drop)]
pub struct Portion<L: Ledger> {
    held: u64,
    pub(crate) part: Part<L>,
}

impl<L: Ledger> Model for Portion<L> {
    ghost Value = { ℕ };

    ghost view = { λ p. p.held };

    ghost invariant = { λ p. p.part ≡ p.held };
}

impl<L: Ledger> Portion<L> {
    /// What it stands for.
    pub fn held(&self) -> u64
        ensures { result ≡ self.now }
    {
        self.held
    }
}

impl<L: Ledger> Tally<L> {
    /// A book with nothing in it, and all the parts of its ledger.
    pub fn new(blank: Blank) -> Tally<L>
        requires { (blank.name ≡ L.name) × (blank.parts ≡ L.parts) }
        ensures { result ≡ record { total = 0; parts = L.parts; amount = 0 } }
    {
        let (book, kept) = blank.open::<L>();
        Tally {
            total: 0,
            book,
            kept,
        }
    }

    /// What was added to all parts.
    pub fn total(&self) -> u64
        ensures { result ≡ self.now.total }
    {
        self.total
    }

    /// One part less here, with nothing added to it.
    pub fn issue(&mut self) -> Part<L>
        requires { (0 < self.old.parts) × (self.old.amount ≡ 0) }
        ensures part { result ≡ 0 }
        ensures total { self.new.total ≡ self.old.total }
        ensures parts { self.new.parts + 1 ≡ self.old.parts }
        ensures amount { self.new.amount ≡ 0 }
    {
        Part {
            share: self.kept.split_off(1, 0),
        }
    }

    /// Adds to a part and to the total.
    pub fn add(&mut self, part: &mut Part<L>, amount: u64)
        requires { self.old.total + amount < 2 ^ 64 }
        ensures part { part.new ≡ part.old + amount }
        ensures tally { self.new ≡ record self.old { total = self.old.total + amount } }
    {
        self.book.audit(&mut part.share);
        self.book.add(&mut part.share, amount);
        self.total += amount;
    }

    /// Takes from a part and from the total.
    pub fn take(&mut self, part: &mut Part<L>, amount: u64)
        requires { amount ≤ part.old }
        ensures part { part.new ≡ part.old - amount }
        ensures tally { self.new ≡ record self.old { total = self.old.total - amount } }
        ensures bound { part.old ≤ self.old.total }
    {
        self.book.audit(&mut part.share);
        self.book.sub(&mut part.share, amount);
        self.total -= amount;
    }

    /// A part comes back, with what was added to it.
    pub fn take_back(&mut self, part: Part<L>)
        ensures total { self.new.total ≡ self.old.total }
        ensures parts { self.new.parts ≡ self.old.parts + 1 }
        ensures amount { self.new.amount ≡ self.old.amount + part }
        ensures bound { self.new.parts ≤ L.parts }
    {
        let Part { share } = part;
        self.kept.merge(share);
    }

    /// One part less here, which keeps its number, 0.
    pub fn issue_portion(&mut self) -> Portion<L>
        requires { (0 < self.old.parts) × (self.old.amount ≡ 0) }
        ensures part { result ≡ 0 }
        ensures total { self.new.total ≡ self.old.total }
        ensures parts { self.new.parts + 1 ≡ self.old.parts }
        ensures amount { self.new.amount ≡ 0 }
    {
        Portion {
            held: 0,
            part: self.issue(),
        }
    }

    /// Sets a portion to a number, and moves the total by the difference.
    pub fn change(&mut self, portion: &mut Portion<L>, to: u64)
        requires { self.old.total - portion.old + to < 2 ^ 64 }
        ensures portion { portion.new ≡ to }
        ensures tally { self.new
            ≡ record self.old { total = self.old.total - portion.old + to } }
        ensures bound { portion.old ≤ self.old.total }
    {
        self.take(&mut portion.part, portion.held);
        self.add(&mut portion.part, to);
        portion.held = to;
    }

    /// Shows that a portion has no more than the total, and changes nothing.
    pub fn compare(&mut self, portion: &mut Portion<L>)
        ensures same { (self.new ≡ self.old) × (portion.new ≡ portion.old) }
        ensures bound { portion.old ≤ self.old.total }
    {
        self.book.audit(&mut portion.part.share);
    }

    /// Shows that nothing was added where no part is here, and that the total is what was added where all are, and
    /// changes nothing.
    pub fn compare_kept(&mut self)
        ensures same { self.new ≡ self.old }
        ensures none { self.old.parts ≡ 0 → self.old.amount ≡ 0 }
        ensures all { self.old.parts ≡ L.parts → self.old.total ≡ self.old.amount }
    {
        let Tally {
            total: _,
            book,
            kept,
        } = self;
        book.audit(kept);
    }

    /// A portion comes back, with its number.
    pub fn take_portion_back(&mut self, portion: Portion<L>)
        ensures total { self.new.total ≡ self.old.total }
        ensures parts { self.new.parts ≡ self.old.parts + 1 }
        ensures amount { self.new.amount ≡ self.old.amount + portion }
        ensures bound { self.new.parts ≤ L.parts }
    {
        let Portion { held: _, part } = portion;
        self.take_back(part);
    }

    /// The total where all parts are here: it is what was added to them.
    pub fn close(mut self) -> u64
        requires { self.parts ≡ L.parts }
        ensures { (result ≡ self.total) × (result ≡ self.amount) }
    {
        self.book.audit(&mut self.kept);
        self.total
    }
}
