//! A history for proofs. It takes no memory, and its methods do nothing at run time.

ghost use Rattle.std.specs.Prelude.{◌≡◌, List, [], ◌∷◌};
ghost use Rattle.std.specs.Borrow.{ftrue};

use std::marker::{Model, PhantomData};

/// The events so far, the newest first. A clause reads them as `items`.
#[derive(Drop)]
pub struct History<A> {
    of: PhantomData<A>,
    pub ghost items: { List A },
}

impl<A> Model for History<A> {
    ghost also_owns = { λ _. ftrue };
}

// It owns nothing.
unsafe impl<A: Send> Send for History<A> {}

impl<A> History<A> {
    /// A history without events.
    pub fn new() -> History<A>
        ensures { result.items ≡ [] }
    {
        History { of: PhantomData }
    }

    /// The history with one more event.
    pub fn then(&self, next: &A) -> History<A>
        ensures { result.items ≡ next.now ∷ self.now.items }
    {
        History { of: PhantomData }
    }
}
