//! Memory for elements that a list gets later.

ghost use Rattle.std.specs.Prelude.{◌≡◌, ◌<◌, ◌++◌, ◌∷◌, [], IfOk, length};

use std::alloc::{AllocError, Global};
use std::marker::Model;

/// Memory for a number of elements, without any in it: that number is its model. So a list can get an element without
/// taking memory.
pub struct Places<T: Drop> {
    free: Vec<T>,
}

// Written out, so that an owner proves one call at each return.
impl<T: Drop> Drop for Places<T> {
    fn drop(self) {
        let Places { free: _ } = self;
    }
}

impl<T: Drop> Model for Places<T> {
    ghost use Rattle.std.specs.Prelude.{ℕ, ◌≡◌, [], vec_capacity};

    ghost Value = { ℕ };

    ghost view = { λ places. vec_capacity places.free };

    ghost invariant = { λ places. places.free.items ≡ [] };
}

impl<T: Drop> Places<T> {
    /// Memory for no element. Takes none.
    pub fn none(alloc: Global) -> Places<T>
        ensures { result ≡ 0 }
    {
        Places {
            free: Vec::new(alloc),
        }
    }

    /// Memory for `count` elements.
    pub fn new(alloc: Global, count: usize) -> Result<Places<T>, AllocError>
        ensures { IfOk result (λ places. places ≡ count) }
    {
        Ok(Places {
            free: Vec::with_capacity(alloc, count)?,
        })
    }

    /// Moves all elements of a list to this memory, adds one behind them, and makes the result the list. Frees the
    /// memory that the list had before. Takes none.
    pub fn take_in(self, list: &mut Vec<T>, new: T)
        requires { length list.old.items < self }
        ensures { list.new.items ≡ list.old.items ++ new ∷ [] }
    {
        let Places { free: mut wider } = self;
        let Ok(()) = wider.append(list) else {
            unreachable!()
        };
        wider.push_reserved(new);
        *list = wider;
    }
}
