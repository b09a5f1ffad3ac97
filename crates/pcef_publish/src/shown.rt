//! What readers find on the board.

ghost use Rattle.std.specs.Arc.{arc_value};

use crate::publication::Publication;
use left_right::{Absorb, WriteHandle};
use pcef_share::Naming;
use std::alloc::AllocError;
use std::sync::{Arc, OnceLock, Wait};

/// A slot for a publication. It is empty until the publication's table stands in the history.
pub type Cell<N> = Arc<OnceLock<Publication<N>>>;

/// What readers take: the newest place.
pub struct Shown<N: Naming> {
    pub slot: Cell<N>,
}

// Written out, so that an owner proves one call on each return path.
impl<N: Naming> Drop for Shown<N> {
    fn drop(self) {
        let Shown { slot: _ } = self;
    }
}

impl<N: Naming> Absorb<Cell<N>> for Shown<N> {
    type State = OnceLock<Publication<N>>;

    ghost state = { λ s. arc_value s.slot };

    ghost applied = { λ s slot. arc_value slot };

    fn absorb_first(&mut self, operation: &Cell<N>, _other: &Shown<N>) -> Result<(), AllocError> {
        self.slot = Arc::try_clone(operation)?;
        Ok(())
    }
}

/// Where readers find what is newest.
pub trait Board<O: Drop> {
    /// What may wait for readers.
    type Rt: Wait;

    /// Readers find this from now on. On an error, which is out of memory, they find what they found before. May wait
    /// for readers.
    fn show(&mut self, newest: O) -> Result<(), AllocError>;
}

impl<T: Absorb<O> + Drop, O: Drop, R: Wait + Drop> Board<O> for WriteHandle<T, O, R> {
    type Rt = R;

    fn show(&mut self, newest: O) -> Result<(), AllocError> {
        self.append(newest).map_err(|_| AllocError)?;
        self.publish()
    }
}

/// The writer's end of the board.
pub type Writer<N, R> = WriteHandle<Shown<N>, Cell<N>, R>;
