//! A writer whose answers are counted.

use crate::many::totals::Totals;
use std::alloc::Global;
use std::io::{self, ErrorKind, Write};
use std::sync::{Arc, Mutex, Wait};

/// What is known of the answers that were written.
#[derive(Drop)]
pub(crate) struct Notes {
    /// The totals, where they are asked for.
    pub totals: Option<Totals>,
    /// Whether there was no memory for them.
    pub lacks_memory: bool,
    /// Whether nobody reads the answers any more.
    pub is_left: bool,
}

impl Notes {
    /// Nothing was written yet. Takes no memory.
    pub(crate) fn new(alloc: Global, has_totals: bool) -> Notes {
        Notes {
            totals: if has_totals {
                Some(Totals::new(alloc))
            } else {
                None
            },
            lacks_memory: false,
            is_left: false,
        }
    }

    /// Counts answers. Fails when out of memory.
    fn take(&mut self, alloc: Global, octets: &[u8]) -> io::Result<()> {
        let Some(totals) = &mut self.totals else {
            return Ok(());
        };
        if totals.take(alloc, octets).is_err() {
            self.lacks_memory = true;
            return Err(ErrorKind::OutOfMemory.into());
        }
        Ok(())
    }

    /// Notes why a write failed.
    fn fail(&mut self, error: io::Error) {
        self.is_left = self.is_left || error.kind() == ErrorKind::BrokenPipe;
    }
}

/// A writer whose answers are counted. Waits for the lock of what is counted.
///
/// A write whose answers find no memory to be counted fails, though its octets are written: whoever holds this writer
/// makes none again.
#[derive(Drop)]
pub(crate) struct Watched<T: Wait + Drop, W: Write + Drop> {
    rt: T,
    alloc: Global,
    writer: W,
    notes: Arc<Mutex<Notes>>,
}

impl<T: Wait + Drop, W: Write + Drop> Watched<T, W> {
    /// A writer that counts what is written from now on.
    pub(crate) fn new(rt: T, alloc: Global, writer: W, notes: Arc<Mutex<Notes>>) -> Watched<T, W> {
        Watched {
            rt,
            alloc,
            writer,
            notes,
        }
    }
}

impl<T: Wait + Drop, W: Write + Drop> Write for Watched<T, W> {
    fn write(&mut self, octets: &[u8]) -> io::Result<usize> {
        match self.writer.write(octets) {
            Ok(many) => {
                let (written, _) = octets.split_at(many);
                self.notes.lock(&self.rt).take(self.alloc, written)?;
                Ok(many)
            }
            Err(error) => {
                self.notes.lock(&self.rt).fail(error);
                Err(error)
            }
        }
    }

    fn flush(&mut self) -> io::Result<()> {
        match self.writer.flush() {
            Ok(()) => Ok(()),
            Err(error) => {
                self.notes.lock(&self.rt).fail(error);
                Err(error)
            }
        }
    }
}
