//! Answers of several threads, on one writer.

ghost use Rattle.std.specs.Prelude.{◌≡◌, []};
ghost use Rattle.pcef_shards.specs.Outlets.{all_written};

use memchr::memrchr;
use pcef_base::put_all;
use pcef_journal::History;
use std::alloc::Global;
use std::io::{self, ErrorKind, Write};
use std::sync::{Arc, Mutex, Wait};

/// A thread's way to a writer that threads share. What is written waits here, and a flush writes all of it while it
/// holds the writer's lock: so what two threads flush never mixes.
#[derive(Drop)]
pub struct Outlet<T: Wait + Drop, W: Write + Drop> {
    rt: T,
    writer: Arc<Mutex<W>>,
    waiting: Vec<u8>,
    handed: History<Vec<u8>>,
    has_failed: bool,
    lacks_memory: bool,
}

/// Writes octets while it holds the writer's lock, and flushes the writer. Waits for the lock.
fn hand_over<T: Wait, W: Write>(rt: &T, writer: &Mutex<W>, octets: &[u8]) -> io::Result<()> {
    let mut writer = writer.lock(rt);
    put_all(&mut *writer, octets)?;
    writer.flush()
}

impl<T: Wait + Drop, W: Write + Drop> Outlet<T, W> {
    /// A way to this writer, by which nothing was written yet.
    pub fn new(rt: T, alloc: Global, writer: Arc<Mutex<W>>) -> Outlet<T, W>
        ensures { all_written result ≡ [] }
    {
        Outlet {
            rt,
            writer,
            waiting: Vec::new(alloc),
            handed: History::new(),
            has_failed: false,
            lacks_memory: false,
        }
    }

    /// Whether a write found no memory.
    pub fn lacks_memory(&self) -> bool {
        self.lacks_memory
    }

    /// Writes the lines that wait, each with its line feed, and drops the rest. Fails as the writer does, and where it
    /// failed before. Waits for the writer's lock.
    pub fn end(&mut self) -> io::Result<()> {
        if self.has_failed {
            return Err(io::Error::from(ErrorKind::Other));
        }
        let whole = match memrchr(b'\n', &self.waiting) {
            Some(place) => place + 1,
            None => 0,
        };
        self.waiting.truncate(whole);
        self.flush()
    }
}

impl<T: Wait + Drop, W: Write + Drop> Write for Outlet<T, W> {
    ghost use Rattle.std.specs.Prelude.{Some};
    ghost use Rattle.pcef_shards.specs.Outlets.{all_written};

    ghost contents = { λ o. Some (all_written o) };

    fn write(&mut self, bytes: &[u8]) -> io::Result<usize> {
        match self.waiting.extend_from_slice(bytes) {
            Ok(()) => Ok(bytes.len()),
            Err(_) => {
                self.lacks_memory = true;
                Err(io::Error::from(ErrorKind::OutOfMemory))
            }
        }
    }

    fn flush(&mut self) -> io::Result<()> {
        if self.waiting.is_empty() {
            return Ok(());
        }
        match hand_over(&self.rt, &self.writer, &self.waiting) {
            Ok(()) => {
                self.handed = self.handed.then(&self.waiting);
                self.waiting.clear();
                Ok(())
            }
            Err(error) => {
                self.has_failed = true;
                Err(error)
            }
        }
    }
}
