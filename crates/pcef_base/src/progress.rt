//! How far a program is, on a terminal.

ghost use Rattle.std.specs.Prelude.{◌≡◌, ◌+◌, ◌-◌, ◌^◌, min};
ghost use Rattle.std.specs.Io.{ReadsAtMost};
ghost use Rattle.std.specs.Io.KnownBytes.{ReadConsumes};
ghost use Rattle.pcef_base.specs.Progressing.{watched_reader, octets_done, octets_of_all, percents_of};

use std::io::{self, IsTerminal, Read, Write};
use std::rt::Stderr;

/// The percents that so many octets are of others, 100 at most.
fn percents_of(done: u64, len: u64) -> u64
    ensures { result ≡ percents_of done len }
{
    match (u128::from(done) * 100).checked_div(u128::from(len)) {
        Some(percents) => percents.min(100) as u64,
        None => 0,
    }
}

/// How many octets of some are done. The percents are shown on standard error, in a line that the next one is written
/// over.
#[derive(Drop)]
pub struct Progress {
    terminal: Option<Stderr>,
    len: u64,
    done: u64,
    percents: u64,
}

impl Progress {
    /// None of `len` octets is done. The percents are shown where standard error is a terminal and `len` isn't 0.
    pub fn new(rt: &HostRuntime, len: u64) -> Progress
        ensures done { octets_done result ≡ 0 }
        ensures all { octets_of_all result ≡ len }
    {
        let terminal = rt.stderr();
        Progress {
            terminal: if len > 0 && terminal.is_terminal() {
                Some(terminal)
            } else {
                None
            },
            len,
            done: 0,
            percents: 0,
        }
    }

    /// Notes that so many octets more are done, 2^64 - 1 in all at most, and shows the percents where they are others. A
    /// write that fails changes nothing.
    pub fn note(&mut self, count: usize)
        ensures done { octets_done self.new ≡ min (octets_done self.old + count) (2 ^ 64 - 1) }
        ensures all { octets_of_all self.new ≡ octets_of_all self.old }
    {
        self.done = self.done.saturating_add(count as u64);
        let percents = percents_of(self.done, self.len);
        if percents == self.percents {
            return;
        }
        self.percents = percents;
        if let Some(terminal) = &mut self.terminal {
            let _ = write!(terminal, "{percents} %\r");
        }
    }

    /// Takes the percents away where any are shown. A write that fails changes nothing.
    pub fn clear(&mut self)
        ensures done { octets_done self.new ≡ octets_done self.old }
        ensures all { octets_of_all self.new ≡ octets_of_all self.old }
    {
        if self.percents == 0 {
            return;
        }
        self.percents = 0;
        if let Some(terminal) = &mut self.terminal {
            let _ = terminal.write_all(b"     \r");
        }
    }
}

/// A reader whose progress is shown up to its end.
#[derive(Drop)]
pub struct Watched<R: Read + Drop> {
    reader: R,
    progress: Progress,
}

impl<R: Read + Drop> Watched<R> {
    /// The reader of the octets of which the progress is.
    pub fn new(reader: R, progress: Progress) -> Watched<R>
        ensures reader { watched_reader result ≡ reader }
    {
        Watched { reader, progress }
    }
}

impl<R: Read + Drop> Read for Watched<R> {
    ghost remaining = { λ w. R.remaining (watched_reader w) };

    fn read(&mut self, octets: &mut [u8]) -> io::Result<usize>
        ensures bound { ReadsAtMost result octets.new }
        ensures bytes { ReadConsumes (R.remaining (watched_reader self.old)) (R.remaining (watched_reader self.new)) result octets.new }
    {
        let count = self.reader.read(octets)?;
        if count == 0 {
            self.progress.clear();
        } else {
            self.progress.note(count);
        }
        Ok(count)
    }
}
