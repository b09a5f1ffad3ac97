//! The threads that read: each hands on what it read, and reads on when that was taken.

use crossbeam_channel::{Receiver, Sender, bounded};
use std::alloc::Global;
use std::fs::{self, File, OpenOptions};
use std::io::{self, ErrorKind, Read};
use std::os::unix::fs::FileTypeExt;
use std::sync::Wait;
use std::thread::{self, Threads};

/// The most octets that are read at once.
const BLOCK: usize = 16_384;

/// Where it came from.
#[derive(Clone, Copy, Debug, PartialEq, Eq)]
pub(crate) enum Origin {
    /// The peer.
    Peer,
    /// The lines of the sessions.
    Lines,
}

/// What came.
#[derive(Drop)]
pub(crate) enum Came {
    /// Octets.
    Octets(Vec<u8>),
    /// The end.
    End,
    /// A fault.
    Fault(io::Error),
}

/// What came, and where from.
#[derive(Drop)]
pub(crate) struct Arrival {
    pub origin: Origin,
    pub came: Came,
}

/// What a thread that reads holds.
#[derive(Drop)]
struct Reading {
    alloc: Global,
    origin: Origin,
    arrivals: Sender<Arrival, Global>,
    /// Tells that what was handed on is taken.
    turns: Receiver<(), Global>,
}

/// What is read.
fn read_once<R: Read>(alloc: Global, reader: &mut R) -> Came {
    let mut block = [0u8; BLOCK];
    match reader.read(&mut block) {
        Ok(0) => Came::End,
        Ok(n) => match Vec::from_slice(alloc, &block[..n]) {
            Ok(octets) => Came::Octets(octets),
            Err(_) => Came::Fault(ErrorKind::OutOfMemory.into()),
        },
        Err(error) => Came::Fault(error),
    }
}

impl Reading {
    /// Hands on what came, and waits until it is taken; whether the reading goes on.
    fn hand<T: Wait>(&self, waiting: &T, came: Came) -> bool {
        let arrival = Arrival {
            origin: self.origin,
            came,
        };
        self.arrivals.send(waiting, arrival).is_ok() && self.turns.recv(waiting).is_ok()
    }

    /// Reads to the end.
    fn read_all<T: Wait, R: Read>(&self, waiting: &T, reader: &mut R) {
        for _ in 0..u64::MAX {
            let came = read_once(self.alloc, reader);
            let is_last = !matches!(came, Came::Octets(_));
            if !self.hand(waiting, came) || is_last {
                return;
            }
        }
    }

    /// Reads a file to its end, and a FIFO for good.
    fn read_file<T: Wait>(&self, waiting: &T, rt: &HostRuntime, path: &str) {
        match open(rt, path) {
            Ok(mut file) => self.read_all(waiting, &mut file),
            Err(error) => {
                self.hand(waiting, Came::Fault(error));
            }
        }
    }
}

/// Whether a file is a FIFO.
fn is_fifo(rt: &HostRuntime, path: &str) -> bool {
    match fs::metadata(rt, path) {
        Ok(metadata) => metadata.file_type().is_fifo(),
        Err(_) => false,
    }
}

/// Opens a file. A FIFO is opened to be written to as well, so that it has no end when those who write to it leave.
fn open(rt: &HostRuntime, path: &str) -> io::Result<File> {
    OpenOptions::new()
        .read(true)
        .write(is_fifo(rt, path))
        .open(rt, path)
}

/// The ways to the threads that read, and what they hand on.
#[derive(Drop)]
pub(crate) struct Readers {
    sender: Sender<Arrival, Global>,
    arrivals: Receiver<Arrival, Global>,
    peer: Option<Sender<(), Global>>,
    lines: Option<Sender<(), Global>>,
}

impl Readers {
    /// No thread reads yet. Takes memory.
    pub(crate) fn new(alloc: Global) -> io::Result<Readers> {
        let (sender, arrivals) = bounded::<Arrival, Global>(alloc, 2)?;
        Ok(Readers {
            sender,
            arrivals,
            peer: None,
            lines: None,
        })
    }

    /// What a thread that is to read holds, and the way to it.
    fn reading(&self, alloc: Global, origin: Origin) -> io::Result<(Reading, Sender<(), Global>)> {
        let (turn, turns) = bounded::<(), Global>(alloc, 1)?;
        let reading = Reading {
            alloc,
            origin,
            arrivals: self.sender.clone()?,
            turns,
        };
        Ok((reading, turn))
    }

    /// Starts the thread that reads standard input.
    pub(crate) fn read_peer<T: Threads + Wait + Drop + Send + Sync + Copy + 'static>(
        &mut self,
        starting: T,
        rt: HostRuntime,
    ) -> io::Result<()> {
        let (reading, turn) = self.reading(rt.alloc(), Origin::Peer)?;
        let job = move || {
            let mut reader = rt.stdin();
            reading.read_all(&starting, &mut reader);
        };
        match thread::spawn(&starting, job) {
            Ok(_) => {
                self.peer = Some(turn);
                Ok(())
            }
            Err(_) => Err(ErrorKind::OutOfMemory.into()),
        }
    }

    /// Starts the thread that reads the lines of a file.
    pub(crate) fn read_lines<T: Threads + Wait + Drop + Send + Sync + Copy + 'static>(
        &mut self,
        starting: T,
        rt: HostRuntime,
        path: &str,
    ) -> io::Result<()> {
        let (reading, turn) = self.reading(rt.alloc(), Origin::Lines)?;
        let path = String::from_str(rt.alloc(), path)?;
        let job = move || reading.read_file(&starting, &rt, path.as_str());
        match thread::spawn(&starting, job) {
            Ok(_) => {
                self.lines = Some(turn);
                Ok(())
            }
            Err(_) => Err(ErrorKind::OutOfMemory.into()),
        }
    }

    /// Whether a thread reads lines.
    pub(crate) fn reads_lines(&self) -> bool {
        self.lines.is_some()
    }

    /// Waits for what comes next.
    pub(crate) fn next<T: Wait>(&self, waiting: &T) -> Option<Arrival> {
        self.arrivals.recv(waiting).ok()
    }

    /// Lets a thread read on.
    pub(crate) fn go_on<T: Wait>(&self, waiting: &T, origin: Origin) {
        let turn = match origin {
            Origin::Peer => &self.peer,
            Origin::Lines => &self.lines,
        };
        if let Some(turn) = turn {
            let _ = turn.send(waiting, ());
        }
    }
}
