//! The files that are read.

use crate::Watch;
use pcef_base::{Progress, Watched};
use std::fs::File;
use std::io::{self, BufRead, BufReader, Read};
use std::rt::Stdin;

/// From so many octets on, progress is shown: a second or so of work.
const MANY_OCTETS: u64 = 32 * 1024 * 1024;

/// The progress over so many octets, which is shown where there are many.
fn progress_over(rt: &HostRuntime, len: u64) -> Progress {
    Progress::new(rt, if len < MANY_OCTETS { 0 } else { len })
}

/// A file, or standard input.
#[derive(Drop)]
enum Source {
    File(Watched<File>),
    Input(Stdin),
}

impl Read for Source {
    fn read(&mut self, octets: &mut [u8]) -> io::Result<usize> {
        match self {
            Source::File(file) => file.read(octets),
            Source::Input(input) => input.read(octets),
        }
    }
}

impl Source {
    /// A file, or standard input where the path is `-`.
    fn open(rt: &HostRuntime, path: &str) -> io::Result<Source> {
        if path == "-" {
            return Ok(Source::Input(rt.stdin()));
        }
        let file = File::open(rt, path)?;
        let len = match file.metadata() {
            Ok(metadata) => metadata.len(),
            Err(_) => 0,
        };
        Ok(Source::File(Watched::new(file, progress_over(rt, len))))
    }
}

/// The lines of a file, which are read one by one.
pub(crate) struct FileLines {
    reader: BufReader<Source>,
    line: Vec<u8>,
    /// How many lines were read.
    number: u64,
}

// Written out, so that an owner proves one call on each return path.
impl Drop for FileLines {
    fn drop(self) {
        let FileLines {
            reader: _,
            line: _,
            number: _,
        } = self;
    }
}

impl FileLines {
    /// The lines of a file, or of standard input where the path is `-`. Takes memory for them, one at a time.
    pub(crate) fn open(rt: &HostRuntime, path: &str) -> io::Result<FileLines> {
        Ok(FileLines {
            reader: BufReader::new(rt.alloc(), Source::open(rt, path)?)?,
            line: Vec::new(rt.alloc()),
            number: 0,
        })
    }

    /// Reads the next line, and returns whether there is one.
    fn read(&mut self) -> io::Result<bool> {
        self.line.clear();
        if self.reader.read_until(b'\n', &mut self.line)? == 0 {
            return Ok(false);
        }
        if self.line.last() == Some(&b'\n') {
            let _ = self.line.pop();
        }
        self.number = self.number.saturating_add(1);
        Ok(true)
    }

    /// The next line, without its line feed.
    pub(crate) fn next(&mut self) -> io::Result<Option<&[u8]>> {
        if self.read()? {
            Ok(Some(self.line.as_slice()))
        } else {
            Ok(None)
        }
    }

    /// The next line that isn't blank, behind its number, from 1.
    pub(crate) fn next_filled(&mut self) -> io::Result<Option<(u64, &[u8])>> {
        for _ in 0..u64::MAX {
            if !self.read()? {
                break;
            }
            if !is_blank(self.line.as_slice()) {
                return Ok(Some((self.number, self.line.as_slice())));
            }
        }
        Ok(None)
    }
}

/// Whether a line has nothing but spaces, tabs and CR.
pub(crate) fn is_blank(line: &[u8]) -> bool {
    line.iter().all(|octet| *octet == b' ' || *octet == b'\t' || *octet == b'\r')
}

/// How far the figures are collected.
#[derive(Drop)]
pub(crate) struct Collecting {
    progress: Progress,
}

impl Collecting {
    /// None of so many octets is read.
    pub(crate) fn new(rt: &HostRuntime, len: usize) -> Collecting {
        Collecting {
            progress: progress_over(rt, len as u64),
        }
    }

    /// The figures are collected.
    pub(crate) fn end(&mut self) {
        self.progress.clear();
    }
}

impl Watch for Collecting {
    fn note(&mut self, count: usize) {
        self.progress.note(count);
    }
}
