//! The times of one session's packets among those of many.

use crate::fault::Fault;
use crate::source::FileLines;
use crate::{Stamp, TimesFault, is_take, stamp_of};

/// The times of the packets of a session, which are read beside the lines of all sessions.
pub(crate) struct SessionTimes<'a> {
    file: &'a str,
    /// What is left of the file, or none where no times are wanted or a fault was met.
    left: Option<FileLines>,
    stamps: Vec<Stamp>,
    fault: Option<Fault<'a>>,
}

// Written out, so that an owner proves one call on each return path.
impl Drop for SessionTimes<'_> {
    fn drop(self) {
        let SessionTimes {
            file: _,
            left: _,
            stamps: _,
            fault: _,
        } = self;
    }
}

impl<'a> SessionTimes<'a> {
    /// The times in a file, of which none is read yet, or no times. `stamps_from` tells of a file that can't be opened.
    pub(crate) fn open(rt: &HostRuntime, file: Option<&'a str>) -> SessionTimes<'a> {
        let mut times = SessionTimes {
            file: file.unwrap_or(""),
            left: None,
            stamps: Vec::new(rt.alloc()),
            fault: None,
        };
        if let Some(file) = file {
            match FileLines::open(rt, file) {
                Ok(left) => times.left = Some(left),
                Err(error) => times.fault = Some(Fault::at_read(file, error)),
            }
        }
        times
    }

    /// Reads the time of the line of this number, if it takes a packet, and keeps that of the session's own. `line` has
    /// the name of its session before it.
    fn read_time(
        &mut self,
        rt: &HostRuntime,
        number: u64,
        line: &[u8],
        is_own: bool,
    ) -> Result<(), Fault<'a>> {
        let Some(left) = &mut self.left else {
            return Ok(());
        };
        let Some(place) = line.iter().position(|octet| *octet == b' ') else {
            return Ok(());
        };
        if !is_take(rt.alloc(), line.split_at(place).1)? {
            return Ok(());
        }
        let time = match left.next_filled() {
            Ok(Some(time)) => time,
            Ok(None) => return Err(Fault::Times(self.file, TimesFault::NoTime(number))),
            Err(error) => return Err(Fault::at_read(self.file, error)),
        };
        match stamp_of(number, time.1) {
            Some(stamp) if is_own => self.stamps.push(stamp)?,
            Some(_) => {}
            None => return Err(Fault::Times(self.file, TimesFault::BadTime(time.0))),
        }
        Ok(())
    }

    /// Takes the line of this number. Where its time is at fault, no more times are read.
    pub(crate) fn take(&mut self, rt: &HostRuntime, number: u64, line: &[u8], is_own: bool) {
        if let Err(fault) = self.read_time(rt, number, line, is_own) {
            self.left = None;
            self.fault = Some(fault);
        }
    }

    /// The times of the session's packets from the line of this number on, none where no times are wanted. All lines
    /// were taken.
    ///
    /// An `Err` is the first fault of the times.
    pub(crate) fn stamps_from(self, first: u64) -> Result<Option<Vec<Stamp>>, Fault<'a>> {
        let SessionTimes {
            file,
            left,
            mut stamps,
            fault,
        } = self;
        if let Some(fault) = fault {
            return Err(fault);
        }
        let Some(mut left) = left else {
            return Ok(None);
        };
        match left.next_filled() {
            Ok(None) => {}
            Ok(Some((number, _))) => return Err(Fault::Times(file, TimesFault::MoreTimes(number))),
            Err(error) => return Err(Fault::at_read(file, error)),
        }
        stamps.retain(|stamp| stamp.line >= first);
        Ok(Some(stamps))
    }
}
