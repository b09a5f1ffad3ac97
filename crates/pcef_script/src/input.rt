//! What is read of a script, line by line.

ghost use Rattle.std.specs.Prelude.{◌≡◌, ◌≤◌, ◌+◌, ◌-◌, ◌↔◌, ◌++◌, [], Err, IfErr, false, length, option_map, take};
ghost use Rattle.pcef_script.specs.declared.fault.ScriptFault.TheVariants.{NoMemory, TooMuch};
ghost use Rattle.pcef_script.specs.ScriptLines.{ForLine, KeepsByte, script_most, kept_of, TakesByte, has_feed, is_blank_line, within_limit};

use crate::fault::ScriptFault;
use crate::lines::{MAX_LINE, is_space};
use memchr::memchr;
use std::alloc::Global;
use std::marker::Model;

/// The most bytes of a script.
const MAX_SCRIPT: u64 = 1_073_741_824;

/// The line that is being read. Of one that is too long no more than [`MAX_LINE`] bytes are kept.
#[derive(Drop)]
pub struct Pending {
    bytes: Vec<u8>,
    is_too_long: bool,
    read: u64,
}

impl Model for Pending {
    ghost use Rattle.pcef_script.specs.ScriptLines.{KeptLine};

    ghost Value = { KeptLine };

    ghost view = { λ p. record {
      bytes = p.bytes.items;
      is_too_long = p.is_too_long;
      read = p.read;
    } };
}

/// Keeps one more byte of a line, or only that the line is too long.
fn keep(bytes: &mut Vec<u8>, is_too_long: &mut bool, byte: u8) -> Result<(), ScriptFault>
    ensures ok { KeepsByte byte bytes.old.items is_too_long.old result
        bytes.new.items is_too_long.new }
    ensures err { IfErr result (λ e. (e ≡ NoMemory)
        × (bytes.new.items ≡ bytes.old.items) × (is_too_long.new ≡ is_too_long.old)) }
{
    if bytes.len() >= MAX_LINE {
        *is_too_long = true;
        return Ok(());
    }
    match bytes.push(byte) {
        Ok(()) => Ok(()),
        Err(_) => Err(ScriptFault::NoMemory),
    }
}

/// How many bytes stand before the first line feed, at most `most`.
fn plain_len(bytes: &[u8], most: usize) -> usize
    ensures within { result ≤ length bytes.now }
    ensures most { result ≤ most }
    ensures plain { has_feed (take result bytes.now) ≡ false }
{
    let most = most.min(bytes.len());
    match memchr(b'\n', bytes.split_at(most).0) {
        Some(place) => place,
        None => most,
    }
}

impl Pending {
    /// Nothing read yet.
    pub(crate) fn new(alloc: Global) -> Pending
        ensures { result ≡ kept_of [] 0 }
    {
        Pending {
            bytes: Vec::new(alloc),
            is_too_long: false,
            read: 0,
        }
    }

    /// Takes bytes up to the next line feed, fewer where they would pass a limit or find no memory, and returns how
    /// many. The bytes of a line that is too long already are only counted. [`Pending::take`] takes the next byte, or
    /// says why not.
    pub(crate) fn take_plain(&mut self, bytes: &[u8]) -> usize
        ensures within { result ≤ length bytes.now }
        ensures plain { has_feed (take result bytes.now) ≡ false }
        ensures most { self.old.read ≤ script_most → self.old.read + result ≤ script_most }
        ensures line { ForLine self.old (λ line.
            self.new ≡ kept_of (line ++ take result bytes.now) (self.old.read + result)) }
    {
        let script_left = MAX_SCRIPT.saturating_sub(self.read) as usize;
        if self.is_too_long {
            let taken = plain_len(bytes, script_left);
            self.read += taken as u64;
            return taken;
        }
        let line_left = MAX_LINE.saturating_sub(self.bytes.len());
        let taken = plain_len(bytes, line_left.min(script_left));
        match self.bytes.extend_from_slice(bytes.split_at(taken).0) {
            Ok(()) => {
                self.read += taken as u64;
                taken
            }
            Err(_) => 0,
        }
    }

    /// Takes one byte, and returns whether it ends the line.
    pub(crate) fn take(&mut self, byte: u8) -> Result<bool, ScriptFault>
        ensures much { (result ≡ Err TooMuch) ↔ (script_most ≤ self.old.read) }
        ensures line { ForLine self.old (λ line. TakesByte byte line self.old result self.new) }
    {
        if self.read >= MAX_SCRIPT {
            return Err(ScriptFault::TooMuch);
        }
        if byte == b'\n' {
            self.read += 1;
            return Ok(true);
        }
        keep(&mut self.bytes, &mut self.is_too_long, byte)?;
        self.read += 1;
        Ok(false)
    }

    /// How many bytes may be read next: the rest of a script and one byte more, which shows that it is too long.
    pub(crate) fn room(&self) -> usize
        ensures { result ≡ script_most + 1 - self.now.read }
    {
        MAX_SCRIPT.saturating_add(1).saturating_sub(self.read) as usize
    }

    /// Begins the next line.
    pub(crate) fn clear(&mut self)
        ensures { self.new ≡ kept_of [] self.old.read }
    {
        self.bytes.clear();
        self.is_too_long = false;
    }

    /// Whether the line gets no answer: it is within the limit and holds only spaces, tabs and CR.
    pub(crate) fn is_blank(&self) -> bool
        ensures { ForLine self.now (λ line. result ≡ is_blank_line line) }
    {
        !self.is_too_long && is_space(&self.bytes)
    }

    /// The bytes of the line, unless it is too long.
    pub(crate) fn bytes(&self) -> Option<&[u8]>
        ensures { ForLine self.now (λ line. option_map (λ b. b.now) result ≡ within_limit line) }
    {
        if self.is_too_long {
            None
        } else {
            Some(&self.bytes)
        }
    }
}
