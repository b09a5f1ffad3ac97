//! A writer that fails for good.

ghost use Rattle.std.specs.Prelude.{◌≡◌, ◌≢◌, [], IfErr, IfOk, IsErr, false, is_err, true};
ghost use Rattle.std.specs.Io.{WritesAtMost};
ghost use Rattle.std.specs.Io.KnownBytes.{Keeps, WriteAppends};
ghost use Rattle.std.specs.IoError.{error_kind};
ghost use Rattle.pcef_base.specs.Fusing.{behind, has_failed};

use std::io::{self, ErrorKind, Write};

/// A writer that fails for good: once a write or a flush failed, it writes nothing more, and each further call fails. A
/// write that is interrupted, or takes no octet of some, has failed.
#[derive(Drop)]
pub struct Fused<W: Write + Drop> {
    writer: W,
    has_failed: bool,
}

impl<W: Write + Drop> Fused<W> {
    /// A writer that hasn't failed yet.
    pub fn new(writer: W) -> Fused<W>
        ensures failed { has_failed result ≡ false }
        ensures writer { behind result ≡ writer }
    {
        Fused {
            writer,
            has_failed: false,
        }
    }

    /// Notes a failure, and returns it as it is passed on: never as an interruption, for a buffer would make that write
    /// again.
    fn fail(&mut self, error: io::Error) -> io::Error
        ensures lasting { error_kind result ≢ ErrorKind.Interrupted }
        ensures failed { has_failed self.new ≡ true }
        ensures writer { behind self.new ≡ behind self.old }
    {
        self.has_failed = true;
        if error.kind() == ErrorKind::Interrupted {
            return io::Error::other("a call of the system was interrupted");
        }
        error
    }
}

impl<W: Write + Drop> Write for Fused<W> {
    ghost contents = { λ w. W.contents (behind w) };

    fn write(&mut self, octets: &[u8]) -> io::Result<usize>
        ensures bound { WritesAtMost result octets.now }
        ensures bytes { WriteAppends (W.contents (behind self.old)) (W.contents (behind self.new)) result octets.now }
        ensures some { IfOk result (λ n. n ≡ 0 → octets.now ≡ []) }
        ensures lasting { IfErr result (λ e. error_kind e ≢ ErrorKind.Interrupted) }
        ensures fails { has_failed self.new ≡ is_err result }
        ensures failed { has_failed self.old ≡ true → IsErr result × (self.new ≡ self.old) }
    {
        if self.has_failed {
            return Err(io::Error::from(ErrorKind::Other));
        }
        match self.writer.write(octets) {
            Ok(0) if !octets.is_empty() => Err(self.fail(io::Error::from(ErrorKind::WriteZero))),
            Ok(many) => Ok(many),
            Err(error) => Err(self.fail(error)),
        }
    }

    fn flush(&mut self) -> io::Result<()>
        ensures bytes { Keeps (W.contents (behind self.old)) (W.contents (behind self.new)) }
        ensures lasting { IfErr result (λ e. error_kind e ≢ ErrorKind.Interrupted) }
        ensures fails { has_failed self.new ≡ is_err result }
        ensures failed { has_failed self.old ≡ true → IsErr result × (self.new ≡ self.old) }
    {
        if self.has_failed {
            return Err(io::Error::from(ErrorKind::Other));
        }
        match self.writer.flush() {
            Ok(()) => Ok(()),
            Err(error) => Err(self.fail(error)),
        }
    }
}
