//! Why a frame is malformed.

ghost use Rattle.std.specs.Prelude.{◌≡◌};
ghost use Rattle.pcef_sessions.specs.Frames.{frame_fault_text};

/// Why a frame is malformed.
#[derive(Clone, Copy, Debug, PartialEq, Eq)]
pub enum FrameFault {
    /// Its name is no session's.
    BadName,
    /// It ends before its last field.
    ShortFrame,
    /// It has octets behind its last field, or a packet of more than 65,575 octets.
    LongFrame,
    /// Its kind is none of 0 to 2.
    UnknownKind,
    /// Its worker is none of 0 to 15.
    BadWorker,
    /// Its direction is neither 0 nor 1.
    BadDirection,
    /// Its line has a line feed, or is blank.
    BadLine,
    /// Its length is 0, or more than 262,210. What follows can't be read.
    BadLength,
    /// The input ends inside it.
    CutFrame,
}

impl FrameFault {
    /// The answer to a frame with this fault.
    pub(crate) fn text(self) -> &'static str
        ensures { result.now ≡ frame_fault_text self }
    {
        match self {
            FrameFault::BadName => "{\"fault\":1,\"name\":\"BadName\"}",
            FrameFault::ShortFrame => "{\"fault\":2,\"name\":\"ShortFrame\"}",
            FrameFault::LongFrame => "{\"fault\":3,\"name\":\"LongFrame\"}",
            FrameFault::UnknownKind => "{\"fault\":4,\"name\":\"UnknownKind\"}",
            FrameFault::BadWorker => "{\"fault\":5,\"name\":\"BadWorker\"}",
            FrameFault::BadDirection => "{\"fault\":6,\"name\":\"BadDirection\"}",
            FrameFault::BadLine => "{\"fault\":7,\"name\":\"BadLine\"}",
            FrameFault::BadLength => "{\"fault\":8,\"name\":\"BadLength\"}",
            FrameFault::CutFrame => "{\"fault\":9,\"name\":\"CutFrame\"}",
        }
    }
}
