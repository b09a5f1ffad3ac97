//! The frames at the front of some octets.

ghost use Rattle.pcef_sessions.specs.private.Fronts.{IsFront};

/// The most octets of a frame, behind its length.
const MOST_FRAME: usize = 262_210;

/// What octets begin with.
#[derive(Clone, Copy)]
pub(crate) enum Front<'a> {
    /// A whole frame, without its length, and what follows it.
    Whole(&'a [u8], &'a [u8]),
    /// A part of a frame, or nothing.
    Part,
    /// A length that no frame has.
    Bad,
}

/// What octets begin with: the length of a frame, in four octets, the highest first, and the frame.
pub(crate) fn front_of(octets: &[u8]) -> Front<'_>
    ensures { IsFront octets.now result }
{
    let Some((head, rest)) = octets.split_first_chunk::<4>() else {
        return Front::Part;
    };
    let length = u32::from_be_bytes(*head) as usize;
    if length == 0 || length > MOST_FRAME {
        return Front::Bad;
    }
    match rest.split_at_checked(length) {
        Some((frame, others)) => Front::Whole(frame, others),
        None => Front::Part,
    }
}
