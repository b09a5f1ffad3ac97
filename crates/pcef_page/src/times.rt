//! When the packets of a script were recorded.

ghost use Rattle.std.specs.Prelude.{◌≡◌, ◌<◌, ◌≤◌, ◌+◌, ◌^◌, ◌∷◌, [], IfErr, IfOk, IfSome, MatchOption, Some, drop, filter, map, option_map, take};
ghost use Rattle.pcef_page.specs.Pairing.{json_of, filled};
ghost use Rattle.pcef_page.specs.Times.{FailsTimes, AreStampsOf, has_packet, is_take, decimal_in, space_in, stamp_in, time_in};
ghost use Rattle.pcef_page.specs.private.Lines.{HasRoom, left, size};

use crate::collecting::value_of;
use crate::figures::Stamp;
use crate::pairing::Lines;
use crate::values::asks;
use memchr::memchr;
use std::alloc::{AllocError, AllocFailed, Global};
use thiserror::Error;

/// Why times and a script don't belong together.
#[derive(Clone, Copy, Debug, PartialEq, Eq, Error)]
pub enum TimesFault {
    /// The line of this number of the times, from 1, is none: seconds in at most ten digits, a point and nine digits, a
    /// space, and a frame's number.
    #[error("line {0} of the times isn't seconds with nine digits behind the point, a space and a frame's number")]
    BadTime(u64),
    /// There are more packets than times: the `take` line of this number is the first without one.
    #[error("there are fewer times than take lines: line {0} has none")]
    NoTime(u64),
    /// There are more times than packets: the line of this number of the times is the first without one.
    #[error("there are more times than take lines: line {0} of the times has none")]
    MoreTimes(u64),
    /// There is no memory left.
    #[error("there is no memory left")]
    NoMemory,
}

impl From<AllocError> for TimesFault {
    ghost use Rattle.pcef_page.specs.declared.times.TimesFault.TheVariants.{NoMemory};

    ghost from_gives = { λ _ fault. fault ≡ NoMemory };

    fn from(_refused: AllocError) -> TimesFault {
        TimesFault::NoMemory
    }
}

impl<T: Drop> From<AllocFailed<T>> for TimesFault {
    ghost use Rattle.pcef_page.specs.declared.times.TimesFault.TheVariants.{NoMemory};

    ghost from_gives = { λ _ fault. fault ≡ NoMemory };

    fn from(_refused: AllocFailed<T>) -> TimesFault {
        TimesFault::NoMemory
    }
}

/// The number that decimal digits write, at least one and at most so many.
#[tactic(auto, unfolding(crate::specs::Times::decimal_in))]
fn number_of(digits: &[u8], most_digits: usize) -> Option<u64>
    // Nineteen digits are within 64 bits.
    requires { most_digits ≤ 19 }
    ensures number { result ≡ decimal_in most_digits digits.now }
    ensures bound { IfSome result (λ n. n < 10 ^ most_digits) }
{
    if digits.is_empty() || digits.len() > most_digits {
        return None;
    }
    let mut number = 0;
    for digit in digits {
        if !digit.is_ascii_digit() {
            return None;
        }
        number = number * 10 + u64::from(*digit - b'0');
    }
    Some(number)
}

/// Nanoseconds, of seconds in at most ten digits with nine digits behind the point.
fn nanoseconds_of(text: &[u8]) -> Option<u64>
    ensures { result ≡ time_in text.now }
{
    if text.len() < 11 {
        return None;
    }
    let (seconds, rest) = text.split_at(text.len() - 10);
    let (point, rest) = rest.split_at(1);
    if point[0] != b'.' {
        return None;
    }
    let seconds = number_of(seconds, 10)?;
    let rest = number_of(rest, 9)?;
    Some(seconds * 1_000_000_000 + rest)
}

/// What stands before the first space of a line, and what stands behind it.
fn around_space(line: &[u8]) -> (&[u8], &[u8])
    ensures front { result.0.now ≡ take (space_in line.now) line.now }
    ensures back { result.1.now ≡ drop (space_in line.now + 1) line.now }
{
    let Some(place) = memchr(b' ', line) else {
        return (line, &[]);
    };
    let (front, rest) = line.split_at(place);
    (front, rest.split_at(1).1)
}

/// When the packet of the `take` line of this number was recorded, by a line of times, or none where that is no such
/// line: seconds in at most ten digits, a point and nine digits, a space, and a frame's number.
pub fn stamp_of(line: u64, time: &[u8]) -> Option<Stamp>
    ensures { result ≡ stamp_in line time.now }
{
    let (time, frame) = around_space(time);
    Some(Stamp {
        line,
        nanoseconds: nanoseconds_of(time)?,
        frame: number_of(frame, 19)?,
    })
}

/// Whether a line of a script takes a packet, be it right or not. Takes memory for it. An `Err` is out of memory.
pub fn is_take(alloc: Global, line: &[u8]) -> Result<bool, AllocError>
    ensures { IfOk result (λ takes. takes ≡ is_take (json_of line.now)) }
{
    Ok(match value_of(alloc, line)? {
        Some(value) => asks(&value, "take"),
        None => false,
    })
}

/// The number of the next line that takes a packet.
fn next_take(alloc: Global, script: &mut Lines<'_>) -> Result<Option<u64>, AllocError>
    requires { HasRoom script.old }
    ensures line { IfOk result (λ next. MatchOption next (filter has_packet (left script.old) ≡ [])
        (λ number. (line : _) × (filter has_packet (left script.old) ≡ (number, line) ∷ filter has_packet (left script.new)))) }
    ensures shorter { IfOk result (λ next. IfSome next (λ _. size script.new < size script.old)) }
    ensures room { HasRoom script.new }
{
    while let Some(line) = script.next() {
        if is_take(alloc, line.octets)? {
            return Ok(Some(line.number));
        }
    }
    Ok(None)
}

/// Reads when the packets of a script were recorded: the nth `take` line has the nth line of the times that isn't blank.
/// Takes memory for them, and for each line of the script in turn.
///
/// An `Err` is the first fault in the order of the `take` lines, or out of memory.
pub fn read_times(alloc: Global, lines: &[u8], times: &[u8]) -> Result<Vec<Stamp>, TimesFault>
    ensures stamps { IfOk result (λ stamps. AreStampsOf lines.now times.now stamps.items) }
    ensures fault { IfErr result (λ fault. FailsTimes fault lines.now times.now) }
{
    let mut stamps = Vec::new(alloc);
    let mut script = Lines::of(lines);
    let mut times = Lines::of(times);
    while let Some(number) = next_take(alloc, &mut script)? {
        let Some(time) = times.next() else {
            return Err(TimesFault::NoTime(number));
        };
        let Some(stamp) = stamp_of(number, time.octets) else {
            return Err(TimesFault::BadTime(time.number));
        };
        stamps.push(stamp)?;
    }
    match times.next() {
        Some(time) => Err(TimesFault::MoreTimes(time.number)),
        None => Ok(stamps),
    }
}
