//! When frames were recorded.

ghost use Rattle.std.specs.Prelude.{◌≡◌, ◌<◌, ◌*◌, ◌/◌, ◌^◌, IfSome};
ghost use Rattle.pcef_capture_file.specs.Times.{classic_time, offset_of_bits, per_second, shifted, time_by, time_of, unit_of_octet};

use crate::classic::TimeScale;

/// A time: the seconds since 1970-01-01 00:00:00 UTC, without leap seconds, and the nanoseconds beside them.
#[derive(Clone, Copy, Debug, PartialEq, Eq)]
pub struct Time {
    /// Whole seconds.
    pub seconds: u64,
    /// Nanoseconds, fewer than 1,000,000,000.
    pub nanoseconds: u32,
}

/// The unit in which an interface counts time.
#[derive(Clone, Copy)]
pub(crate) enum TimeUnit {
    /// 10 to the power of minus this number, in seconds.
    Decimal(u8),
    /// 2 to the power of minus this number, in seconds.
    Binary(u8),
}

/// What is added to the times of an interface.
#[derive(Clone, Copy)]
pub(crate) enum TimeOffset {
    /// So many seconds.
    Later(u64),
    /// So many seconds, which are taken away.
    Earlier(u64),
}

/// How an interface counts time.
#[derive(Clone, Copy)]
pub(crate) struct Clock {
    pub unit: TimeUnit,
    pub offset: TimeOffset,
}

impl TimeUnit {
    /// The unit that an octet states.
    pub(crate) fn of_octet(octet: u8) -> TimeUnit
        ensures { result ≡ unit_of_octet octet }
    {
        if octet < 128 {
            TimeUnit::Decimal(octet)
        } else {
            TimeUnit::Binary(octet - 128)
        }
    }

    /// How many units a second has, if the number fits in 64 bits.
    fn per_second(self) -> Option<u64>
        ensures units { result ≡ per_second self }
        ensures some { IfSome result (λ n. 0 < n) }
    {
        match self {
            TimeUnit::Decimal(exponent) => 10u64.checked_pow(u32::from(exponent)),
            TimeUnit::Binary(exponent) => 2u64.checked_pow(u32::from(exponent)),
        }
    }
}

impl TimeOffset {
    /// The offset of a two's complement number of 64 bits.
    pub(crate) fn of_bits(bits: u64) -> TimeOffset
        ensures { result ≡ offset_of_bits bits }
    {
        if bits < 1 << 63 {
            TimeOffset::Later(bits)
        } else {
            TimeOffset::Earlier(u64::MAX - bits + 1)
        }
    }

    /// The seconds with this offset, if they are neither before 1970 nor beyond 64 bits.
    fn shifted(self, seconds: u64) -> Option<u64>
        ensures { result ≡ shifted self seconds }
    {
        match self {
            TimeOffset::Later(offset) => seconds.checked_add(offset),
            TimeOffset::Earlier(offset) => seconds.checked_sub(offset),
        }
    }
}

/// The nanoseconds in this many units, fewer than a second has.
#[tactic(auto, using(crate::proofs::Nanoseconds::below_second))]
fn nanoseconds(units: u64, per_second: u64) -> u32
    requires { units < per_second }
    ensures { result ≡ units * 10 ^ 9 / per_second }
{
    let product = u128::from(units) * 1_000_000_000;
    (product / u128::from(per_second)) as u32
}

impl Clock {
    /// The time after so many units, if this number of units fits a second and the seconds aren't before 1970.
    #[tactic(auto, unfolding(crate::specs::Times::time_of, crate::specs::Times::time_by))]
    pub(crate) fn time_of(self, units: u64) -> Option<Time>
        ensures { result ≡ time_of self units }
    {
        let per_second = self.unit.per_second()?;
        let seconds = self.offset.shifted(units / per_second)?;
        let nanoseconds = nanoseconds(units % per_second, per_second);
        Some(Time {
            seconds,
            nanoseconds,
        })
    }
}

/// The time of a classic file's record.
pub(crate) fn classic_time(scale: TimeScale, seconds: u32, fraction: u32) -> Time
    ensures { result ≡ classic_time scale seconds fraction }
{
    let (per_second, nanoseconds) = match scale {
        TimeScale::Microseconds => (1_000_000, 1000),
        TimeScale::Nanoseconds => (1_000_000_000, 1),
    };
    Time {
        seconds: u64::from(seconds) + u64::from(fraction / per_second),
        nanoseconds: fraction % per_second * nanoseconds,
    }
}
