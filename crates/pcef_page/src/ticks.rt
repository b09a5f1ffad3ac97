//! The ticks of an axis.

use crate::sheet::Sheet;

/// The most ticks above 0.
pub(crate) const MOST_TICKS: u64 = 5;

/// The factors of a power of ten at which ticks may stand.
const FACTORS: [u64; 3] = [1, 2, 5];

/// The distance between ticks, so that at most five of them stand up to `most`: 1, 2 or 5 times a power of ten.
pub(crate) fn tick_distance(most: u64) -> u64 {
    let mut power = 1u64;
    for turn in 0..60usize {
        let distance = power.saturating_mul(FACTORS[turn % 3]).max(1);
        if most / distance <= MOST_TICKS {
            return distance;
        }
        if turn % 3 == 2 {
            power = power.saturating_mul(10);
        }
    }
    u64::MAX
}

/// The first tick that isn't below `most`.
pub(crate) fn tick_above(most: u64) -> u64 {
    let distance = tick_distance(most).max(1);
    let whole = (most / distance).saturating_mul(distance);
    if whole < most {
        whole.saturating_add(distance)
    } else {
        whole.max(1)
    }
}

/// The powers of ten that have a prefix in the International System of Units.
const PREFIXES: &[(u64, &str)] = &[
    (1_000_000_000_000_000_000, " E"),
    (1_000_000_000_000_000, " P"),
    (1_000_000_000_000, " T"),
    (1_000_000_000, " G"),
    (1_000_000, " M"),
    (1_000, " k"),
];

/// Writes the label of a tick, with the prefix that suits the distance between ticks.
pub(crate) fn push_tick(page: &mut Sheet, value: u64, distance: u64) {
    for (power, prefix) in PREFIXES {
        if distance >= *power && value > 0 {
            page.count(value / (*power).max(1));
            page.raw(prefix);
            return;
        }
    }
    page.count(value);
}

/// The nanoseconds of a second.
const SECOND: u64 = 1_000_000_000;

/// Writes nanoseconds as seconds, with as many digits behind the point as the distance between ticks needs.
pub(crate) fn push_seconds(page: &mut Sheet, nanoseconds: u64, distance: u64) {
    page.count(nanoseconds / SECOND);
    let mut rest = nanoseconds % SECOND;
    let mut step = SECOND;
    for place in 0..9usize {
        if distance % step.max(1) == 0 {
            return;
        }
        if place == 0 {
            page.raw(".");
        }
        step /= 10;
        page.number(rest / step.max(1));
        rest %= step.max(1);
    }
}
