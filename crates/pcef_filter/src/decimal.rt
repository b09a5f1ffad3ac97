//! Decimal numbers.

ghost use Rattle.std.specs.Prelude.{◌≡◌, ◌≤◌, length};
ghost use Rattle.pcef_filter.specs.ReadingClasses.{number_in};

/// The most digits of a number that stands alone.
pub const MOST_DIGITS: usize = 5;

/// The number that a token writes in at most `most_digits` digits.
#[tactic(auto, unfolding(crate::specs::ReadingClasses::number_in))]
pub(crate) fn number_of(token: &[u8], most_digits: usize) -> Option<u32>
    // Five digits are within 32 bits.
    requires { most_digits ≤ 5 }
    ensures { result ≡ number_in most_digits token.now }
{
    if token.is_empty() || token.len() > most_digits {
        return None;
    }
    let mut number = 0;
    for digit in token {
        if !digit.is_ascii_digit() {
            return None;
        }
        number = number * 10 + u32::from(*digit - b'0');
    }
    Some(number)
}
