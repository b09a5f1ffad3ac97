//! What the arguments ask for.

ghost use Rattle.std.specs.Prelude.{◌≡◌, option_map};
ghost use Rattle.pcef_run.specs.Words.{has_zero_first, path_of, paths_of, pool_of, rate_in, workers_in, workers_of};

use pcef_model::MAX_CAPACITY;
use pcef_rule::Sums;

/// A number of workers: 1 to 16, in decimal digits.
fn workers_in(word: &[u8]) -> Option<u8>
    ensures { result ≡ workers_in word.now }
{
    match word {
        [digit @ b'1'..=b'9'] => Some(*digit - b'0'),
        [b'1', digit @ b'0'..=b'6'] => Some(*digit - b'0' + 10),
        _ => None,
    }
}

/// The number of workers of the run that the arguments ask for, if they do.
pub fn workers_of(words: &[Vec<u8>]) -> Option<u8>
    ensures { result ≡ workers_of words.now }
{
    match words {
        [word, _, workers] if word.as_slice() == b"run".as_slice() => workers_in(
            workers.as_slice(),
        ),
        _ => None,
    }
}

/// The path of the profile of the script or of the run that the arguments ask for, if they do.
pub fn path_of(words: &[Vec<u8>]) -> Option<&[u8]>
    ensures { option_map (λ p. p.now) result ≡ path_of words.now }
{
    match words {
        [word, path] if word.as_slice() == b"script".as_slice() => Some(path.as_slice()),
        [_, path, _] if workers_of(words).is_some() => Some(path.as_slice()),
        _ => None,
    }
}

/// Whether a zero stands before other digits.
fn has_zero_first(word: &[u8]) -> bool
    ensures { result ≡ has_zero_first word.now }
{
    match word {
        [b'0', _, ..] => true,
        _ => false,
    }
}

/// A rate of a pool in bit/s: 0 to 1,099,511,627,775, in decimal digits.
#[tactic(auto, unfolding(crate::specs::Words::rate_in))]
pub(crate) fn rate_in(word: &[u8]) -> Option<u64>
    ensures { result ≡ rate_in word.now }
{
    if word.is_empty() || word.len() > 13 || has_zero_first(word) {
        return None;
    }
    let mut number = 0;
    for digit in word {
        if !digit.is_ascii_digit() {
            return None;
        }
        number = number * 10 + u64::from(*digit - b'0');
    }
    if number > MAX_CAPACITY {
        return None;
    }
    Some(number)
}

/// The capacity of the pool that the arguments ask for, in bit/s, if they do.
pub fn pool_of(words: &[Vec<u8>]) -> Option<Sums>
    ensures { result ≡ pool_of words.now }
{
    match words {
        [word, up, down, _, ..] if words.len() <= 67 && word.as_slice() == b"pool".as_slice() => {
            let up = rate_in(up.as_slice())?;
            let down = rate_in(down.as_slice())?;
            Some(Sums { up, down })
        }
        _ => None,
    }
}

/// The paths of the profiles that the arguments name, in their order; none where they ask for nothing.
pub fn paths_of(words: &[Vec<u8>]) -> &[Vec<u8>]
    ensures { result.now ≡ paths_of words.now }
{
    if pool_of(words).is_some() {
        return &words[3..];
    }
    if path_of(words).is_some() {
        return &words[1..2];
    }
    &words[..0]
}
