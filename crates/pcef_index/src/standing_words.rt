//! Which lines have rules that stand, as words of bits, so that those of rules that are gone are not compared.

ghost use Rattle.std.specs.Prelude.{◌≡◌, ◌+◌, ◌*◌, ◌<◌, ◌^◌, ℕ, IfOk, Some, true};
ghost use Rattle.pcef_index.specs.private.Lines.{stands};
ghost use Rattle.pcef_index.specs.private.Runs.{rule_at};
ghost use Rattle.pcef_index.specs.private.Standing.{AreStanding, HasStanding, StandFor, StandIn, StandInClasses, StandInVersions, standing_at, words_for};

use crate::by_kind::{ByClass, ByKind, ByVersion};
use crate::kinds::Kind;
use crate::lines::{Line, stands};
use crate::runs::rule_at;
use crate::sieve::Sieve;
use crate::sieves::Sieves;
use crate::words::set;
use std::alloc::{AllocError, Global};

/// For each kind of packets a word for each 64 lines of its sieve, with the bits of those whose rules stand; or nothing
/// where all do. A word that isn't there has all bits.
pub(crate) type StandingWords = Option<Box<ByKind<Vec<u64>>>>;

/// The words of a kind.
#[inline(always)]
pub(crate) fn words_for(words: &StandingWords, kind: Kind) -> &[u64]
    ensures { result.now ≡ words_for words.now kind }
{
    match words {
        None => &[],
        Some(words) => words.of(kind),
    }
}

/// The lines of a block whose rules stand, a bit for each.
#[inline(always)]
pub(crate) fn standing_at(words: &[u64], block: usize) -> u64
    ensures { result ≡ standing_at words.now block }
{
    match words.get(block) {
        Some(word) => *word,
        None => u64::MAX,
    }
}

/// Whether the line whose number stands at a place is of a rule that stands.
fn is_standing(lines: &[Line], numbers: &[usize], places: &[Option<u8>], place: usize) -> bool
    ensures { (k : ℕ) → rule_at lines.now numbers.now place ≡ Some k → stands places.now k ≡ true → result ≡ true }
{
    match rule_at(lines, numbers, place) {
        None => false,
        Some(rule) => stands(places, rule),
    }
}

/// The same for the 64 lines of a block.
fn standing_word(lines: &[Line], numbers: &[usize], places: &[Option<u8>], block: usize) -> u64
    requires { block * 64 + 64 < 2 ^ 64 }
    ensures { HasStanding places.now lines.now numbers.now block result }
{
    let mut word = 0u64;
    for bit in 0..64u32 {
        if is_standing(lines, numbers, places, block * 64 + bit as usize) {
            set(&mut word, bit);
        }
    }
    word
}

/// The words of lines with these numbers.
fn standing_words(
    alloc: Global,
    lines: &[Line],
    numbers: &[usize],
    places: &[Option<u8>],
) -> Result<Vec<u64>, AllocError>
    ensures { IfOk result (λ v. AreStanding places.now lines.now numbers.now v.items) }
{
    let blocks = numbers.len().div_ceil(64);
    let mut words = Vec::with_capacity(alloc, blocks)?;
    for block in 0..blocks {
        words.push(standing_word(lines, numbers, places, block))?;
    }
    Ok(words)
}

/// The words of a sieve.
fn words_of(
    alloc: Global,
    lines: &[Line],
    sieve: &Option<Box<Sieve>>,
    places: &[Option<u8>],
) -> Result<Vec<u64>, AllocError>
    ensures { IfOk result (λ v. StandIn places.now lines.now sieve.now v.items) }
{
    match sieve {
        None => Ok(Vec::new(alloc)),
        Some(sieve) => standing_words(alloc, lines, &sieve.numbers, places),
    }
}

/// Those of a direction and a version.
fn words_by_class(
    alloc: Global,
    lines: &[Line],
    sieves: &ByClass<Option<Box<Sieve>>>,
    places: &[Option<u8>],
) -> Result<ByClass<Vec<u64>>, AllocError>
    ensures { IfOk result (StandInClasses places.now lines.now sieves.now) }
{
    let tcp = words_of(alloc, lines, &sieves.tcp, places)?;
    let udp = words_of(alloc, lines, &sieves.udp, places)?;
    let other = words_of(alloc, lines, &sieves.other, places)?;
    Ok(ByClass { tcp, udp, other })
}

/// Those of a direction.
fn words_by_version(
    alloc: Global,
    lines: &[Line],
    sieves: &ByVersion<Option<Box<Sieve>>>,
    places: &[Option<u8>],
) -> Result<ByVersion<Vec<u64>>, AllocError>
    ensures { IfOk result (StandInVersions places.now lines.now sieves.now) }
{
    let narrow = words_by_class(alloc, lines, &sieves.narrow, places)?;
    let wide = words_by_class(alloc, lines, &sieves.wide, places)?;
    Ok(ByVersion { narrow, wide })
}

/// Those of all sieves, for rules that stand at some places. Fails when out of memory.
pub(crate) fn words_by_kind(
    alloc: Global,
    lines: &[Line],
    sieves: &Sieves,
    places: &[Option<u8>],
) -> Result<StandingWords, AllocError>
    ensures { IfOk result (StandFor places.now lines.now sieves.now) }
{
    let uplink = words_by_version(alloc, lines, &sieves.uplink, places)?;
    let downlink = words_by_version(alloc, lines, &sieves.downlink, places)?;
    Ok(Some(Box::new(alloc, ByKind { uplink, downlink })?))
}
