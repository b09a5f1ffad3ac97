//! Which lines let an address of version 4 pass, by its eight digits of four bits.

ghost use Rattle.std.specs.Prelude.{◌≡◌, ◌≤◌, ◌<◌, ◌+◌, ◌-◌, ◌*◌, ◌/◌, ◌^◌, ℕ, IfOk, length, false};
ghost use Rattle.std.specs.Int.{bit_at};
ghost use Rattle.pcef_index.specs.private.Digits.{AgreeAbove, AreDigits, HasDigits, LetsDigits, MarksDigit, MarksNumber, ArePlaces, digit_of, digit_place, digit_places};

use crate::words::{Spot, mark_words};
use std::alloc::{AllocError, Global};

/// How many values a digit has.
const VALUES: usize = 16;

/// How many words a block has: one for each value of each of eight digits.
const WORDS: usize = 128;

/// Which of the lines that look at an address let it pass: for each 64 lines, for each digit, the lowest first, for each of
/// its values, a word with a bit for each line. No words where no line looks at the address.
#[derive(Drop)]
pub(crate) struct Digits {
    words: Vec<u64>,
}

/// The first and the last of the values of a digit that agree with one above some low bits.
#[inline(always)]
fn values_of(value: usize, loose: u8) -> (usize, usize)
    requires { value < 16 }
    ensures within { result.1 < 16 }
    ensures has { (v : ℕ) → v < 16 → AgreeAbove loose v value → (result.0 ≤ v) × (v ≤ result.1) }
{
    match loose {
        0 => (value, value),
        1 => (value / 2 * 2, value / 2 * 2 + 1),
        2 => (value / 4 * 4, value / 4 * 4 + 3),
        3 => (value / 8 * 8, value / 8 * 8 + 7),
        _ => (0, 15),
    }
}

/// Sets a bit at the values of a digit that agree with one above some low bits.
#[inline(always)]
fn mark_digit(words: &mut [u64], at: usize, bit: u32, value: usize, loose: u8)
    requires bit { bit < 64 }
    requires value { value < 16 }
    requires within { at + 16 ≤ length words.old }
    ensures { MarksDigit words.old words.new at bit value loose }
{
    if loose == 0 {
        mark_words(words, bit, at + value, at + value);
        return;
    }
    let (first, last) = values_of(value, loose);
    mark_words(words, bit, at + first, at + last);
}

/// Sets a bit at the digits of the numbers that agree with one above some low bits.
fn mark_number(words: &mut [u64], at: usize, bit: u32, number: u32, loose: u8)
    requires bit { bit < 64 }
    requires within { at + 128 ≤ length words.old }
    ensures { MarksNumber words.old words.new at bit number loose }
{
    for digit in 0..8u8 {
        let value = ((number >> (4 * digit)) % 16) as usize;
        let here = at + VALUES * usize::from(digit);
        mark_digit(words, here, bit, value, loose.saturating_sub(4 * digit));
    }
}

/// The place of the word of a digit of a number, among those of a block.
#[inline(always)]
fn place_of(number: u32, digit: u8) -> usize
    requires { digit < 8 }
    ensures { result ≡ digit_place number digit }
{
    let value = ((number >> (4 * digit)) % 16) as usize;
    VALUES * usize::from(digit) + value
}

/// The places of the words of a number's digits, among those of a block.
#[inline(always)]
pub(crate) fn places_of(number: u32) -> [usize; 8]
    ensures { result ≡ digit_places number }
{
    [
        place_of(number, 0),
        place_of(number, 1),
        place_of(number, 2),
        place_of(number, 3),
        place_of(number, 4),
        place_of(number, 5),
        place_of(number, 6),
        place_of(number, 7),
    ]
}

/// The lines that have a bit in the words at all these places.
#[inline(always)]
fn word_of(words: &[u64], places: [usize; 8]) -> u64
    requires words { 128 ≤ length words.now }
    requires places { ArePlaces places }
    ensures { (i n : ℕ) → i < 64 → places ≡ digit_places n → HasDigits words.now 0 8 n i → bit_at result i ≡ 1 }
{
    let mut word = u64::MAX;
    for digit in 0..8 {
        word &= words[places[digit]];
    }
    word
}

impl Digits {
    /// So many blocks, where a line looks at the address. No line is added yet. Fails when out of memory.
    pub(crate) fn new(
        alloc: Global,
        blocks: usize,
        is_looked_at: bool,
    ) -> Result<Digits, AllocError>
        ensures { IfOk result (AreDigits blocks) }
    {
        if !is_looked_at {
            return Ok(Digits {
                words: Vec::new(alloc),
            });
        }
        let Some(count) = WORDS.checked_mul(blocks) else {
            return Err(AllocError);
        };
        let words = vec![in alloc; 0u64; count]?;
        Ok(Digits { words })
    }

    /// Whether no line looks at the address.
    #[inline(always)]
    pub(crate) fn is_empty(&self) -> bool
        ensures { result ≡ false → 0 < length self.now.words.items }
    {
        self.words.is_empty()
    }

    /// Adds a line, which lets the addresses pass that agree with a number above some low bits.
    pub(crate) fn add(&mut self, spot: Spot, number: u32, loose: u8)
        requires bit { spot.bit < 64 }
        requires block { spot.block < spot.blocks }
        requires some { 0 < length self.old.words.items }
        requires digits { AreDigits spot.blocks self.old }
        ensures digits { AreDigits spot.blocks self.new }
        ensures keeps { (block n i : ℕ) → LetsDigits self.old block n i → LetsDigits self.new block n i }
        ensures lets { (n : ℕ) → n / 2 ^ loose ≡ number / 2 ^ loose → LetsDigits self.new spot.block n spot.bit }
    {
        mark_number(&mut self.words, WORDS * spot.block, spot.bit, number, loose);
    }

    /// Which of the 64 lines of a block let an address pass.
    #[inline(always)]
    pub(crate) fn word(&self, block: usize, places: [usize; 8]) -> u64
        requires words { 0 < length self.now.words.items → 128 * (block + 1) ≤ length self.now.words.items }
        requires places { ArePlaces places }
        ensures { (i n : ℕ) → i < 64 → places ≡ digit_places n → LetsDigits self.now block n i → bit_at result i ≡ 1 }
    {
        if self.words.is_empty() {
            return 0;
        }
        word_of(&self.words[WORDS * block..], places)
    }
}
