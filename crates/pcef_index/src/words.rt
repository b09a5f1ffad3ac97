//! Words of bits, one bit for each of 64 lines.

ghost use Rattle.std.specs.Prelude.{◌≡◌, ◌≤◌, ◌<◌, ◌*◌, ℕ, length};
ghost use Rattle.std.specs.Int.{bit_at};
ghost use Rattle.pcef_index.specs.private.Words.{MarksWords};

/// Where the bit of a line stands: 64 lines are a block.
#[derive(Clone, Copy)]
pub(crate) struct Spot {
    /// How many blocks there are.
    pub blocks: usize,
    /// The block of the line.
    pub block: usize,
    /// The bit, 0 to 63.
    pub bit: u32,
}

/// Sets a bit.
#[inline(always)]
pub(crate) fn set(word: &mut u64, bit: u32)
    requires { bit < 64 }
    ensures keeps { (i : ℕ) → bit_at word.old i ≡ 1 → bit_at word.new i ≡ 1 }
    ensures sets { bit_at word.new bit ≡ 1 }
{
    *word |= 1 << bit;
}

/// A word without its bits up to one.
#[inline(always)]
pub(crate) fn above(word: u64, bit: u32) -> u64
    requires { bit < 64 }
    ensures keeps { (i : ℕ) → i < 64 → bit < i → bit_at word i ≡ 1 → bit_at result i ≡ 1 }
    ensures clears { (i : ℕ) → i ≤ bit → bit_at result i ≡ 0 }
    ensures most { result ≤ word }
{
    let top = 1 << bit;
    word & !(top | (top - 1))
}

/// Sets a bit in the words from the first to the last.
#[inline(always)]
pub(crate) fn mark_words(words: &mut [u64], bit: u32, first: usize, last: usize)
    requires bit { bit < 64 }
    requires within { last < length words.old }
    ensures { MarksWords words.old words.new bit first last }
{
    for place in first..last + 1 {
        words[place] |= 1 << bit;
    }
}

/// The numbers of a block: 64, or fewer in the last.
pub(crate) fn block_of(numbers: &[usize], block: usize) -> &[usize]
    requires { block * 64 < length numbers.now }
{
    let end = numbers.len().min(block * 64 + 64);
    &numbers[block * 64..end]
}
