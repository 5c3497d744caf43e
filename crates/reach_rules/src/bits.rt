//! Rows of bits, kept in words of 64.
ghost use Rattle.std.specs.Prelude.{◌≡◌, ◌≢◌, ◌<◌, ◌≤◌, ◌+◌, ◌*◌, ◌==◌, ◌++◌, ◌∷◌, ℕ, [], false, length, replicate, slice_index_or, IfOk, OnOk, OnErr};
ghost use Rattle.std.specs.Int.{bit_at};
ghost use Rattle.reach_rules.specs.Bits.{bit_in};
ghost use Rattle.reach_rules.specs.declared.bits.TheConstants.{MOST_WORDS};

use std::alloc::{AllocError, Global};
use std::marker::Model;

/// The bits of a word.
const WORD_BITS: usize = 64;

/// The most words of a row, so that its bits can be counted.
const MOST_WORDS: usize = usize::MAX / WORD_BITS;

/// A row of bits. Contracts see the bits, and how many more there is room for.
#[derive(Drop)]
pub(crate) struct BitRow {
    words: Vec<u64>,
    count: usize,
}

impl Model for BitRow {
    ghost use Rattle.std.specs.Prelude.{◌*◌, ◌≤◌, length};
    ghost use Rattle.reach_rules.specs.Bits.{Bits, bits_of};
    ghost use Rattle.reach_rules.specs.declared.bits.TheConstants.{MOST_WORDS};

    ghost Value = { Bits };

    ghost view = { λ r. bits_of r.words.items r.count };

    ghost invariant = { λ r. (r.count ≤ 64 * length r.words.items) × (length r.words.items ≤ MOST_WORDS) };
}

impl BitRow {
    /// No bits. It takes no memory.
    pub(crate) fn new(alloc: Global) -> BitRow
        ensures { result.bits ≡ [] }
    {
        BitRow {
            words: Vec::new(alloc),
            count: 0,
        }
    }

    /// How many more bits there is room for.
    fn spare(&self) -> usize
        ensures { result ≡ self.now.spare }
    {
        self.words.len() * WORD_BITS - self.count
    }

    /// Makes room for so many bits more.
    pub(crate) fn reserve(&mut self, more: usize) -> Result<(), AllocError>
        ensures bits { self.new.bits ≡ self.old.bits }
        ensures ok { OnOk result (more ≤ self.new.spare) }
        ensures full { OnErr result (self.old.spare < more) }
    {
        if more <= self.spare() {
            return Ok(());
        }
        let words = words_for(self.count, more)?;
        self.words.resize(words, 0)?;
        Ok(())
    }

    /// Adds a bit, for which there is room.
    pub(crate) fn push_reserved(&mut self, bit: bool)
        requires { 0 < self.old.spare }
        ensures bits { self.new.bits ≡ self.old.bits ++ bit ∷ [] }
        ensures spare { self.new.spare + 1 ≡ self.old.spare }
    {
        put_bit(self.words.as_mut_slice(), self.count, bit);
        self.count += 1;
    }

    /// Adds the same bit so many times, for which there is room.
    pub(crate) fn push_all_reserved(&mut self, more: usize, bit: bool)
        requires { more ≤ self.old.spare }
        ensures { self.new.bits ≡ self.old.bits ++ replicate more bit }
    {
        let count = self.count + more;
        put_bits(self.words.as_mut_slice(), self.count, count, bit);
        self.count = count;
    }

    /// The same bits.
    pub(crate) fn copy(&self) -> Result<BitRow, AllocError>
        ensures { IfOk result (λ row. row.bits ≡ self.now.bits) }
    {
        let words = Vec::from_slice(*self.words.allocator(), self.words.as_slice())?;
        Ok(BitRow {
            words,
            count: self.count,
        })
    }

    /// The bit of a number. Past the last it is false.
    pub(crate) fn has(&self, number: usize) -> bool
        ensures { result ≡ slice_index_or self.now.bits number false }
    {
        number < self.count && is_set(self.words.as_slice(), number)
    }
}

/// So many words have room for all these bits.
fn words_for(count: usize, more: usize) -> Result<usize, AllocError>
    ensures room { IfOk result (λ words. count + more ≤ 64 * words) }
    ensures most { IfOk result (λ words. words ≤ MOST_WORDS) }
{
    let bits = count.checked_add(more).ok_or(AllocError)?;
    let words = bits.div_ceil(WORD_BITS);
    if words > MOST_WORDS {
        return Err(AllocError);
    }
    Ok(words)
}

/// Whether the bit of a number is set.
fn is_set(words: &[u64], number: usize) -> bool
    requires { number < 64 * length words.now }
    ensures { result ≡ bit_in words.now number }
{
    (words[number / WORD_BITS] >> (number % WORD_BITS)) & 1 == 1
}

/// Puts the bits of the numbers from one on and below another. What the last word has past them may be anything.
fn put_bits(words: &mut [u64], from: usize, to: usize, bit: bool)
    requires { to ≤ 64 * length words.old }
    ensures same { length words.new ≡ length words.old }
    ensures put { (number : ℕ) → from ≤ number → number < to → bit_in words.new number ≡ bit }
    ensures others { (number : ℕ) → number < from → bit_in words.new number ≡ bit_in words.old number }
{
    let whole = from.div_ceil(WORD_BITS);
    put_each(words, from, to.min(whole.saturating_mul(WORD_BITS)), bit);
    put_words(words, whole, to.div_ceil(WORD_BITS), bit);
}

/// The same, bit by bit.
fn put_each(words: &mut [u64], from: usize, to: usize, bit: bool)
    requires { to ≤ 64 * length words.old }
    ensures same { length words.new ≡ length words.old }
    ensures put { (number : ℕ) → from ≤ number → number < to → bit_in words.new number ≡ bit }
    ensures others { (number : ℕ) → number < from → bit_in words.new number ≡ bit_in words.old number }
{
    for number in from..to {
        put_bit(words, number, bit);
    }
}

/// Puts all bits of the words from one on and below another.
fn put_words(words: &mut [u64], from: usize, to: usize, bit: bool)
    requires { to ≤ length words.old }
    ensures same { length words.new ≡ length words.old }
    ensures put { (number : ℕ) → 64 * from ≤ number → number < 64 * to → bit_in words.new number ≡ bit }
    ensures others { (number : ℕ) → number < 64 * from → bit_in words.new number ≡ bit_in words.old number }
{
    let full = word_of(bit);
    for place in from..to {
        words[place] = full;
    }
}

/// The word whose bits are all the same.
fn word_of(bit: bool) -> u64
    ensures { (place : ℕ) → place < 64 → (bit_at result place == 1) ≡ bit }
{
    if bit { u64::MAX } else { 0 }
}

/// Puts the bit of a number.
fn put_bit(words: &mut [u64], number: usize, bit: bool)
    requires { number < 64 * length words.old }
    ensures same { length words.new ≡ length words.old }
    ensures put { bit_in words.new number ≡ bit }
    ensures others { (other : ℕ) → other ≢ number → bit_in words.new other ≡ bit_in words.old other }
{
    let word = words[number / WORD_BITS];
    words[number / WORD_BITS] = with_bit(word, number % WORD_BITS, bit);
}

/// The word with this bit at a place.
fn with_bit(word: u64, place: usize, bit: bool) -> u64
    requires { place < 64 }
    ensures put { (bit_at result place == 1) ≡ bit }
    ensures others { (other : ℕ) → other < 64 → other ≢ place → bit_at result other ≡ bit_at word other }
{
    let mask = 1 << place;
    if bit { word | mask } else { word & !mask }
}
