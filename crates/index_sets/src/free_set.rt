// A set of free numbers below a size, a bit for each.

ghost use Rattle.std.specs.Prelude.{◌≡◌, true, false, IfOk, replicate, set, length, drop};
ghost use Rattle.index_sets.specs.Free.{is_free, count_free, IsLowestFrom, TakesLowest};

use crate::bits::{has_bit, with_bit, without_bit};
use crate::words::{count_from, lowest_from, word_at, zero_words};
use stable::NoMemory;
use std::alloc::Global;
use std::marker::Model;

/// The numbers below a size that are free, as of the blocks of a volume. It takes a bit of memory for each number below the
/// size, all when it is made.
#[derive(Drop)]
pub struct FreeSet {
    words: Vec<u64>,
    size: u32,
    count: u32,
    /// No number is free in the words before this one.
    lowest: usize,
}

impl Model for FreeSet {
    ghost use Rattle.std.specs.Prelude.{◌≡◌, ◌≤◌, ◌<◌, ◌*◌, ◌+◌, ◌/◌, ◌^◌, ℕ, Bool, List, false, length};
    ghost use Rattle.index_sets.specs.Bits.{bit, free_in};
    ghost use Rattle.index_sets.specs.Free.{count_free};

    ghost Value = { List Bool };

    ghost view = { λ s. free_in s.words.items s.size };

    ghost invariant = { λ s. record {
      small : s.size < 2 ^ 32;
      words : length s.words.items ≡ (s.size + 63) / 64;
      within : (i : ℕ) → s.size ≤ i → bit s.words.items i ≡ false;
      count : s.count ≡ count_free (free_in s.words.items s.size);
      lowest : (i : ℕ) → i < 64 * s.lowest → bit s.words.items i ≡ false;
    } };
}

impl FreeSet {
    /// The set for numbers below a size, none of which is free.
    pub fn new(alloc: Global, size: u32) -> Result<FreeSet, NoMemory>
        ensures { IfOk result (λ free. free ≡ replicate size false) }
    {
        let words = zero_words(alloc, size)?;
        Ok(FreeSet {
            words,
            size,
            count: 0,
            lowest: 0,
        })
    }

    /// The size below which its numbers are.
    pub fn size(&self) -> u32
        ensures { result ≡ length self.now }
    {
        self.size
    }

    /// Whether a number is free: false for one that isn't below the size.
    pub fn has(&self, number: u32) -> bool
        ensures { result ≡ is_free self.now number }
    {
        if number >= self.size {
            return false;
        }
        has_bit(
            word_at(self.words.as_slice(), number as usize / 64),
            number % 64,
        )
    }

    /// How many are free.
    pub fn count(&self) -> u32
        ensures { result ≡ count_free self.now }
    {
        self.count
    }

    /// The lowest free number from one on, None where none is free from there on. It looks at the words from there on, and
    /// passes over those below the lowest free number.
    pub fn lowest_from(&self, from: u32) -> Option<u32>
        ensures { IsLowestFrom self.now from result }
    {
        match lowest_from(self.words.as_slice(), from as usize, self.lowest) {
            Some(number) => Some(number as u32),
            None => None,
        }
    }

    /// How many numbers are free from one on. It looks at all words from there on.
    pub fn count_from(&self, from: u32) -> u32
        ensures { result ≡ count_free (drop from self.now) }
    {
        count_from(self.words.as_slice(), from as usize) as u32
    }

    /// Makes a number free. One that is free, or isn't below the size, changes nothing.
    pub fn give(&mut self, number: u32)
        ensures { self.new ≡ set self.old number true }
    {
        if number >= self.size {
            return;
        }
        if self.has(number) {
            return;
        }
        let at = number as usize / 64;
        self.lowest = self.lowest.min(at);
        self.words[at] = with_bit(word_at(self.words.as_slice(), at), number % 64);
        self.count += 1;
    }

    /// Takes a number, which is free no more. One that isn't free changes nothing.
    pub fn take(&mut self, number: u32)
        ensures { self.new ≡ set self.old number false }
    {
        if !self.has(number) {
            return;
        }
        let at = number as usize / 64;
        self.words[at] = without_bit(word_at(self.words.as_slice(), at), number % 64);
        self.count -= 1;
    }

    /// Takes the lowest free number, None where none is free. It starts at the word where the last call found one, so a run of
    /// calls looks at each word once.
    pub fn take_lowest(&mut self) -> Option<u32>
        ensures { TakesLowest self.old result self.new }
    {
        match self.lowest_from(0) {
            Some(number) => {
                self.take(number);
                self.lowest = number as usize / 64;
                Some(number)
            }
            None => {
                self.lowest = self.words.len();
                None
            }
        }
    }
}
