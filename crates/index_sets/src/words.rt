// Bits of words, 64 in each, numbered from the lowest bit of the first.

ghost use Rattle.std.specs.Prelude.{◌≡◌, ◌≢◌, ◌<◌, ◌≤◌, ◌*◌, ◌^◌, ◌/◌, ◌+◌, ℕ, false, IfOk, replicate, get_or, length};
ghost use Rattle.index_sets.specs.Bits.{bit, bits_from, IsLowestBit};

use crate::bits::{count_bits, lowest_bit, without_bits_below};
use stable::NoMemory;
use std::alloc::Global;

/// Words without bits, for numbers below a size.
pub fn zero_words(alloc: Global, size: u32) -> Result<Vec<u64>, NoMemory>
    ensures { IfOk result (λ words. words.items ≡ replicate ((size + 63) / 64) 0) }
{
    let words = vec![in alloc; 0; size.div_ceil(64) as usize]?;
    Ok(words)
}

/// A word.
pub fn word_at(words: &[u64], at: usize) -> u64
    requires { at < length words.now }
    ensures { result ≡ get_or words.now at 0 }
{
    words[at]
}

// The first word from a place on that isn't 0, the end where there is none.
fn first_word(words: &[u64], from: usize) -> usize
    ensures within { result ≤ length words.now }
    ensures zeros { (k : ℕ) → from ≤ k → k < result → get_or words.now k 0 ≡ 0 }
    ensures from { result < length words.now → from ≤ result }
    ensures some { result < length words.now → get_or words.now result 0 ≢ 0 }
{
    for at in from..words.len() {
        if word_at(words, at) != 0 {
            return at;
        }
    }
    words.len()
}

/// The lowest bit that is set from one on. No bit is set in the words before `lowest`: but for the first they are passed over.
pub fn lowest_from(words: &[u64], from: usize, lowest: usize) -> Option<usize>
    requires small { length words.now < 2 ^ 32 }
    requires lowest { (i : ℕ) → i < 64 * lowest → bit words.now i ≡ false }
    ensures { IsLowestBit words.now from result }
{
    let first = from / 64;
    if first >= words.len() {
        return None;
    }
    let rest = without_bits_below(word_at(words, first), (from % 64) as u32);
    if rest != 0 {
        return Some(64 * first + lowest_bit(rest) as usize);
    }
    let at = first_word(words, lowest.max(first + 1));
    if at >= words.len() {
        return None;
    }
    Some(64 * at + lowest_bit(word_at(words, at)) as usize)
}

/// How many bits are set from one on.
pub fn count_from(words: &[u64], from: usize) -> usize
    requires { length words.now < 2 ^ 32 }
    ensures { result ≡ bits_from words.now from }
{
    let first = from / 64;
    if first >= words.len() {
        return 0;
    }
    let rest = without_bits_below(word_at(words, first), (from % 64) as u32);
    let mut total = count_bits(rest) as usize;
    for at in first + 1..words.len() {
        total += count_bits(word_at(words, at)) as usize;
    }
    total
}
