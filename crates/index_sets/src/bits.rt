// Bits of a word.

ghost use Rattle.std.specs.Prelude.{◌≡◌, ◌≢◌, ◌<◌, ◌≤◌, ◌==◌, ℕ};
ghost use Rattle.std.specs.Int.{bit_at};
ghost use Rattle.index_sets.specs.Bits.{bits_of};

/// Whether a bit is set.
pub fn has_bit(word: u64, bit: u32) -> bool
    requires { bit < 64 }
    ensures { result ≡ (bit_at word bit == 1) }
{
    (word >> bit) % 2 == 1
}

/// The word with this bit set.
pub fn with_bit(word: u64, bit: u32) -> u64
    requires { bit < 64 }
    ensures here { bit_at result bit ≡ 1 }
    ensures others { (k : ℕ) → k ≢ bit → bit_at result k ≡ bit_at word k }
{
    word | (1 << bit)
}

/// The word with this bit clear.
pub fn without_bit(word: u64, bit: u32) -> u64
    requires { bit < 64 }
    ensures here { bit_at result bit ≡ 0 }
    ensures others { (k : ℕ) → k < 64 → k ≢ bit → bit_at result k ≡ bit_at word k }
{
    word & !(1 << bit)
}

/// The word with the bits below this one clear.
pub fn without_bits_below(word: u64, bit: u32) -> u64
    requires { bit < 64 }
    ensures from { (k : ℕ) → bit ≤ k → k < 64 → bit_at result k ≡ bit_at word k }
    ensures below { (k : ℕ) → k < bit → bit_at result k ≡ 0 }
{
    word & (u64::MAX << bit)
}

/// The lowest bit that is set.
pub fn lowest_bit(word: u64) -> u32
    requires { word ≢ 0 }
    ensures within { result < 64 }
    ensures here { bit_at word result ≡ 1 }
    ensures below { (k : ℕ) → k < result → bit_at word k ≡ 0 }
{
    word.trailing_zeros()
}

/// How many bits are set.
pub fn count_bits(word: u64) -> u32
    ensures { result ≡ bits_of word }
{
    word.count_ones()
}
