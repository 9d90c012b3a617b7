// Numbers of words.

ghost use Rattle.std.specs.Prelude.{◌≡◌, ℕ, ◌+◌, ◌*◌, ◌≤◌, ◌%◌, ◌^◌, ◌<◌, nat_le, min};
ghost use Rattle.word24.specs.Word.{number_of};
ghost use Rattle.c_types.specs.Limits.{most_words};

use word24::Word;

/// A number of words of any size: its lowest 24 bits, and the number itself as far as 2^22 + 1.
#[derive(Clone, Copy)]
pub struct Words {
    low: Word,
    capped: u32,
}

// The lowest 24 bits of a product.
fn low_product(low: Word, count: usize) -> Word
    ensures { number_of result ≡ number_of low * count % 2 ^ 24 }
{
    Word::wrap(u64::from(low.get()) * (count as u64 % 16777216))
}

// A product as far as 2^22 + 1.
fn capped_product(capped: u32, count: usize) -> u32
    ensures { result ≡ min (capped * count) (most_words + 1) }
{
    u64::from(capped).saturating_mul(count as u64).min(4194305) as u32
}

impl Words {
    ghost use Rattle.c_types.specs.Seen.{Counts};

    /// So many words.
    pub fn of(n: usize) -> Words
        ensures { Counts result n }
    {
        Words {
            low: Word::wrap(n as u64),
            capped: n.min(4194305) as u32,
        }
    }

    /// The sum of two numbers.
    pub fn plus(self, other: Words) -> Words
        ensures { (m n : ℕ) → Counts self m → Counts other n → Counts result (m + n) }
    {
        Words {
            low: self.low.add(other.low),
            capped: self.capped.saturating_add(other.capped).min(4194305),
        }
    }

    /// So many times the number.
    pub fn times(self, count: usize) -> Words
        ensures { (n : ℕ) → Counts self n → Counts result (count * n) }
    {
        Words {
            low: low_product(self.low, count),
            capped: capped_product(self.capped, count),
        }
    }

    /// The number modulo 2^24.
    pub fn low(self) -> Word
        ensures { (n : ℕ) → Counts self n → number_of result ≡ n % 2 ^ 24 }
    {
        self.low
    }

    /// Whether the number is at most another one, which is at most 2^22.
    pub fn at_most(self, most: u32) -> bool
        requires { most ≤ most_words }
        ensures { (n : ℕ) → Counts self n → result ≡ nat_le n most }
    {
        self.capped <= most
    }
}
