// Numbers of blocks and of words in a frame: they become words, so they are told modulo 2^24.

ghost use Rattle.std.specs.Prelude.{ℕ, ◌+◌};
ghost use Rattle.c_counted.specs.Numbers.{IsNumber};

/// The sum of two numbers.
pub fn plus(a: u32, b: u32) -> u32
    ensures { (m n : ℕ) → IsNumber a m → IsNumber b n → IsNumber result (m + n) }
{
    a.wrapping_add(b)
}

/// The next number.
pub fn next(a: u32) -> u32
    ensures { (m : ℕ) → IsNumber a m → IsNumber result (m + 1) }
{
    a.wrapping_add(1)
}
