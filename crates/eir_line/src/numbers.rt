//! The numbers that digits write.

ghost use Rattle.std.specs.Prelude.{◌≡◌, ℕ, ◌<◌, ◌≤◌, ◌^◌, min};
ghost use Rattle.eir_line.specs.Numbers.{value_of};

const CAP: u32 = 16777216;

/// The number that digits write in a radix of 1 to 10, or 2^24 where it is that large or larger.
pub fn number_up_to(radix: u32, digits: &[u8]) -> u32
    requires positive { 0 < radix }
    requires small { radix ≤ 10 }
    ensures { result ≡ min (value_of radix digits.now) (2 ^ 24) }
{
    let mut number = 0;
    for digit in digits {
        number = (number * radix + u32::from(digit.saturating_sub(b'0'))).min(CAP);
    }
    number
}
