// Numbers in decimal.
ghost use Rattle.std.specs.Prelude.{◌≡◌, ℕ, ◌-◌, ◌^◌, ◌<◌, min, None, Some, MatchOption};
ghost use Rattle.std.specs.Char.{is_ascii_digit};
ghost use Rattle.std.specs.List.{list_all};
ghost use Rattle.std.specs.Str.Parse.{AllDigits, digits_value};
ghost use Rattle.piet_image.specs.Pieces.{is_number as number_test, number_in, byte_in};
ghost use Rattle.std.specs.Option.{option_and_then};

// Whether there are digits, and nothing else.
fn is_number(piece: &[u8]) -> bool
    ensures { result ≡ number_test piece.now }
{
    !piece.is_empty() && are_digits(piece)
}

// Whether all bytes are digits.
fn are_digits(bytes: &[u8]) -> bool
    ensures { result ≡ list_all is_ascii_digit bytes.now }
{
    bytes.iter().all(|byte| byte.is_ascii_digit())
}

// The number that the digits write, or `u64::MAX` where it is above that.
fn size_of(digits: &[u8]) -> u64
    requires { AllDigits 10 digits.now }
    ensures { result ≡ min (digits_value 10 digits.now) (2 ^ 64 - 1) }
{
    let mut size: u64 = 0;
    for digit in digits {
        size = size
            .saturating_mul(10)
            .saturating_add((*digit - b'0') as u64);
    }
    size
}

/// The number that a piece writes, or `u64::MAX` where it is above that, if it is a number.
pub(crate) fn number_of(piece: &[u8]) -> Option<u64>
    ensures { MatchOption result (number_in piece.now ≡ None) (λ size. (n : ℕ) × (number_in piece.now ≡ Some n) × (size ≡ min n (2 ^ 64 - 1))) }
{
    if is_number(piece) {
        Some(size_of(piece))
    } else {
        None
    }
}

/// The number of 0 to 255 that a piece writes, if it is one.
pub(crate) fn byte_of(piece: &[u8]) -> Option<u8>
    ensures { result ≡ option_and_then byte_in (number_in piece.now) }
{
    match number_of(piece) {
        Some(size) if size < 256 => Some(size as u8),
        _ => None,
    }
}
