//! Classes of bytes, and the runs of them at the front of a text.

ghost use Rattle.std.specs.Prelude.{◌≡◌, ℕ, ◌<◌, ◌≤◌, ◌^◌, List, length, min};
ghost use Rattle.std.specs.List.{prefix_len};
ghost use Rattle.std.specs.Char.{digit_value, is_digit};
ghost use Rattle.c_syntax.specs.Bytes.{is_blank, is_feed, starts_name, goes_on_name, is_suffix, value_of};

const CAP: u32 = 16_777_216;

/// Whether a byte is a space, a tab or a carriage return.
pub fn is_blank(b: u8) -> bool
    ensures { result ≡ is_blank b }
{
    b == b' ' || b == b'\t' || b == b'\r'
}

/// Whether a byte is a vertical tab or a form feed.
pub fn is_feed(b: u8) -> bool
    ensures { result ≡ is_feed b }
{
    b == 11 || b == 12
}

/// Whether a name may start with a byte.
pub fn starts_name(b: u8) -> bool
    ensures { result ≡ starts_name b }
{
    b.is_ascii_alphabetic() || b == b'_'
}

/// Whether a name may go on with a byte.
pub fn goes_on_name(b: u8) -> bool
    ensures { result ≡ goes_on_name b }
{
    b.is_ascii_alphanumeric() || b == b'_'
}

/// Whether a byte makes the number before it unsigned.
pub fn is_suffix(b: u8) -> bool
    ensures { result ≡ is_suffix b }
{
    b == b'u' || b == b'U'
}

/// The value of a digit or a letter as a digit, or 36.
pub fn digit_value(b: u8) -> u32
    ensures value { result ≡ digit_value b }
    ensures small { result ≤ 36 }
{
    match b {
        b'0'..=b'9' => u32::from(b - b'0'),
        b'A'..=b'Z' => u32::from(b - b'A') + 10,
        b'a'..=b'z' => u32::from(b - b'a') + 10,
        _ => 36,
    }
}

/// Whether a byte is a digit in a radix.
pub fn is_digit(b: u8, radix: u32) -> bool
    ensures { result ≡ is_digit b radix }
{
    digit_value(b) < radix
}

/// How long the run of a name's bytes at the front is.
pub fn name_len(bytes: &[u8]) -> usize
    ensures value { result ≡ prefix_len goes_on_name bytes.now }
    ensures within { result ≤ length bytes.now }
{
    bytes.iter().take_while(|b| goes_on_name(**b)).count()
}

/// How many digits in a radix stand at the front.
pub fn digits_len(bytes: &[u8], radix: u32) -> usize
    ensures value { result ≡ prefix_len (λ b. is_digit b radix) bytes.now }
    ensures within { result ≤ length bytes.now }
{
    bytes.iter().take_while(|b| is_digit(**b, radix)).count()
}

/// The number that digits write in a radix of 1 to 16, or 2^24 where it is that large or larger.
pub fn number_up_to(digits: &[u8], radix: u32) -> u32
    requires positive { 0 < radix }
    requires small { radix ≤ 16 }
    ensures { result ≡ min (value_of radix digits.now) (2 ^ 24) }
{
    let mut number = 0;
    for digit in digits {
        number = (number * radix + digit_value(*digit)).min(CAP);
    }
    number
}
