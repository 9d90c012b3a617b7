//! Decimal numbers as text.
ghost use Rattle.std.specs.Prelude.{◌≡◌, ◌≤◌, IfSome};
ghost use Rattle.std.specs.List.{list_all};
ghost use Rattle.std.specs.Char.{is_ascii_digit};
ghost use Rattle.elvm_words.specs.Number.{is_digits, number_in};

// Each byte is a digit.
fn are_digits(bytes: &[u8]) -> bool
    ensures { result ≡ list_all is_ascii_digit bytes.now }
{
    bytes.iter().all(|b| b.is_ascii_digit())
}

// The text is 1 to `most` digits.
fn has_digits(text: &str, most: usize) -> bool
    ensures { result ≡ is_digits most text.now }
{
    !text.is_empty() && text.len() <= most && are_digits(text.as_bytes())
}

/// The number that 1 to `most` digits write, where it is at least `low` and at most `high`.
pub fn number(text: &str, most: usize, low: u64, high: u64) -> Option<u64>
    ensures value { result ≡ number_in most low high text.now }
    ensures low { IfSome result (λ n. low ≤ n) }
    ensures high { IfSome result (λ n. n ≤ high) }
{
    if !has_digits(text, most) {
        return None;
    }
    match text.parse::<u64>() {
        Ok(value) => {
            if low <= value && value <= high {
                Some(value)
            } else {
                None
            }
        }
        Err(_) => None,
    }
}
