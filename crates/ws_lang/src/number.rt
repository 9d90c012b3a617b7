// Numbers of binary digits.
ghost use Rattle.std.specs.Prelude.{◌≡◌, ◌≤◌, ◌^◌, true, false, MatchOption};
ghost use Rattle.mach_core.specs.Integer.{is_in_range};
ghost use Rattle.ws_lang.specs.Spelling.{binary, signed};

const HALF: u64 = 1 << 63;

#[tactic(auto, using(crate::proofs::NumberLemmas::digits_read))]
// The number of these digits, the highest first, if it has at most 64 of them that count.
fn size_of(digits: &[bool]) -> Option<u64>
    ensures { MatchOption result (2 ^ 64 ≤ binary digits.now) (λ n. n ≡ binary digits.now) }
{
    let mut size: u64 = 0;
    for digit in digits {
        if size >= HALF {
            return None;
        }
        size = 2 * size + if *digit { 1 } else { 0 };
    }
    Some(size)
}

/// The number of this sign and size, if it is within signed 64 bits.
pub fn with_sign(negative: bool, size: u64) -> Option<i64>
    ensures { MatchOption result (is_in_range (signed negative size) ≡ false) (λ n. (n ≡ signed negative size) × (is_in_range n ≡ true)) }
{
    if !negative {
        if size < HALF { Some(size as i64) } else { None }
    } else if size == 0 {
        Some(0)
    } else if size <= HALF {
        Some(-1 - (size - 1) as i64)
    } else {
        None
    }
}

#[tactic(auto, using(crate::proofs::NumberLemmas::digits_read))]
/// The number of this sign and these digits, if it is within signed 64 bits.
pub fn number(negative: bool, digits: &[bool]) -> Option<i64>
    ensures { MatchOption result (is_in_range (signed negative (binary digits.now)) ≡ false) (λ n. (n ≡ signed negative (binary digits.now)) × (is_in_range n ≡ true)) }
{
    with_sign(negative, size_of(digits)?)
}
