// Numbers in decimal.

ghost use Rattle.std.specs.Prelude.{◌≡◌, ◌≤◌, ◌-◌, ◌^◌, min, pos, neg_ℤ, FitsSigned, MatchResult, MatchOption, SomeIff, if◌then◌else◌};
ghost use Rattle.std.specs.Int.{w64};
ghost use Rattle.std.specs.Bool.{MatchBool};
ghost use Rattle.std.specs.Char.{is_ascii_digit};
ghost use Rattle.std.specs.List.{list_all};
ghost use Rattle.std.specs.Str.Parse.{AllDigits, IsNumeral, digits_value};
ghost use Rattle.sq_lang.specs.Text.{SpellsCell};
ghost use Rattle.sq_lang.specs.Answers.{IsWrong};

use crate::text::SqFault;

// Whether there are digits, and nothing else.
fn is_numeral(bytes: &[u8]) -> bool
    ensures { MatchBool result (IsNumeral 10 bytes.now) (¬ (IsNumeral 10 bytes.now)) }
{
    !bytes.is_empty() && are_digits(bytes)
}

// Whether all bytes are digits.
fn are_digits(bytes: &[u8]) -> bool
    ensures { result ≡ list_all is_ascii_digit bytes.now }
{
    bytes.iter().all(|byte| byte.is_ascii_digit())
}

// The number that the digits write, or `u64::MAX` where it is above that.
fn size_of(digits: &[u8]) -> u64
    requires { AllDigits 10 digits.now }
    ensures { result ≡ min (digits_value 10 digits.now) (2 ^ 64 - 1) }
{
    let mut size: u64 = 0;
    for digit in digits {
        size = size
            .saturating_mul(10)
            .saturating_add((*digit - b'0') as u64);
    }
    size
}

// The cell of this size, below 0 or not.
fn signed(negative: bool, size: u64) -> Option<i64>
    ensures { let cell = (if negative then neg_ℤ (pos size) else pos size) in SomeIff result (FitsSigned w64 cell) cell }
{
    if negative {
        0i64.checked_sub_unsigned(size)
    } else {
        0i64.checked_add_unsigned(size)
    }
}

/// The cell that the piece at a place spells, or why it spells none.
pub fn cell_of(piece: &[u8], place: u32) -> Result<i64, SqFault>
    ensures { MatchResult result (SpellsCell piece.now) (IsWrong piece.now place) }
{
    let negative = piece.first() == Some(&b'-');
    let digits = if negative { &piece[1..] } else { piece };
    if !is_numeral(digits) {
        return Err(SqFault::BadNumber(place));
    }
    match signed(negative, size_of(digits)) {
        Some(cell) => Ok(cell),
        None => Err(SqFault::NumberRange(place)),
    }
}
