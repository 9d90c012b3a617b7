// Numbers in LEB128.
ghost use Rattle.std.specs.Prelude.{◌≡◌, ◌≤◌, ◌<◌, ◌*◌, ◌^◌, length, true, false, MatchOption, IfOk};
ghost use Rattle.wasm_bytes.specs.Piece.{piece};
ghost use Rattle.wasm_bytes.specs.Number.{unsigned_value, signed_of, is_i32, leb_at, u32_at, i32_at, limited_at};
ghost use Rattle.wasm_bytes.specs.Outcome.{Gives};

use crate::cursor::{Cursor, byte, offset, offset_before};
use crate::fault::ModFault;
use arrayvec::ArrayVec;

// Takes the bytes of a number, five at most.
fn leb(c: Cursor<'_>) -> Result<(ArrayVec<u8, 5>, Cursor<'_>), ModFault>
    ensures { Gives (λ x. (x.0.items, piece x.1)) result (leb_at 4 (piece c.entry)) }
{
    let mut bytes = ArrayVec::new();
    let mut rest = c;
    for _ in 0..4u8 {
        let (next, after) = byte(rest)?;
        bytes.push(next);
        rest = after;
        if next < 128 {
            return Ok((bytes, rest));
        }
    }
    let (last, after) = byte(rest)?;
    if last >= 128 {
        return Err(ModFault::Malformed(offset(rest)));
    }
    bytes.push(last);
    Ok((bytes, after))
}

// The number that the low seven bits of each byte make, and how many such numbers there are.
fn value(bytes: &[u8]) -> (u64, u64)
    requires { length bytes.now ≤ 5 }
    ensures value { result.0 ≡ unsigned_value bytes.now }
    ensures span { result.1 ≡ 128 ^ length bytes.now }
    ensures below { result.0 < result.1 }
    ensures bound { result.1 ≤ 2 ^ 35 }
{
    let mut value = 0u64;
    let mut span = 1u64;
    for byte in bytes {
        value += u64::from(*byte % 128) * span;
        span *= 128;
    }
    (value, span)
}

// The signed number of this value, where it has 32 bits.
fn signed(value: u64, span: u64) -> Option<i32>
    requires below { value < span }
    requires bound { span ≤ 2 ^ 35 }
    ensures { MatchOption result (is_i32 (signed_of value span) ≡ false) (λ z. (z ≡ signed_of value span) × (is_i32 (signed_of value span) ≡ true)) }
{
    if 2 * value < span {
        i32::try_from(value).ok()
    } else {
        0i64.checked_sub_unsigned(span - value)
            .and_then(|z| i32::try_from(z).ok())
    }
}

/// Takes an unsigned number of 32 bits.
#[tactic(auto, unfolding(crate::specs::Number::u32_at))]
pub fn unsigned(c: Cursor<'_>) -> Result<(u32, Cursor<'_>), ModFault>
    ensures { Gives (λ x. (x.0, piece x.1)) result (u32_at (piece c.entry)) }
{
    let (bytes, rest) = leb(c)?;
    let (value, _) = value(bytes.as_slice());
    if value < 1 << 32 {
        Ok((value as u32, rest))
    } else {
        Err(ModFault::Malformed(offset_before(rest)))
    }
}

/// Takes a signed number of 32 bits.
#[tactic(auto, unfolding(crate::specs::Number::i32_at))]
pub fn integer(c: Cursor<'_>) -> Result<(i32, Cursor<'_>), ModFault>
    ensures { Gives (λ x. (x.0, piece x.1)) result (i32_at (piece c.entry)) }
{
    let (bytes, rest) = leb(c)?;
    let (value, span) = value(bytes.as_slice());
    match signed(value, span) {
        Some(z) => Ok((z, rest)),
        None => Err(ModFault::Malformed(offset_before(rest))),
    }
}

/// Takes an unsigned number of 32 bits that doesn't pass a limit.
#[tactic(auto, unfolding(crate::specs::Number::limited_at))]
pub fn limited(limit: u32, c: Cursor<'_>) -> Result<(u32, Cursor<'_>), ModFault>
    ensures answer { Gives (λ x. (x.0, piece x.1)) result (limited_at limit (piece c.entry)) }
    ensures bound { IfOk result (λ x. x.0 ≤ limit) }
{
    let (n, rest) = unsigned(c)?;
    if n > limit {
        Err(ModFault::TooLarge(offset(c)))
    } else {
        Ok((n, rest))
    }
}
