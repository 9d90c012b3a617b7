// The samples of an image's text: how much red, green and blue each pixel has.
ghost use Rattle.std.specs.Prelude.{◌≡◌, ℕ, ◌*◌, ◌^◌, ◌<◌, ◌≤◌, List, length, slice_index, IfOk, MatchResult};
ghost use Rattle.std.specs.Result.{IfErr};
ghost use Rattle.piet_image.specs.Reading.{IsAt, StopsAt, Breaks, HasSamples, AddsRow, IsSampleRead, IsPixelRead};

use crate::code::code_of;
use crate::number::byte_of;
use crate::pieces::next_piece;
use crate::read::PpmFault;

// The next sample of a text of so many bytes, and what is left behind it.
fn next_sample(size: usize, left: &[u8]) -> Result<(u8, &[u8]), PpmFault>
    requires { size ≤ 2 ^ 29 }
    ensures { MatchResult result (λ r. (text : List ℕ) (k : ℕ) → length text ≡ size → IsAt text k left.now → IsSampleRead text k r.0 r.1.now)
        (λ fault. (text : List ℕ) (k : ℕ) → length text ≡ size → IsAt text k left.now → StopsAt text k fault) }
{
    let Some((piece, rest)) = next_piece(left) else {
        return Err(PpmFault::Short);
    };
    match byte_of(piece) {
        Some(byte) => Ok((byte, rest)),
        None => {
            let place = size.saturating_sub(rest.len() + piece.len());
            Err(PpmFault::BadNumber(place as u32))
        }
    }
}

// The code of the next pixel, and what is left behind it.
fn next_pixel(size: usize, left: &[u8]) -> Result<(u8, &[u8]), PpmFault>
    requires { size ≤ 2 ^ 29 }
    ensures read { MatchResult result (λ r. (text : List ℕ) (k : ℕ) → length text ≡ size → IsAt text k left.now → IsPixelRead text k r.0 r.1.now)
        (λ fault. (text : List ℕ) (k : ℕ) → length text ≡ size → IsAt text k left.now → Breaks text k 3 fault) }
    ensures small { IfOk result (λ r. r.0 < 20) }
{
    let (red, behind_red) = next_sample(size, left)?;
    let (green, behind_green) = next_sample(size, behind_red)?;
    let (blue, behind_blue) = next_sample(size, behind_green)?;
    Ok((code_of(red, green, blue), behind_blue))
}

/// What is left behind so many samples.
pub(crate) fn past_samples(size: usize, left: &[u8], count: u64) -> Result<&[u8], PpmFault>
    requires { size ≤ 2 ^ 29 }
    ensures { MatchResult result (λ rest. (text : List ℕ) (k : ℕ) → length text ≡ size → IsAt text k left.now → HasSamples text k count rest.now)
        (λ fault. (text : List ℕ) (k : ℕ) → length text ≡ size → IsAt text k left.now → Breaks text k count fault) }
{
    let mut rest = left;
    for _i in 0..count {
        let (_byte, behind) = next_sample(size, rest)?;
        rest = behind;
    }
    Ok(rest)
}

/// Adds the codes of so many codels side by side, each by its first pixel, and gives what is left behind the row of
/// pixels.
pub(crate) fn read_row<'a>(
    size: usize,
    left: &'a [u8],
    codes: &mut Vec<u8>,
    columns: u32,
    codel: u32,
) -> Result<&'a [u8], PpmFault>
    requires few { size ≤ 2 ^ 29 }
    requires some { 0 < codel }
    requires small { (j : ℕ) → slice_index codes.old.items j < 20 }
    ensures read { MatchResult result (λ rest. (text : List ℕ) (k : ℕ) → length text ≡ size → IsAt text k left.now → HasSamples text k (3 * (columns * codel)) rest.now)
        (λ fault. (text : List ℕ) (k : ℕ) → length text ≡ size → IsAt text k left.now → Breaks text k (3 * (columns * codel)) fault) }
    ensures row { IfOk result (λ _. (text : List ℕ) (k : ℕ) → length text ≡ size → IsAt text k left.now → AddsRow text k codel codes.old.items codes.new.items columns) }
    ensures small { (j : ℕ) → slice_index codes.new.items j < 20 }
{
    let mut rest = left;
    for _x in 0..columns {
        let (code, behind) = next_pixel(size, rest)?;
        let Ok(()) = codes.push(code) else {
            return Err(PpmFault::Memory);
        };
        rest = past_samples(size, behind, 3 * (codel as u64 - 1))?;
    }
    Ok(rest)
}
