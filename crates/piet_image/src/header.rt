// The header of an image's text.
ghost use Rattle.std.specs.Prelude.{◌≡◌, ℕ, List, [], ◌∷◌, None, Some, MatchOption};
ghost use Rattle.piet_image.specs.Pieces.{uncommented, piece_at, number_at};
ghost use Rattle.piet_image.specs.Text.{IsExtent, HasHeader};
ghost use Rattle.piet_image.specs.Reading.{IsAt, IsNumberRead, IsExtentRead, IsHeaderRead};

use crate::number::number_of;
use crate::pieces::{next_piece, piece_len};

/// The width and the height in pixels, and what stands behind the header.
#[derive(Clone, Copy)]
pub(crate) struct Header<'a> {
    pub width: u32,
    pub height: u32,
    pub rest: &'a [u8],
}

// What stands behind `P3` at the front of a text.
fn past_magic(text: &[u8]) -> Option<&[u8]>
    ensures { MatchOption result (piece_at (uncommented text.now) 0 ≡ 80 ∷ 51 ∷ [] → ⊥)
        (λ rest. (piece_at (uncommented text.now) 0 ≡ 80 ∷ 51 ∷ []) × IsAt text.now 1 rest.now) }
{
    if piece_len(text) != 2 {
        return None;
    }
    let first = text[0];
    let second = text[1];
    if first != b'P' {
        return None;
    }
    if second != b'3' {
        return None;
    }
    Some(&text[2..])
}

// The next piece, if it is a number, or `u64::MAX` where that is above it, and what is left behind it.
fn next_number(left: &[u8]) -> Option<(u64, &[u8])>
    ensures { MatchOption result ((text : List ℕ) (k : ℕ) → IsAt text k left.now → number_at (uncommented text) k ≡ None)
        (λ r. (text : List ℕ) (k : ℕ) → IsAt text k left.now → IsNumberRead text k r.0 r.1.now) }
{
    let Some((piece, rest)) = next_piece(left) else {
        return None;
    };
    match number_of(piece) {
        Some(size) => Some((size, rest)),
        None => None,
    }
}

// The next piece, if it is a number of 1 to 2^31, and what is left behind it.
fn next_extent(left: &[u8]) -> Option<(u32, &[u8])>
    ensures { MatchOption result ((text : List ℕ) (k : ℕ) → IsAt text k left.now → (n : ℕ) → number_at (uncommented text) k ≡ Some n → IsExtent n → ⊥)
        (λ r. (text : List ℕ) (k : ℕ) → IsAt text k left.now → IsExtentRead text k r.0 r.1.now) }
{
    match next_number(left) {
        Some((size, rest)) => {
            if size < 1 || size > 2147483648 {
                return None;
            }
            Some((size as u32, rest))
        }
        None => None,
    }
}

/// The header of a text, if it has one.
pub(crate) fn header_of(text: &[u8]) -> Option<Header<'_>>
    ensures { MatchOption result ((width height : ℕ) → HasHeader (uncommented text.now) width height → ⊥)
        (λ header. IsHeaderRead text.now header.width header.height header.rest.now) }
{
    let behind_magic = past_magic(text)?;
    let (width, behind_width) = next_extent(behind_magic)?;
    let (height, behind_height) = next_extent(behind_width)?;
    let (most, rest) = next_number(behind_height)?;
    if most != 255 {
        return None;
    }
    Some(Header {
        width,
        height,
        rest,
    })
}
