// Reading an image.
ghost use Rattle.std.specs.Prelude.{◌≡◌, ℕ, ◌*◌, ◌^◌, ◌<◌, ◌≤◌, List, length, slice_index, IfOk, MatchResult};
ghost use Rattle.piet_image.specs.Reading.{IsAt, Breaks, HasSamples, HasRows};
ghost use Rattle.piet_image.specs.Text.{Spells, IsRefusedFor};

use crate::header::header_of;
use crate::image::Image;
use crate::pieces::next_piece;
use crate::samples::{past_samples, read_row};
use std::alloc::Global;
use thiserror::Error;

/// The most codels of an image.
const MOST: u64 = 67108864;

/// Why a text was refused. A place is the index of a byte.
#[derive(Clone, Copy, Debug, PartialEq, Eq, Error)]
pub enum PpmFault {
    /// The text doesn't begin with `P3`, a width and a height of 1 to 2^31, and 255.
    #[error("no header of a plain pixel map")]
    BadHeader,
    /// The size of a codel doesn't divide the width and the height.
    #[error("the image is not made of such codels")]
    NotCodel,
    /// There are more than 2^26 codels.
    #[error("the image is too large")]
    TooLarge,
    /// The piece at this place is no number of 0 to 255.
    #[error("no number of 0 to 255 at {0}")]
    BadNumber(u32),
    /// The text ends before the last pixel.
    #[error("the text ends before the last pixel")]
    Short,
    /// A piece stands at this place, behind the last pixel.
    #[error("more than the pixels at {0}")]
    Extra(u32),
    #[error("out of memory")]
    Memory,
}

// The codes of an image's codels, row after row, and what is left behind its samples.
fn read_codes<'a>(
    alloc: Global,
    size: usize,
    left: &'a [u8],
    columns: u32,
    rows: u32,
    codel: u32,
) -> Result<(Vec<u8>, &'a [u8]), PpmFault>
    requires few { size ≤ 2 ^ 29 }
    requires some { 0 < codel }
    requires narrow { columns * codel ≤ 2 ^ 31 }
    requires codels { columns * rows ≤ 2 ^ 26 }
    ensures read { MatchResult result (λ r. (text : List ℕ) → length text ≡ size → IsAt text 4 left.now → HasSamples text 4 (3 * ((rows * codel) * (columns * codel))) r.1.now)
        (λ fault. (text : List ℕ) → length text ≡ size → IsAt text 4 left.now → Breaks text 4 (3 * ((rows * codel) * (columns * codel))) fault) }
    ensures rows { IfOk result (λ r. (text : List ℕ) → length text ≡ size → IsAt text 4 left.now → HasRows text codel columns r.0.items rows) }
    ensures small { IfOk result (λ r. (j : ℕ) → slice_index r.0.items j < 20) }
{
    let Ok(mut codes) = Vec::with_capacity(alloc, columns as usize * rows as usize) else {
        return Err(PpmFault::Memory);
    };
    let mut rest = left;
    for _y in 0..rows {
        let behind = read_row(size, rest, &mut codes, columns, codel)?;
        rest = past_samples(
            size,
            behind,
            3 * ((codel as u64 - 1) * (columns as u64 * codel as u64)),
        )?;
    }
    Ok((codes, rest))
}

/// Reads an image in the plain pixel map format: `P3`, the width and the height in pixels, 255, and then three numbers
/// of 0 to 255 for each pixel, parted by blanks, line feeds and comments from a `#` to the line's end. A codel is
/// `codel` pixels wide and high, and its top left pixel has its colour.
///
/// A text is refused for its header (`BadHeader`), the codels' size (`NotCodel`) or their number (`TooLarge`), the
/// first of these, and else for the first piece that is no number of 0 to 255 (`BadNumber`), an end before the last
/// pixel (`Short`), or a piece behind it (`Extra`).
pub fn read_ppm(alloc: Global, text: &[u8], codel: u32) -> Result<Image, PpmFault>
    requires few { length text.now ≤ 2 ^ 29 }
    requires some { 1 ≤ codel }
    ensures { MatchResult result (Spells text.now codel) (IsRefusedFor text.now codel) }
{
    let Some(header) = header_of(text) else {
        return Err(PpmFault::BadHeader);
    };
    if header.width % codel != 0 || header.height % codel != 0 {
        return Err(PpmFault::NotCodel);
    }
    let columns = header.width / codel;
    let rows = header.height / codel;
    if columns as u64 * rows as u64 > MOST {
        return Err(PpmFault::TooLarge);
    }
    let (codes, rest) = read_codes(alloc, text.len(), header.rest, columns, rows, codel)?;
    match next_piece(rest) {
        Some((piece, behind)) => {
            let place = text.len().saturating_sub(behind.len() + piece.len());
            Err(PpmFault::Extra(place as u32))
        }
        None => Ok(Image::of(columns, rows, codes)),
    }
}
