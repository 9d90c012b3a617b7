// A piece of the file that is being read.
ghost use Rattle.std.specs.Prelude.{◌≡◌, ◌-◌, ◌+◌, length};
ghost use Rattle.wasm_bytes.specs.Piece.{place, place_before, begins_with, byte_at, expected_at, piece, view_window, cut_at, closed_at};
ghost use Rattle.wasm_bytes.specs.Outcome.{Gives};

use crate::fault::ModFault;

/// What is left of a piece of the file, and where the piece ends in the file.
#[derive(Clone, Copy)]
pub struct Cursor<'b> {
    pub left: &'b [u8],
    pub end: u32,
}

/// A piece whose size is stated, and what stands behind it.
#[derive(Clone, Copy)]
pub struct Window<'b> {
    pub inside: Cursor<'b>,
    pub behind: Cursor<'b>,
    /// Whether there are as many bytes as stated.
    pub whole: bool,
}

// How many bytes of the file come before the last `len` of the first `end`.
fn before(end: u32, len: usize) -> u32
    ensures { result ≡ end - len }
{
    (end as usize).saturating_sub(len) as u32
}

/// The place in the file of the first byte that is left.
pub fn offset(c: Cursor) -> u32
    ensures { result ≡ place (piece c.entry) }
{
    before(c.end, c.left.len())
}

/// The place in the file of the byte before the first that is left.
pub fn offset_before(c: Cursor) -> u32
    ensures { result ≡ place_before (piece c.entry) }
{
    before(c.end, c.left.len() + 1)
}

/// Whether this byte comes next.
pub fn starts(byte: u8, c: Cursor) -> bool
    ensures { result ≡ begins_with byte (piece c.entry) }
{
    match c.left {
        [] => false,
        [first, ..] => *first == byte,
    }
}

/// Takes the next byte.
pub fn byte(c: Cursor<'_>) -> Result<(u8, Cursor<'_>), ModFault>
    ensures { Gives (λ x. (x.0, piece x.1)) result (byte_at (piece c.entry)) }
{
    match c.left {
        [] => Err(ModFault::Malformed(c.end)),
        [byte, left @ ..] => Ok((*byte, Cursor { left, end: c.end })),
    }
}

/// Takes this byte, where it comes next.
pub fn expected(byte: u8, c: Cursor<'_>) -> Result<Cursor<'_>, ModFault>
    ensures { Gives piece result (expected_at byte (piece c.entry)) }
{
    let (found, rest) = self::byte(c)?;
    if found == byte {
        Ok(rest)
    } else {
        Err(ModFault::Malformed(offset(c)))
    }
}

/// The next bytes, as many as stated, or all where there are fewer.
pub fn cut(size: u32, c: Cursor<'_>) -> Window<'_>
    ensures { view_window result ≡ cut_at size (piece c.entry) }
{
    let (inside, behind) = c.left.split_at((size as usize).min(c.left.len()));
    Window {
        inside: Cursor {
            left: inside,
            end: before(c.end, behind.len()),
        },
        behind: Cursor {
            left: behind,
            end: c.end,
        },
        whole: size as usize <= c.left.len(),
    }
}

/// What stands behind a piece whose contents have ended: they end where the piece does.
pub fn closed<'b>(w: Window<'b>, rest: Cursor<'b>) -> Result<Cursor<'b>, ModFault>
    ensures { Gives piece result (closed_at (view_window w.entry) (piece rest.entry)) }
{
    if rest.left.is_empty() && w.whole {
        Ok(w.behind)
    } else {
        Err(ModFault::Malformed(offset(rest)))
    }
}
