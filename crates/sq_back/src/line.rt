// Lines of three cells.
ghost use Rattle.std.specs.Prelude.{◌≡◌, ℤ, pos, negsuc};
ghost use Rattle.sq_back.specs.Code.{numbers, subtract, go, nowhere};

use crate::cells::ZERO;

/// Three neighbouring cells of an image: an instruction, or three numbers that others use.
#[derive(Clone, Copy)]
pub struct Line {
    /// The address of the cell that is subtracted.
    pub from: i64,
    /// The address of the cell that it is subtracted from.
    pub to: i64,
    /// Where to go if the difference is at most 0.
    pub next: i64,
}

/// Three numbers.
pub(crate) fn numbers(from: i64, to: i64, next: i64) -> Line
    ensures { result ≡ numbers from to next }
{
    Line { from, to, next }
}

/// Subtracts the one cell from the other, and goes to a place if the difference is at most 0.
pub(crate) fn subtract(from: u32, to: u32, place: i64) -> Line
    ensures { result ≡ subtract from to place }
{
    numbers(i64::from(from), i64::from(to), place)
}

/// Goes to a place.
pub(crate) fn go(place: i64) -> Line
    ensures { result ≡ go place }
{
    subtract(ZERO, ZERO, place)
}
