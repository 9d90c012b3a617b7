// The rows of a board.
ghost use Rattle.std.specs.Prelude.{◌≡◌, ◌+◌, ◌*◌, ◌<◌, ℕ, ◌≤◌, length, OnOk, unwrap_or};
ghost use Rattle.piet_image.specs.declared.colour.Colour.TheVariants.{Black};
ghost use Rattle.piet_image.specs.Printed.{each_of};
ghost use Rattle.piet_lane.specs.Board.{cell as cell_by, column_shade, in_shade};
ghost use Rattle.piet_lane.specs.Drawn.{seen_in};

use crate::cell::{Cell, cell_at};
use crate::shade::{coloured, column};
use piet_image::Colour;
use std::alloc::AllocError;

/// The size of a board: how many lanes it has, how many commands the longest has, and the number of the first.
#[derive(Clone, Copy)]
pub struct Extent {
    pub count: u32,
    pub reach: u32,
    pub start: u32,
}

// The colour of what stands at a place, where these are the colours of a lane.
fn seen(cell: Cell, colours: &[Colour]) -> Colour
    requires { (i r : ℕ) → cell ≡ Cell.Column i r → (i < 20000) × (r < 5) }
    ensures { result ≡ unwrap_or (seen_in colours.now cell) Black }
{
    match cell {
        Cell::Outside => Colour::Black,
        Cell::Dark => Colour::Black,
        Cell::Light => Colour::White,
        Cell::Column(lane, below) => coloured(column(lane, below)),
        Cell::Lane(_, codel) => {
            if (codel as usize) < colours.len() {
                colours[codel as usize]
            } else {
                Colour::White
            }
        }
    }
}

/// Puts a row in place of another, where these are the colours of its lane.
pub fn draw_row(
    extent: Extent,
    y: u32,
    colours: &[Colour],
    row: &mut Vec<Colour>,
) -> Result<(), AllocError>
    requires count { extent.count ≤ 16384 }
    requires reach { extent.reach ≤ 512 }
    requires start { extent.start < extent.count }
    requires down { y < 5 * extent.count + 6 }
    ensures { OnOk result (row.new.items ≡ each_of (λ x. unwrap_or (seen_in colours.now (cell_by extent.count extent.reach extent.start x y)) Black) (extent.reach + 5)) }
{
    row.clear();
    for x in 0..extent.reach + 5 {
        let cell = cell_at(extent.count, extent.reach, extent.start, x, y);
        row.push(seen(cell, colours))?;
    }
    Ok(())
}
