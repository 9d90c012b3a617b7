// What stands at the places of a board.
ghost use Rattle.std.specs.Prelude.{◌≡◌, ◌<◌, ◌≤◌, if◌then◌else◌};
ghost use Rattle.piet_lane.specs.Board.{cell as cell_by};

/// What stands at a place.
#[derive(Clone, Copy)]
pub enum Cell {
    Outside,
    Dark,
    Light,
    /// Of the column, so many codels below the head of a lane.
    Column(u32, u32),
    /// Of a lane, so many codels to the left of the column.
    Lane(u32, u32),
}

// Light or dark.
fn light_if(light: bool) -> Cell
    ensures { result ≡ (if light then Cell.Light else Cell.Dark) }
{
    if light { Cell::Light } else { Cell::Dark }
}

/// What stands at a place of a board of so many lanes, the longest of which has so many commands.
#[tactic(auto, unfolding(crate::specs::Board::cell))]
pub fn cell_at(count: u32, reach: u32, start: u32, x: u32, y: u32) -> Cell
    requires count { count ≤ 16384 }
    requires reach { reach ≤ 512 }
    requires start { start < count }
    ensures { result ≡ cell_by count reach start x y }
{
    if !(x < reach + 5 && y < 5 * count + 6) {
        return Cell::Outside;
    }
    if y == 0 {
        return Cell::Light;
    }
    if x == reach + 4 {
        return light_if(y <= 6 + 5 * start);
    }
    if x == reach + 3 {
        return light_if(y == 6 + 5 * start);
    }
    if y == 1 {
        return Cell::Dark;
    }
    if y == 2 {
        return Cell::Light;
    }
    if 5 * count + 4 <= y {
        return light_if(reach < x);
    }
    if x == reach + 2 {
        return Cell::Column((y - 3) / 5, (y - 3) % 5);
    }
    if y == 5 * count + 3 {
        return Cell::Dark;
    }
    if x == 0 {
        return Cell::Light;
    }
    if (y - 3) % 5 == 3 {
        return Cell::Lane((y - 3) / 5, reach + 2 - x);
    }
    Cell::Dark
}
