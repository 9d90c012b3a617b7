// What stands at the start of every image.
ghost use Rattle.std.specs.Prelude.{◌≡◌, ◌≤◌, ◌^◌, ◌++◌, length};
ghost use Rattle.eir_core.specs.Eir.{size_of};
ghost use Rattle.sq_back.specs.Code.{load_lines, store_lines, find_lines};
ghost use Rattle.sq_back.specs.Head.{head_lines};

use crate::cells::{
    COUNT, GOTO_NEXT, GOTO_START, GREATEST, LOAD_FROM, MEMORY, MINUS_ONE, NOWHERE, OTHER, ROWS,
    ROWS_START, STORE_FROM, STORE_TO, WORK, ZERO, goal,
};
use crate::line::{Line, go, numbers, subtract};

/// The word at the address in the work cell comes into the work cell.
pub(crate) fn load_lines() -> [Line; 9]
    ensures { result ≡ load_lines }
{
    [
        subtract(LOAD_FROM, LOAD_FROM, 24),
        subtract(MEMORY, ZERO, 27),
        subtract(WORK, ZERO, 30),
        subtract(ZERO, LOAD_FROM, 33),
        subtract(ZERO, ZERO, 36),
        subtract(WORK, WORK, 39),
        subtract(0, ZERO, 42),
        subtract(ZERO, WORK, 45),
        go(0),
    ]
}

/// The word at the address in the work cell becomes that in the other cell: what it was, less its difference with
/// that one.
pub(crate) fn store_lines() -> [Line; 14]
    ensures { result ≡ store_lines }
{
    [
        subtract(STORE_FROM, STORE_FROM, 51),
        subtract(STORE_TO, STORE_TO, 54),
        subtract(MEMORY, ZERO, 57),
        subtract(WORK, ZERO, 60),
        subtract(ZERO, STORE_FROM, 63),
        subtract(ZERO, STORE_TO, 66),
        subtract(ZERO, ZERO, 69),
        subtract(WORK, WORK, 72),
        subtract(0, ZERO, 75),
        subtract(ZERO, WORK, 78),
        subtract(ZERO, ZERO, 81),
        subtract(OTHER, WORK, 84),
        subtract(WORK, 0, 87),
        go(0),
    ]
}

/// Goes to the block of the number in the work cell, if there is one, else ends.
pub(crate) fn find_lines() -> [Line; 14]
    ensures { result ≡ find_lines }
{
    [
        subtract(OTHER, OTHER, 93),
        subtract(WORK, ZERO, 96),
        subtract(ZERO, OTHER, 99),
        subtract(ZERO, ZERO, 102),
        subtract(COUNT, OTHER, 105),
        subtract(MINUS_ONE, OTHER, 111),
        go(NOWHERE),
        subtract(GOTO_NEXT, GOTO_NEXT, 114),
        subtract(ROWS, ZERO, 117),
        subtract(WORK, ZERO, 120),
        subtract(WORK, ZERO, 123),
        subtract(WORK, ZERO, 126),
        subtract(ZERO, GOTO_NEXT, 129),
        go(0),
    ]
}

/// The way to the first block, and the cells: working cells, and numbers that stay.
pub(crate) fn head_lines(count: u32, start: u32, memory: u32) -> [Line; 7]
    requires { start ≤ 2 ^ 24 }
    ensures { result ≡ head_lines count start memory }
{
    let zeros = numbers(0, 0, 0);
    [
        go(goal(count, start)),
        zeros,
        zeros,
        zeros,
        numbers(1, -1, GREATEST),
        numbers(-GREATEST, i64::from(memory), i64::from(count)),
        numbers(i64::from(ROWS_START), 0, 0),
    ]
}
