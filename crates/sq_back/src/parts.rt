// The lines of the parts of operations.
ghost use Rattle.std.specs.Prelude.{◌≡◌, ◌+◌, ◌≤◌, ◌^◌, [], ◌∷◌, ◌++◌, pos};
ghost use Rattle.sq_back.specs.Code.{zero_cell, minus_one_cell, straight, subtract, move_lines, branches_of, difference_lines, sign_lines, goto_lines, wrap_sum_lines, wrap_difference_lines, register_cell, go};
ghost use Rattle.sq_back.specs.Branches.{branches_said};

use crate::cells::{GOTO_START, MINUS_MOST, MINUS_ONE, MOST, ONE, WORK, ZERO, register_cell};
use crate::line::{Line, go, subtract};
use eir_core::{Cond, Reg};

/// Where to go from a comparison.
#[derive(Clone, Copy)]
pub(crate) struct Branches {
    /// Where the difference of the words is negative.
    negative: i64,
    /// Where it is 0.
    zero: i64,
    /// Where it is positive.
    positive: i64,
}

/// To the one place where the comparison holds, to the other where it doesn't.
pub(crate) fn branches_of(test: Cond, there: i64, otherwise: i64) -> Branches
    ensures { branches_said result ≡ branches_of test there otherwise }
{
    let (negative, zero, positive) = match test {
        Cond::Eq => (otherwise, there, otherwise),
        Cond::Ne => (there, otherwise, there),
        Cond::Lt => (there, otherwise, otherwise),
        Cond::Gt => (otherwise, otherwise, there),
        Cond::Le => (there, there, otherwise),
        Cond::Ge => (otherwise, there, there),
    };
    Branches {
        negative,
        zero,
        positive,
    }
}

/// The one cell becomes what the other is, and then goes to a place.
pub(crate) fn move_lines(at: u32, from: u32, to: u32, place: i64) -> [Line; 4]
    requires { at ≤ 2 ^ 23 }
    ensures { result ≡ move_lines at from to place }
{
    [
        subtract(from, ZERO, i64::from(at + 3)),
        subtract(to, to, i64::from(at + 6)),
        subtract(ZERO, to, i64::from(at + 9)),
        go(place),
    ]
}

/// The sum of a cell and another in that other one.
pub(crate) fn sum_lines(at: u32, from: u32, to: u32) -> [Line; 3]
    requires { at ≤ 2 ^ 23 }
    ensures { result ≡ straight at ((from, zero_cell) ∷ (zero_cell, to) ∷ (zero_cell, zero_cell) ∷ []) }
{
    [
        subtract(from, ZERO, i64::from(at + 3)),
        subtract(ZERO, to, i64::from(at + 6)),
        subtract(ZERO, ZERO, i64::from(at + 9)),
    ]
}

/// A sum in a register's cell is taken modulo 2^24.
pub(crate) fn wrap_sum_lines(at: u32, cell: u32, place: i64) -> [Line; 5]
    requires { at ≤ 2 ^ 23 }
    ensures { result ≡ wrap_sum_lines at cell place }
{
    [
        subtract(MOST, cell, i64::from(at + 9)),
        subtract(ONE, cell, i64::from(at + 6)),
        go(place),
        subtract(MINUS_MOST, cell, i64::from(at + 12)),
        go(place),
    ]
}

/// A difference in a register's cell is taken modulo 2^24.
pub(crate) fn wrap_difference_lines(at: u32, cell: u32, place: i64) -> [Line; 5]
    requires { at ≤ 2 ^ 23 }
    ensures { result ≡ wrap_difference_lines at cell place }
{
    [
        subtract(MINUS_ONE, cell, i64::from(at + 9)),
        subtract(ONE, cell, i64::from(at + 6)),
        go(place),
        subtract(MINUS_MOST, cell, i64::from(at + 12)),
        go(place),
    ]
}

/// The difference of two cells' words in the work cell.
pub(crate) fn difference_lines(at: u32, from: u32, less: u32) -> [Line; 5]
    requires { at ≤ 2 ^ 23 }
    ensures { result ≡ difference_lines at from less }
{
    [
        subtract(from, ZERO, i64::from(at + 3)),
        subtract(WORK, WORK, i64::from(at + 6)),
        subtract(ZERO, WORK, i64::from(at + 9)),
        subtract(ZERO, ZERO, i64::from(at + 12)),
        subtract(less, WORK, i64::from(at + 15)),
    ]
}

/// Goes by the sign of the work cell.
pub(crate) fn sign_lines(at: u32, branches: Branches) -> [Line; 4]
    requires { at ≤ 2 ^ 23 }
    ensures { result ≡ sign_lines at (branches_said branches) }
{
    [
        subtract(ZERO, WORK, i64::from(at + 6)),
        go(branches.positive),
        subtract(MINUS_ONE, WORK, branches.negative),
        go(branches.zero),
    ]
}

/// A register becomes 0 at the first of these lines, and 1 at the second.
pub(crate) fn flag_lines(at: u32, r: Reg, place: i64) -> [Line; 4]
    requires { at ≤ 2 ^ 23 }
    ensures { result ≡ subtract (register_cell r) (register_cell r) place
        ∷ subtract (register_cell r) (register_cell r) (pos (at + 6)) ∷ subtract minus_one_cell (register_cell r) (pos (at + 9)) ∷ go place ∷ [] }
{
    let cell = register_cell(r);
    [
        subtract(cell, cell, place),
        subtract(cell, cell, i64::from(at + 6)),
        subtract(MINUS_ONE, cell, i64::from(at + 9)),
        go(place),
    ]
}

/// Goes to the block of the number in a register.
pub(crate) fn goto_lines(at: u32, r: Reg) -> [Line; 4]
    requires { at ≤ 2 ^ 23 }
    ensures { result ≡ goto_lines at r }
{
    move_lines(at, register_cell(r), WORK, i64::from(GOTO_START))
}
