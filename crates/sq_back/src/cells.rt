// The cells that every image has, and the places that it goes to.
ghost use Rattle.std.specs.Prelude.{◌≡◌, ◌<◌, ◌≤◌, ◌^◌};
ghost use Rattle.sq_back.specs.Code.{register_cell, value_cell, number_in, row_place, goal};

use eir_core::{Operand, Reg};

/// A cell that is 0 between two operations.
pub(crate) const ZERO: u32 = 3;

/// A cell for the word in hand: an address, a difference, a block's number.
pub(crate) const WORK: u32 = 4;

/// A cell for a second word.
pub(crate) const OTHER: u32 = 5;

/// The cell of 1.
pub(crate) const ONE: u32 = 12;

/// The cell of -1.
pub(crate) const MINUS_ONE: u32 = 13;

/// The cell of the greatest word, 2^24 - 1.
pub(crate) const MOST: u32 = 14;

/// The cell of the negative of the greatest word.
pub(crate) const MINUS_MOST: u32 = 15;

/// The cell of the address where memory begins.
pub(crate) const MEMORY: u32 = 16;

/// The cell of the number of blocks.
pub(crate) const COUNT: u32 = 17;

/// The cell of the address where the rows begin.
pub(crate) const ROWS: u32 = 18;

/// Where the lines begin that fetch a word of memory.
pub(crate) const LOAD_START: u32 = 21;

/// The cell in these lines of the address of the word.
pub(crate) const LOAD_FROM: u32 = 39;

/// The cell in these lines that says where to go on.
pub(crate) const LOAD_NEXT: u32 = 47;

/// Where the lines begin that change a word of memory.
pub(crate) const STORE_START: u32 = 48;

/// The cell in these lines of the address of the word, which is read there.
pub(crate) const STORE_FROM: u32 = 72;

/// The cell in these lines of the address of the word, which is changed there.
pub(crate) const STORE_TO: u32 = 85;

/// The cell in these lines that says where to go on.
pub(crate) const STORE_NEXT: u32 = 89;

/// Where the lines begin that go to the block of a number.
pub(crate) const GOTO_START: u32 = 90;

/// The cell in these lines of the address of the block's row.
pub(crate) const GOTO_NEXT: u32 = 131;

/// Where the rows begin, one for each block.
pub(crate) const ROWS_START: u32 = 132;

/// No address: a run that comes to it has ended.
pub(crate) const NOWHERE: i64 = -1;

/// The greatest word.
pub(crate) const GREATEST: i64 = 16777215;

/// The cell of a register's word.
pub(crate) fn register_cell(r: Reg) -> u32
    ensures { result ≡ register_cell r }
{
    match r {
        Reg::A => 6,
        Reg::B => 7,
        Reg::C => 8,
        Reg::D => 9,
        Reg::SP => 10,
        Reg::BP => 11,
    }
}

/// The cell of an operand's word. A constant stands where the operation's numbers do.
pub(crate) fn value_cell(own: u32, v: Operand) -> u32
    ensures { result ≡ value_cell own v }
{
    match v {
        Operand::Reg(r) => register_cell(r),
        Operand::Imm(_) => own,
    }
}

/// The number of an operand: its constant, or 0.
pub(crate) fn number_in(v: Operand) -> i64
    ensures { result ≡ number_in v }
{
    match v {
        Operand::Reg(_) => 0,
        Operand::Imm(word) => i64::from(word.get()),
    }
}

/// The address of the row of a block.
pub(crate) fn row_place(k: u32) -> u32
    requires { k ≤ 2 ^ 24 }
    ensures { result ≡ row_place k }
{
    ROWS_START + 3 * k
}

/// Where to go for the block of this number, of so many.
pub(crate) fn goal(count: u32, k: u32) -> i64
    requires { k ≤ 2 ^ 24 }
    ensures { result ≡ goal count k }
{
    if k < count {
        i64::from(row_place(k))
    } else {
        NOWHERE
    }
}
