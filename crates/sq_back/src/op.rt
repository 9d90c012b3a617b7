// The numbers and the cells of operations.
ghost use Rattle.std.specs.Prelude.{◌≡◌, ◌≤◌, ◌^◌, drop, length};
ghost use Rattle.sq_back.specs.Code.{own_numbers, op_cells, ops_cells, place_after};

use crate::cells::{goal, number_in};
use crate::line::{Line, numbers};
use eir_core::{Op, Operand};

/// The numbers that an operation uses: that of its operand, and where to go on from memory. They stand at an address.
pub(crate) fn own_numbers(at: u32, place: i64, op: Op) -> Line
    requires { at ≤ 2 ^ 23 }
    ensures { result ≡ own_numbers at place op }
{
    match op {
        Op::Mov(_, v) | Op::Add(_, v) | Op::Sub(_, v) | Op::Putc(v) => numbers(number_in(v), 0, 0),
        Op::Set(_, _, v) | Op::JumpIf(_, _, _, v) => numbers(number_in(v), 0, 0),
        Op::Load(_, v) => numbers(number_in(v), i64::from(at + 27), 0),
        Op::Store(_, v) => numbers(number_in(v), place, 0),
        Op::Getc(_) | Op::Exit | Op::Jump(_) => numbers(0, 0, 0),
    }
}

/// How many cells an operation has.
pub(crate) fn op_cells(op: Op) -> u32
    ensures cells { result ≡ op_cells op }
    ensures few { result ≤ 42 }
{
    match op {
        Op::Exit | Op::Jump(Operand::Imm(_)) => 6,
        Op::Putc(_) | Op::Getc(_) => 9,
        Op::Mov(_, _) | Op::Jump(Operand::Reg(_)) => 15,
        Op::Sub(_, _) => 21,
        Op::Add(_, _) => 27,
        Op::JumpIf(_, Operand::Imm(_), _, _) => 30,
        Op::Load(_, _) | Op::Store(_, _) => 39,
        Op::Set(_, _, _) | Op::JumpIf(_, Operand::Reg(_), _, _) => 42,
    }
}

/// How many cells the operations of a block have.
pub(crate) fn ops_cells(ops: &[Op]) -> u32
    requires { length ops.now ≤ 2 ^ 21 }
    ensures { result ≡ ops_cells ops.now }
{
    let mut cells = 0;
    for op in ops {
        cells += op_cells(*op);
    }
    cells
}

/// Where to go on from the last of a block's operations, in a program of so many blocks: these operations come next,
/// from an address on, and then the block of a number.
pub(crate) fn place_after(count: u32, k: u32, at: u32, ops: &[Op]) -> i64
    requires at { at ≤ 2 ^ 23 }
    requires block { k ≤ 2 ^ 22 }
    ensures { result ≡ place_after count k at ops.now }
{
    match ops {
        [] => goal(count, k),
        _ => i64::from(at + 3),
    }
}
