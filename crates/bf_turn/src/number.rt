// The numbers of operations.

ghost use Rattle.std.specs.Prelude.{◌≡◌, ◌+◌, ◌<◌, ◌≤◌, ◌^◌, cond, nat_lt, slice_index, IfOk};
ghost use Rattle.eir_core.specs.Eir.{size_of};
ghost use Rattle.sim_trait.specs.Digits.{digit_count};
ghost use Rattle.bf_ops.specs.Perform.{asks};
ghost use Rattle.bf_turn.specs.Number.{first_numbers, following, any_asks, accesses, is_branch, any_branches, branches};

use eir_core::{Op, Program};
use std::alloc::{AllocError, Global};

/// The number of binary digits of a number, and 0 for 0.
pub fn digit_count(n: u32) -> u32
    ensures { result ≡ digit_count n }
{
    u32::BITS - n.leading_zeros()
}

/// The number of the first operation of each block. The operations are counted through all blocks, from 1 on.
pub fn first_numbers(alloc: Global, p: &Program) -> Result<Vec<u32>, AllocError>
    requires { size_of p.now ≤ 2 ^ 21 }
    ensures { IfOk result (λ numbers. numbers.items ≡ first_numbers 1 p.now.blocks) }
{
    let mut numbers = Vec::new(alloc);
    let mut number = 1;
    for k in 0..p.block_count() {
        let Some(ops) = p.block(k) else {
            unreachable!()
        };
        numbers.push(number)?;
        number += ops.len() as u32;
    }
    Ok(numbers)
}

/// The number of the first operation of a block, and 0 where there is no such block.
pub fn first_of(numbers: &[u32], block: u32) -> u32
    ensures { result ≡ slice_index numbers.now block }
{
    match numbers.get(block as usize) {
        Some(number) => *number,
        None => 0,
    }
}

/// The number of what follows an operation where the last one has a number: the next one, or 0 for the end.
pub(crate) fn following(last: u32, number: u32) -> u32
    ensures { result ≡ following last number }
{
    if number < last { number + 1 } else { 0 }
}

// Whether an operation asks for memory.
fn asks(op: Op) -> bool
    ensures { result ≡ asks op }
{
    match op {
        Op::Load(_, _) => true,
        Op::Store(_, _) => true,
        _ => false,
    }
}

// Whether one of some operations does.
fn any_asks(ops: &[Op]) -> bool
    ensures { result ≡ any_asks ops.now }
{
    for op in ops {
        if asks(*op) {
            return true;
        }
    }
    false
}

/// Whether one of a program's operations asks for memory.
pub(crate) fn accesses(p: &Program) -> bool
    ensures { result ≡ accesses p.now }
{
    for k in 0..p.block_count() {
        let Some(ops) = p.block(k) else {
            unreachable!()
        };
        if any_asks(ops) {
            return true;
        }
    }
    false
}

// Whether an operation is a conditional jump.
fn is_branch(op: Op) -> bool
    ensures { result ≡ is_branch op }
{
    match op {
        Op::JumpIf(_, _, _, _) => true,
        _ => false,
    }
}

// Whether one of some operations is.
fn any_branches(ops: &[Op]) -> bool
    ensures { result ≡ any_branches ops.now }
{
    for op in ops {
        if is_branch(*op) {
            return true;
        }
    }
    false
}

/// Whether one of a program's operations is a conditional jump.
pub(crate) fn branches(p: &Program) -> bool
    ensures { result ≡ branches p.now }
{
    for k in 0..p.block_count() {
        let Some(ops) = p.block(k) else {
            unreachable!()
        };
        if any_branches(ops) {
            return true;
        }
    }
    false
}
