// The code of `main`.
#![tactic(auto, using(crate::proofs::Pieces::pieces))]

ghost use Rattle.std.specs.Prelude.{◌≡◌, ◌<◌, ◌≤◌, ◌^◌, ◌++◌, ◌∷◌, [], false, length, pos, replicate, OnOk, IfOk};
ghost use Rattle.std.specs.List.{range_with_len};
ghost use Rattle.wasm_bin.specs.declared.module.Instr.TheVariants.{Block, End, Const, LocalSet};
ghost use Rattle.wasm_code.specs.Emitted.{goal_local, ops_code, blocks_code, choice_code, turn_code, main_code};

use crate::code::{GOAL, put, put_ops};
use eir_core::{Op, Program};
use std::alloc::{AllocError, Global};
use wasm_bin::Instr;
use wasm_bytes::items::Items;

// As many blocks within one another.
fn put_nest(code: &mut Vec<Instr>, count: u32) -> Result<(), AllocError>
    ensures { OnOk result (code.new.items ≡ code.old.items ++ replicate count (Block false)) }
{
    for _ in 0..count {
        put(code, Instr::Block(false))?;
    }
    Ok(())
}

// The numbers below a count, in their order.
fn numbers(alloc: Global, count: u32) -> Result<Vec<u32>, AllocError>
    ensures { IfOk result (λ numbers. numbers.items ≡ range_with_len 0 count) }
{
    let mut numbers = Vec::with_capacity(alloc, count as usize)?;
    for k in 0..count {
        numbers.push(k)?;
    }
    Ok(numbers)
}

// Goes to the block whose number was set, of so many.
fn put_choice(alloc: Global, code: &mut Vec<Instr>, count: u32) -> Result<(), AllocError>
    requires { count ≤ 2 ^ 21 }
    ensures { OnOk result (code.new.items ≡ code.old.items ++ choice_code count) }
{
    let labels = numbers(alloc, count)?;
    put(code, Instr::LocalGet(GOAL))?;
    put(code, Instr::BrTable(Items::of(labels), count + 1))?;
    put(code, Instr::End)
}

// The code of a block, where the loop lies so many labels out, and the end behind it.
fn put_block(code: &mut Vec<Instr>, out: u32, ops: &[Op]) -> Result<(), AllocError>
    ensures { OnOk result (code.new.items ≡ code.old.items ++ (ops_code out ops.now ++ End ∷ [])) }
{
    put_ops(code, out, ops)?;
    put(code, Instr::End)
}

// The code of the blocks, and the end of the function.
fn put_blocks(code: &mut Vec<Instr>, p: &Program) -> Result<(), AllocError>
    ensures { OnOk result (code.new.items ≡ code.old.items ++ blocks_code p.now.blocks) }
{
    let count = p.block_count();
    for k in 0..count {
        let Some(ops) = p.block(k) else {
            unreachable!()
        };
        put_block(code, count - 1 - k, ops)?;
    }
    put(code, Instr::End)
}

// Sets the number of the block that comes first.
fn put_start(code: &mut Vec<Instr>, start: u32) -> Result<(), AllocError>
    requires { start ≤ 2 ^ 21 }
    ensures { OnOk result (code.new.items ≡ code.old.items ++ Const (pos start) ∷ LocalSet goal_local ∷ []) }
{
    put(code, Instr::Const(start as i32))?;
    put(code, Instr::LocalSet(GOAL))
}

/// The code of `main`.
pub fn main_code(alloc: Global, p: &Program) -> Result<Vec<Instr>, AllocError>
    ensures { IfOk result (λ code. code.items ≡ main_code p.now) }
{
    let count = p.block_count();
    let mut code = Vec::with_capacity(alloc, 6 * p.size() as usize + 7)?;
    put_start(&mut code, p.start())?;
    put(&mut code, Instr::Loop(false))?;
    put_nest(&mut code, count)?;
    put_choice(alloc, &mut code, count)?;
    put_blocks(&mut code, p)?;
    Ok(code)
}
