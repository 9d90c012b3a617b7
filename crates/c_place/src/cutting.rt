// Blocks and programs from flat code.

ghost use Rattle.std.specs.Prelude.{◌≡◌, ◌+◌, ◌≤◌, ◌^◌, IfOk, length, map, vec_len};
ghost use Rattle.eir_core.specs.Eir;
ghost use Rattle.c_place.specs.Code;

use eir_core::{Op, Program};
use std::alloc::{AllocError, Global};
use word24::Word;

/// Whether the operation is a jump.
pub fn is_jump(op: &Op) -> bool
    ensures { result ≡ Eir.is_jump op.now }
{
    match op {
        Op::Jump(_) | Op::JumpIf(_, _, _, _) => true,
        _ => false,
    }
}

/// The code, cut behind each jump.
pub fn cut(alloc: Global, ops: &[Op]) -> Result<Vec<Vec<Op>>, AllocError>
    ensures { IfOk result (λ blocks. map (λ b. b.items) blocks.items ≡ Code.cut ops.now) }
{
    let mut blocks = Vec::new(alloc);
    let mut block = Vec::new(alloc);
    for op in ops {
        block.push(*op)?;
        if is_jump(op) {
            blocks.push(block)?;
            block = Vec::new(alloc);
        }
    }
    if !block.is_empty() {
        blocks.push(block)?;
    }
    Ok(blocks)
}

/// The program of closed code and data words.
pub fn program(alloc: Global, ops: &[Op], words: Vec<Word>) -> Result<Program, AllocError>
    requires closed { Code.IsClosed ops.now }
    requires small { Code.jumps ops.now + length ops.now + vec_len words ≤ 2 ^ 21 }
    ensures { IfOk result (λ p. p ≡ Code.program ops.now words.items) }
{
    let blocks = cut(alloc, ops)?;
    match Program::new(blocks, words, 0) {
        Ok(program) => Ok(program),
        Err(_) => unreachable!(),
    }
}
