// The whole program.
ghost use Rattle.std.specs.Prelude.{◌≡◌, IfOk};
ghost use Rattle.eir_opt.specs.Folding.{folded};
ghost use Rattle.eir_opt.specs.Trimming.{trimmed};
ghost use Rattle.eir_opt.specs.Optimised.{optimised};
ghost use Rattle.eir_opt.specs.Alike.{RunsAlike};

use crate::fold::fold;
use crate::laws::{folding_keeps_steps, trimming_leaves_steps_out};
use crate::trim::trim;
use eir_core::{Op, Program};
use std::alloc::{AllocError, Global};

// The operations of a block, folded and then trimmed.
fn optimise_block(alloc: Global, ops: &[Op]) -> Result<Vec<Op>, AllocError>
    ensures { IfOk result (λ made. made.items ≡ trimmed (folded ops.now)) }
{
    let folded = fold(alloc, ops)?;
    trim(alloc, folded.as_slice())
}

/// The program with each block folded and then trimmed. For every input it writes the same, takes the same input and
/// ends exactly if the program does, in no more steps. It takes time in proportion to the program's size, and fails
/// only where memory runs out.
pub fn optimise(alloc: Global, p: &Program) -> Result<Program, AllocError>
    ensures program { IfOk result (λ q. q ≡ optimised p.now) }
    ensures alike { IfOk result (λ q. RunsAlike p.now q) }
{
    folding_keeps_steps();
    trimming_leaves_steps_out();
    let _size = p.size();
    let mut blocks = Vec::with_capacity(alloc, p.block_count() as usize)?;
    for k in 0..p.block_count() {
        let ops = p.block(k).unwrap();
        blocks.push(optimise_block(alloc, ops)?)?;
    }
    let words = p.words().to_vec(alloc)?;
    Ok(Program::new(blocks, words, p.start()).unwrap())
}
