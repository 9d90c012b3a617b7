// The objects of a block.

ghost use Rattle.std.specs.Prelude.{◌≡◌, ◌∷◌, ◌+◌, [], ℕ, List, length, IfOk, OnOk};
ghost use Rattle.c_eval.specs.State as run;
ghost use Rattle.c_code.specs.Code as code;
ghost use Rattle.c_emitted.specs.Emits.{Emits};
ghost use Rattle.c_blocks.specs.Objects.{unset_objects, EndsBlock};

use c_aside::fill;
use c_emitted::{Emitter, number_of};
use c_plain::Instruction;
use std::alloc::{AllocError, Global};

/// A block while its statements get code: the slot of its next object, the first slot behind its objects, and the lengths
/// of its objects so far.
#[derive(Drop)]
pub struct Block {
    pub next: u32,
    pub free: u32,
    pub lengths: Vec<u32>,
}

impl Block {
    /// A block that begins, of so many objects, where slots are free from one on.
    pub fn begin(alloc: Global, free: u32, count: u32) -> Result<Block, AllocError>
        ensures next { IfOk result (λ b. b.next ≡ free) }
        ensures free { IfOk result (λ b. b.free ≡ free + count) }
        ensures lengths { IfOk result (λ b. b.lengths.items ≡ []) }
    {
        let behind = number_of(free as usize + count as usize)?;
        Ok(Block {
            next: free,
            free: behind,
            lengths: Vec::new(alloc),
        })
    }
}

/// Objects of these lengths are entered.
pub fn enter_objects(out: &mut Emitter<'_>, lengths: &[u32]) -> Result<(), AllocError>
    ensures { (cells : List (List run.Cell)) (count : ℕ) → unset_objects lengths.now ≡ cells → length cells ≡ count → OnOk result (Emits out.old out.new (code.Enter cells count ∷ []) []) }
{
    let span = out.lengths(lengths)?;
    out.add(Instruction::Enter(span))
}

/// A block ends that began at a place, where its objects are entered now.
pub fn end_block(out: &mut Emitter<'_>, start: u32, lengths: &[u32]) -> Result<(), AllocError>
    ensures { OnOk result (EndsBlock out.old out.new start lengths.now) }
{
    let span = out.lengths(lengths)?;
    fill(out, start, Instruction::Enter(span))?;
    out.add(Instruction::Leave)
}
