// The pieces of all operations.

ghost use Rattle.std.specs.Prelude.{◌≡◌, ◌+◌, ◌^◌, ◌≤◌, ◌++◌, ◌∷◌, IfOk, OnOk, length, flat_map};
ghost use Rattle.eir_core.specs.Eir.{size_of};
ghost use Rattle.bf_turn.specs.Number.{first_numbers};
ghost use Rattle.bf_tape.specs.Code.{add_code};
ghost use Rattle.bf_turn.specs.Arm.{HasMore, HasAll, IsEnd};
ghost use Rattle.bf_turn.specs.Code.{arms_code};

use crate::arm::arm;
use crate::number::{first_of, following};
use bf_choice::Pieces;
use bf_tape::Frag;
use eir_core::{Op, Program};
use std::alloc::{AllocError, Global};

// The piece of the end, which makes the cell 0 one less.
fn end(alloc: Global) -> Result<Frag, AllocError>
    ensures home { IfOk result (λ arm. arm.cell ≡ 0) }
    ensures code { IfOk result (λ arm. arm.commands ≡ add_code 0 0 255) }
    ensures effect { IfOk result (λ arm. IsEnd arm.commands) }
{
    let mut arm = Frag::new(alloc);
    arm.add_const(0, 255)?;
    Ok(arm)
}

// The pieces of a block's operations, numbered from a number on, behind others. What is pushed up to an error is left.
fn push_block(
    pieces: &mut Pieces,
    alloc: Global,
    digits: u32,
    numbers: &[u32],
    last: u32,
    number: u32,
    ops: &[Op],
) -> Result<(), AllocError>
    requires digits { digits ≤ 14 }
    requires few { number + length ops.now ≤ 2 ^ 22 }
    ensures code { OnOk result (pieces.new ≡ pieces.old ++ arms_code digits numbers.now last number ops.now) }
    ensures effect { OnOk result (HasMore digits numbers.now last number ops.now pieces.old pieces.new) }
{
    for (i, op) in ops.iter().enumerate() {
        let next = following(last, number + i as u32);
        let arm = arm(alloc, digits, numbers, *op, next)?;
        pieces.push(&arm)?;
    }
    Ok(())
}

/// The pieces of all operations, behind that of the end.
pub(crate) fn arms(
    alloc: Global,
    p: &Program,
    digits: u32,
    numbers: &[u32],
    last: u32,
) -> Result<Pieces, AllocError>
    requires digits { digits ≤ 14 }
    requires few { size_of p.now ≤ 2 ^ 14 }
    requires numbers { numbers.now ≡ first_numbers 1 p.now.blocks }
    ensures code { IfOk result (λ pieces. pieces ≡ add_code 0 0 255 ∷ arms_code digits numbers.now last 1 (flat_map (λ ops. ops) p.now.blocks)) }
    ensures effect { IfOk result (λ pieces. HasAll digits numbers.now last p.now.blocks pieces) }
{
    let mut pieces = Pieces::new(alloc);
    let first = end(alloc)?;
    pieces.push(&first)?;
    for k in 0..p.block_count() {
        let Some(ops) = p.block(k) else {
            unreachable!()
        };
        push_block(
            &mut pieces,
            alloc,
            digits,
            numbers,
            last,
            first_of(numbers, k),
            ops,
        )?;
    }
    Ok(pieces)
}
