// The one text of a turn that decides whether a jump is taken.

ghost use Rattle.std.specs.Prelude.{◌≡◌, ◌+◌, ◌*◌, ◌^◌, ◌≤◌, IfOk, OnOk};
ghost use Rattle.eir_core.specs.declared.ops.Reg.TheVariants.{BP};
ghost use Rattle.bf_tape.specs.Piece.{joined, Adds, any};
ghost use Rattle.bf_jump.specs.Note.{row, cell_at};
ghost use Rattle.bf_jump.specs.Goal.{mark_of, mark_cell, take_block_code, take_blocks_code, drop_marks_code, taking_code, staying_code, decide_code, TakesBlock, TakesBlocks, Takes, Stays, Decides};

use crate::noting::{drop_note, leave_open, take_note};
use crate::posing::{ANSWER, ASKED};
use crate::telling::tell;
use bf_ops::cell_of;
use bf_tape::Frag;
use bf_word::dup_word;
use eir_core::Reg;
use std::alloc::AllocError;

// The cell that says that a block is aimed at, the one to spare for the choice, and the counter of a block's number.
const BLOCK: u32 = 44;

const SPARE: u32 = 43;

const COUNTER: u32 = 114;

// Where a register is marked, the block that it names becomes the goal. What is added up to an error is left.
fn take_block(f: &mut Frag, reg: Reg) -> Result<(), AllocError>
    ensures code { OnOk result (f.new ≡ joined f.old (take_block_code f.old.cell reg) (mark_of reg)) }
    ensures effect { OnOk result (TakesBlock f.old f.new reg) }
{
    let cell = cell_of(reg);
    let mut body = f.begin(cell + 3);
    dup_word(&mut body, cell, COUNTER, cell + 3)?;
    body.add_const(BLOCK, 1)?;
    body.goto(cell + 3)?;
    f.times(cell + 3, body)?;
    Ok(())
}

// The block that the marked register names, if one is marked, becomes the goal. What is added up to an error is left.
fn take_blocks(f: &mut Frag) -> Result<(), AllocError>
    ensures code { OnOk result (f.new ≡ joined f.old (take_blocks_code f.old.cell) (mark_of BP)) }
    ensures effect { OnOk result (TakesBlocks f.old f.new) }
{
    take_block(f, Reg::A)?;
    take_block(f, Reg::B)?;
    take_block(f, Reg::C)?;
    take_block(f, Reg::D)?;
    take_block(f, Reg::SP)?;
    take_block(f, Reg::BP)?;
    Ok(())
}

// No register is marked any more. What is added up to an error is left.
fn drop_marks(f: &mut Frag) -> Result<(), AllocError>
    ensures code { OnOk result (f.new ≡ joined f.old (drop_marks_code f.old.cell) 103) }
    ensures effect { OnOk result (Adds f.old f.new any (λ input s. row mark_cell (λ i. 0) 6 s) (6 * 1024) (6 * 512)) }
{
    for i in 0..6u32 {
        f.clear(10 * i + 53)?;
    }
    Ok(())
}

// A piece that makes the noted goal the one that is aimed at, from cell 0 and back.
fn taking(f: &Frag, digits: u32) -> Result<Frag, AllocError>
    requires { digits ≤ 14 }
    ensures home { IfOk result (λ piece. piece.cell ≡ 0) }
    ensures code { IfOk result (λ piece. piece.commands ≡ taking_code digits) }
    ensures effect { IfOk result (λ piece. Takes piece.commands digits) }
{
    let mut piece = f.begin(0);
    leave_open(&mut piece, digits)?;
    take_note(&mut piece, digits)?;
    take_blocks(&mut piece)?;
    piece.goto(0)?;
    Ok(piece)
}

// A piece that drops the noted goal, from cell 0 and back.
fn staying(f: &Frag, digits: u32) -> Result<Frag, AllocError>
    requires { digits ≤ 14 }
    ensures home { IfOk result (λ piece. piece.cell ≡ 0) }
    ensures code { IfOk result (λ piece. piece.commands ≡ staying_code digits) }
    ensures effect { IfOk result (λ piece. Stays piece.commands digits) }
{
    let mut piece = f.begin(0);
    drop_note(&mut piece, digits)?;
    drop_marks(&mut piece)?;
    piece.goto(0)?;
    Ok(piece)
}

/// Where a jump asked, its goal is aimed at if what it asked holds, and what follows it if not; where none did, nothing
/// changes. After an error nothing is said of the piece.
pub fn decide(f: &mut Frag, digits: u32) -> Result<(), AllocError>
    requires { digits ≤ 14 }
    ensures code { OnOk result (f.new ≡ joined f.old (decide_code f.old.cell digits) 48) }
    ensures effect { OnOk result (Decides f.old f.new digits) }
{
    let mut body = f.begin(ASKED);
    tell(&mut body)?;
    let taken = taking(&body, digits)?;
    let left = staying(&body, digits)?;
    body.if_else(ANSWER, SPARE, taken, left)?;
    body.goto(ASKED)?;
    f.times(ASKED, body)?;
    Ok(())
}
