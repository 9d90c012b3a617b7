// Where a conditional jump goes on.

ghost use Rattle.std.specs.Prelude.{◌≡◌, ◌+◌, ◌^◌, ◌≤◌, OnOk};
ghost use Rattle.bf_tape.specs.Piece.{joined, Adds};
ghost use Rattle.bf_jump.specs.Goal.{mark_of, noted_for, note_goal_code, note_goal_cell, IsNotable};

use crate::noting::note;
use bf_ops::cell_of;
use bf_tape::Frag;
use eir_core::Reg;
use std::alloc::AllocError;

/// Where an operation goes on.
#[derive(Clone, Copy)]
pub enum Goal {
    /// At the operation of this number, or at the end for 0.
    Operation(u32),
    /// At the first operation of the block whose number is in this register.
    Block(Reg),
}

// The block of a register is noted.
fn mark(f: &mut Frag, digits: u32, reg: Reg) -> Result<(), AllocError>
    ensures code { OnOk result (f.new ≡ joined f.old (note_goal_code f.old.cell digits (Goal.Block reg)) (note_goal_cell f.old.cell digits (Goal.Block reg))) }
    ensures effect { OnOk result (Adds f.old f.new (IsNotable digits) (λ input s. noted_for digits (Goal.Block reg) s) (2 ^ 14) (2 ^ 13)) }
{
    f.add_const(cell_of(reg) + 3, 1)?;
    Ok(())
}

// The operation of a number is noted. What is added up to an error is left.
fn note_number(f: &mut Frag, digits: u32, number: u32) -> Result<(), AllocError>
    requires { digits ≤ 14 }
    ensures code { OnOk result (f.new ≡ joined f.old (note_goal_code f.old.cell digits (Goal.Operation number)) (note_goal_cell f.old.cell digits (Goal.Operation number))) }
    ensures effect { OnOk result (Adds f.old f.new (IsNotable digits) (λ input s. noted_for digits (Goal.Operation number) s) (2 ^ 14) (2 ^ 13)) }
{
    note(f, digits, number)?;
    Ok(())
}

/// A goal is noted, at which a conditional jump goes on if it is taken. After an error nothing is said of the piece.
pub fn note_goal(f: &mut Frag, digits: u32, goal: Goal) -> Result<(), AllocError>
    requires { digits ≤ 14 }
    ensures code { OnOk result (f.new ≡ joined f.old (note_goal_code f.old.cell digits goal) (note_goal_cell f.old.cell digits goal)) }
    ensures effect { OnOk result (Adds f.old f.new (IsNotable digits) (λ input s. noted_for digits goal s) (2 ^ 14) (2 ^ 13)) }
{
    match goal {
        Goal::Operation(number) => note_number(f, digits, number),
        Goal::Block(reg) => mark(f, digits, reg),
    }
}
