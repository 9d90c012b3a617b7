// Where an operation goes on.

ghost use Rattle.std.specs.Prelude.{◌≡◌, ◌+◌, ◌^◌, ◌≤◌, IfOk, OnOk};
ghost use Rattle.bf_tape.specs.Piece.{joined, Adds};
ghost use Rattle.bf_turn.specs.Goal.{goal_of, IsOpen, Heads};
ghost use Rattle.bf_jump.specs.Goal.{aimed_for};
ghost use Rattle.bf_turn.specs.Code.{goal_code, goal_cell, toward_code};

use crate::number::first_of;
use bf_choice::aim;
use bf_jump::Goal;
use bf_ops::cell_of;
use bf_tape::Frag;
use bf_word::dup_word;
use eir_core::{Operand, Reg};
use std::alloc::{AllocError, Global};

/// The block that an operand names, of blocks whose first operations have these numbers.
pub(crate) fn goal_of(numbers: &[u32], target: Operand) -> Goal
    ensures { result ≡ goal_of numbers.now target }
{
    match target {
        Operand::Imm(word) => Goal::Operation(first_of(numbers, word.get())),
        Operand::Reg(reg) => Goal::Block(reg),
    }
}

// The block of a register is aimed at. What is added up to an error is left.
fn aim_block(f: &mut Frag, digits: u32, reg: Reg) -> Result<(), AllocError>
    ensures code { OnOk result (f.new ≡ joined f.old (goal_code f.old.cell digits (Goal.Block reg)) (goal_cell f.old.cell digits (Goal.Block reg))) }
    ensures effect { OnOk result (Adds f.old f.new (IsOpen digits) (λ input s. aimed_for digits (Goal.Block reg) s) (2 ^ 22) 7168) }
{
    let cell = cell_of(reg);
    dup_word(f, cell, 114, cell + 3)?;
    f.add_const(44, 1)?;
    Ok(())
}

// The operation of a number is aimed at. What is added up to an error is left.
fn aim_operation(f: &mut Frag, digits: u32, number: u32) -> Result<(), AllocError>
    requires { digits ≤ 14 }
    ensures code { OnOk result (f.new ≡ joined f.old (goal_code f.old.cell digits (Goal.Operation number)) (goal_cell f.old.cell digits (Goal.Operation number))) }
    ensures effect { OnOk result (Adds f.old f.new (IsOpen digits) (λ input s. aimed_for digits (Goal.Operation number) s) (2 ^ 22) 7168) }
{
    aim(f, digits, number)?;
    Ok(())
}

// A goal is aimed at. What is added up to an error is left.
fn aim_at(f: &mut Frag, digits: u32, goal: Goal) -> Result<(), AllocError>
    requires { digits ≤ 14 }
    ensures code { OnOk result (f.new ≡ joined f.old (goal_code f.old.cell digits goal) (goal_cell f.old.cell digits goal)) }
    ensures effect { OnOk result (Adds f.old f.new (IsOpen digits) (λ input s. aimed_for digits goal s) (2 ^ 22) 7168) }
{
    match goal {
        Goal::Operation(number) => aim_operation(f, digits, number),
        Goal::Block(reg) => aim_block(f, digits, reg),
    }
}

/// A piece that aims at a goal, from cell 0 and back.
pub(crate) fn toward(alloc: Global, digits: u32, goal: Goal) -> Result<Frag, AllocError>
    requires { digits ≤ 14 }
    ensures home { IfOk result (λ piece. piece.cell ≡ 0) }
    ensures code { IfOk result (λ piece. piece.commands ≡ toward_code digits goal) }
    ensures heads { IfOk result (λ piece. Heads piece.commands digits goal) }
{
    let mut piece = Frag::new(alloc);
    aim_at(&mut piece, digits, goal)?;
    piece.goto(0)?;
    Ok(piece)
}
