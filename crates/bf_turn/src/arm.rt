// The pieces of the operations.

ghost use Rattle.std.specs.Prelude.{◌≡◌, ◌≤◌, IfOk};
ghost use Rattle.bf_turn.specs.Arm.{IsArm, Branches, GoesOn};
ghost use Rattle.bf_turn.specs.Code.{on_code, branch_code, arm_code};

use crate::goal::{goal_of, toward};
use bf_choice::aim;
use bf_jump::{Goal, note_goal, pose};
use bf_ops::perform;
use bf_tape::Frag;
use eir_core::{Cond, Op, Operand, Reg};
use std::alloc::{AllocError, Global};

// The piece of a conditional jump to a goal, which goes on to the operation of a number where it is not taken.
fn jump_if(
    alloc: Global,
    digits: u32,
    test: Cond,
    reg: Reg,
    operand: Operand,
    goal: Goal,
    next: u32,
) -> Result<Frag, AllocError>
    requires { digits ≤ 14 }
    ensures home { IfOk result (λ arm. arm.cell ≡ 0) }
    ensures code { IfOk result (λ arm. arm.commands ≡ branch_code digits test reg operand goal next) }
    ensures effect { IfOk result (λ arm. Branches arm.commands digits test reg operand goal next) }
{
    let mut arm = Frag::new(alloc);
    pose(&mut arm, test, reg, operand)?;
    note_goal(&mut arm, digits, goal)?;
    aim(&mut arm, digits, next)?;
    arm.goto(0)?;
    Ok(arm)
}

// The piece of an operation that the operation of a number follows.
fn go_on(alloc: Global, digits: u32, op: Op, next: u32) -> Result<Frag, AllocError>
    requires { digits ≤ 14 }
    ensures home { IfOk result (λ arm. arm.cell ≡ 0) }
    ensures code { IfOk result (λ arm. arm.commands ≡ on_code digits op next) }
    ensures effect { IfOk result (λ arm. GoesOn arm.commands digits op next) }
{
    let mut arm = Frag::new(alloc);
    perform(&mut arm, op)?;
    aim(&mut arm, digits, next)?;
    arm.goto(0)?;
    Ok(arm)
}

/// The piece of an operation, from cell 0 and back, of a program whose blocks' first operations have these numbers. The
/// operation of a number stands behind it.
pub(crate) fn arm(
    alloc: Global,
    digits: u32,
    numbers: &[u32],
    op: Op,
    next: u32,
) -> Result<Frag, AllocError>
    requires { digits ≤ 14 }
    ensures home { IfOk result (λ arm. arm.cell ≡ 0) }
    ensures code { IfOk result (λ arm. arm.commands ≡ arm_code digits numbers.now next op) }
    ensures effect { IfOk result (λ arm. IsArm digits numbers.now next op arm.commands) }
{
    match op {
        Op::Exit => toward(alloc, digits, Goal::Operation(0)),
        Op::Jump(target) => toward(alloc, digits, goal_of(numbers, target)),
        Op::JumpIf(test, target, reg, operand) => jump_if(
            alloc,
            digits,
            test,
            reg,
            operand,
            goal_of(numbers, target),
            next,
        ),
        _ => go_on(alloc, digits, op, next),
    }
}
