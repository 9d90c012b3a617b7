// Steps, truths and what is always known.

ghost use Rattle.std.specs.Prelude.{◌≡◌, ℕ, ◌++◌, OnOk};
ghost use Rattle.c_eval.specs.Eval.{step_op};
ghost use Rattle.c_lowered.specs.Locations as plain;
ghost use Rattle.c_lowered.specs.Operations;
ghost use Rattle.c_lowered.specs.Expressions as definition;
ghost use Rattle.c_counted.specs.Numbers.{IsNumber};
ghost use Rattle.c_addressing.specs.Here.{Emits};
ghost use Rattle.c_applied.specs.Leads.{Keeps};
ghost use Rattle.c_applied.specs.Pieces as pieces;

use c_addressing::{Output, jump, operation, save, update_by};
use c_counted::is_word;
use c_emission::{Direct, constant};
use c_syntax::tree::{BinOp, StepOp};
use eir_core::{Cond, Op, Operand, Reg};
use std::alloc::AllocError;

// The operator of a step.
fn step_operator(op: StepOp) -> BinOp
    ensures { result ≡ step_op op }
{
    match op {
        StepOp::PreInc => BinOp::Add,
        StepOp::PostInc => BinOp::Add,
        StepOp::PreDec => BinOp::Sub,
        StepOp::PostDec => BinOp::Sub,
    }
}

// A step behind its operand gives the old value.
fn put_step_back(out: &mut Output<'_>, op: StepOp) -> Result<(), AllocError>
    ensures { OnOk result (Emits out.old out.new (definition.step_back op) 0) }
{
    match op {
        StepOp::PostInc => operation(out, Op::Sub(Reg::A, constant(1))),
        StepOp::PostDec => operation(out, Op::Add(Reg::A, constant(1))),
        StepOp::PreInc => Ok(()),
        StepOp::PreDec => Ok(()),
    }
}

/// The word at the address in C goes on by a step.
pub fn stepped(out: &mut Output<'_>, op: StepOp) -> Result<(), AllocError>
    ensures { OnOk result (Emits out.old out.new (Operations.update_by (step_op op) (plain.Exactly 1) ++ definition.step_back op) 0) }
{
    update_by(out, step_operator(op), Direct::Exactly(1))?;
    put_step_back(out, op)?;
    Ok(())
}

/// 1, or 0 behind a jump; both lead to the block `over`.
pub fn put_truth(out: &mut Output<'_>, over: u32) -> Result<(), AllocError>
    ensures code { (k : ℕ) → IsNumber over k → OnOk result (Emits out.old out.new (pieces.truth_tail k) 0) }
    ensures keeps { OnOk result (Keeps out.old out.new) }
{
    operation(out, Op::Mov(Reg::A, constant(1)))?;
    jump(out, over)?;
    operation(out, Op::Mov(Reg::A, constant(0)))?;
    jump(out, over)?;
    Ok(())
}

/// The block to which the left side of `&&` or `||` jumps where it decides.
pub fn aim(decides: bool, holds: bool, target: u32, end: u32) -> u32
    ensures { (t m : ℕ) → IsNumber target t → IsNumber end m → IsNumber result (pieces.aimed decides holds t m) }
{
    if decides == holds { target } else { end }
}

/// The value in A waits in the frame's word `d`, if it is to.
pub fn wait(out: &mut Output<'_>, waits: bool, d: u32) -> Result<(), AllocError>
    ensures code { (n : ℕ) → IsNumber d n → OnOk result (Emits out.old out.new (pieces.waited waits n) 0) }
    ensures keeps { OnOk result (Keeps out.old out.new) }
{
    if waits {
        save(out, d)?;
    }
    Ok(())
}

/// A function that is always known, its argument in A.
pub fn put_built_in(out: &mut Output<'_>, name: &[u8]) -> Result<(), AllocError>
    ensures { OnOk result (Emits out.old out.new (definition.built_in_code name.now) 0) }
{
    if is_word(name, b"getchar") {
        return put_getchar(out);
    }
    if is_word(name, b"__builtin_getc") {
        return operation(out, Op::Getc(Reg::A));
    }
    if is_word(name, b"putchar") {
        return operation(out, Op::Putc(Operand::Reg(Reg::A)));
    }
    if is_word(name, b"exit") {
        return operation(out, Op::Exit);
    }
    Ok(())
}

// A byte of the input, or -1 at its end.
fn put_getchar(out: &mut Output<'_>) -> Result<(), AllocError>
    ensures { OnOk result (Emits out.old out.new (pieces.getchar_code) 0) }
{
    operation(out, Op::Getc(Reg::A))?;
    operation(out, Op::Mov(Reg::B, Operand::Reg(Reg::A)))?;
    operation(out, Op::Set(Cond::Eq, Reg::B, constant(0)))?;
    operation(out, Op::Sub(Reg::A, Operand::Reg(Reg::B)))?;
    Ok(())
}

/// What helper functions alone call: a character is written, and a unit takes an operation.
pub fn put_helper(out: &mut Output<'_>, name: &[u8]) -> Result<(), AllocError>
    ensures { OnOk result (Emits out.old out.new (definition.known_code name.now) 0) }
{
    if is_word(name, b"piece of text") {
        return operation(out, Op::Putc(Operand::Reg(Reg::A)));
    }
    operation(out, Op::Mov(Reg::A, constant(0)))
}
