// Pieces of code of operators, conditions and calls, added where code stands.

ghost use Rattle.std.specs.Prelude.{◌≡◌, ℕ, ◌++◌, [], ◌∷◌, OnOk, if◌then◌else◌};
ghost use Rattle.eir_core.specs.declared.ops.Reg.TheVariants.{A};
ghost use Rattle.eir_core.specs.declared.ops.Op.TheVariants as eir;
ghost use Rattle.c_lowered.specs.Locations as plain;
ghost use Rattle.c_lowered.specs.Operations;
ghost use Rattle.c_counted.specs.Numbers.{IsNumber};
ghost use Rattle.c_addressing.specs.Here.{Emits};
ghost use Rattle.c_addressing.specs.Places.{IsDirect};

use crate::here::Output;
use c_emission::{
    Direct, put, put_call, put_call_through, put_compared, put_difference, put_jump_if_zero,
    put_jump_where, put_lift, put_lift_operand, put_return, put_sum, put_update_by,
    put_update_by_value,
};
use c_syntax::tree::BinOp;
use eir_core::{Cond, Op, Operand, Reg};
use std::alloc::AllocError;

// 2^23 is added to both operands.
fn put_lifted(ops: &mut Vec<Op>, first: Reg, second: Operand) -> Result<(), AllocError>
    ensures { OnOk result (ops.new.items ≡ ops.old.items ++ (Operations.lift first ++ Operations.lift_operand second)) }
{
    put_lift(ops, first)?;
    put_lift_operand(ops, second)
}

/// A jump where a comparison holds, or where it doesn't.
pub fn jump_where(
    out: &mut Output<'_>,
    holds: bool,
    target: u32,
    test: Cond,
    first: Reg,
    second: Operand,
) -> Result<(), AllocError>
    ensures { (n : ℕ) → IsNumber target n → OnOk result (Emits out.old out.new (eir.JumpIf (if holds then test else Operations.opposite test) (Operations.constant n) first second ∷ []) 0) }
{
    put_jump_where(&mut out.ops, holds, target, test, first, second)?;
    Ok(())
}

/// A jump where A is 0, or where it isn't.
pub fn jump_if_zero(out: &mut Output<'_>, is_zero: bool, target: u32) -> Result<(), AllocError>
    ensures { (n : ℕ) → IsNumber target n → OnOk result (Emits out.old out.new (Operations.jump_if_zero is_zero n) 0) }
{
    put_jump_if_zero(&mut out.ops, is_zero, target)?;
    Ok(())
}

/// A call of the function whose first block is `entry`, which returns to the block `back`.
pub fn call(out: &mut Output<'_>, d: u32, back: u32, entry: u32) -> Result<(), AllocError>
    ensures { (m n k : ℕ) → IsNumber d m → IsNumber back n → IsNumber entry k → OnOk result (Emits out.old out.new (Operations.call_at m n k) 0) }
{
    put_call(&mut out.ops, d, back, entry)?;
    Ok(())
}

/// The same through the function pointer that waits in the frame's word `d`.
pub fn call_through(out: &mut Output<'_>, d: u32, back: u32) -> Result<(), AllocError>
    ensures { (m n : ℕ) → IsNumber d m → IsNumber back n → OnOk result (Emits out.old out.new (Operations.call_through_at m n) 0) }
{
    put_call_through(&mut out.ops, d, back)?;
    Ok(())
}

/// The word at the address in C is updated by a value that needs no evaluation.
pub fn update_by(out: &mut Output<'_>, op: BinOp, v: Direct) -> Result<(), AllocError>
    ensures { (x : plain.Direct) → IsDirect v x → OnOk result (Emits out.old out.new (Operations.update_by op x) 0) }
{
    put_update_by(&mut out.ops, op, v)?;
    Ok(())
}

/// It is updated by the value in A.
pub fn update_by_value(out: &mut Output<'_>, op: BinOp) -> Result<(), AllocError>
    ensures { OnOk result (Emits out.old out.new (Operations.update_by_value op) 0) }
{
    put_update_by_value(&mut out.ops, op)?;
    Ok(())
}

/// One more operation.
pub fn operation(out: &mut Output<'_>, op: Op) -> Result<(), AllocError>
    ensures { OnOk result (Emits out.old out.new (op ∷ []) 0) }
{
    put(&mut out.ops, op)?;
    Ok(())
}

/// The sum of operands that stand ready.
pub fn sum(out: &mut Output<'_>, first: Reg, second: Operand) -> Result<(), AllocError>
    ensures { OnOk result (Emits out.old out.new (eir.Add A (Operations.addend first second) ∷ []) 0) }
{
    put_sum(&mut out.ops, first, second)?;
    Ok(())
}

/// Their difference.
pub fn difference(out: &mut Output<'_>, first: Reg, second: Operand) -> Result<(), AllocError>
    ensures { OnOk result (Emits out.old out.new (eir.Sub first second ∷ Operations.moved_from first) 0) }
{
    put_difference(&mut out.ops, first, second)?;
    Ok(())
}

/// 1 where a comparison holds, else 0.
pub fn compared(
    out: &mut Output<'_>,
    test: Cond,
    first: Reg,
    second: Operand,
) -> Result<(), AllocError>
    ensures { OnOk result (Emits out.old out.new (eir.Set test first second ∷ Operations.moved_from first) 0) }
{
    put_compared(&mut out.ops, test, first, second)?;
    Ok(())
}

/// 2^23 is added to two operands, so that words are in the order of ints.
pub fn lifted(out: &mut Output<'_>, first: Reg, second: Operand) -> Result<(), AllocError>
    ensures { OnOk result (Emits out.old out.new (Operations.lift first ++ Operations.lift_operand second) 0) }
{
    put_lifted(&mut out.ops, first, second)?;
    Ok(())
}

/// The return to the block in the frame's first word.
pub fn returned(out: &mut Output<'_>) -> Result<(), AllocError>
    ensures { OnOk result (Emits out.old out.new (Operations.return_code) 0) }
{
    put_return(&mut out.ops)?;
    Ok(())
}
