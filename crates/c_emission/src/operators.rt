// The code of operators on two operands, which stand in a register and in an operand.

ghost use Rattle.std.specs.Prelude.{◌≡◌, ◌++◌, [], ◌∷◌, OnOk, if◌then◌else◌};
ghost use Rattle.eir_core.specs.declared.ops.Reg.TheVariants.{A};
ghost use Rattle.eir_core.specs.declared.ops.Cond.TheVariants.{Eq, Ne};
ghost use Rattle.eir_core.specs.declared.ops.Op.TheVariants as eir;
ghost use Rattle.c_lowered.specs.Operations;
ghost use Rattle.c_emission.specs.View.{direct_of};

use crate::location::Direct;
use crate::pieces::{constant, operand_of, put, put_moved_from, put_ready};
use c_syntax::tree::BinOp;
use eir_core::{Cond, Op, Operand, Reg};
use std::alloc::AllocError;

/// What is to be added to A, where the operands stand so.
fn addend(first: Reg, second: Operand) -> Operand
    ensures { result ≡ Operations.addend first second }
{
    match first {
        Reg::A => second,
        Reg::B => Operand::Reg(Reg::B),
        Reg::C => Operand::Reg(Reg::C),
        Reg::D => Operand::Reg(Reg::D),
        Reg::SP => Operand::Reg(Reg::SP),
        Reg::BP => Operand::Reg(Reg::BP),
    }
}

/// The sum of operands that stand ready.
pub fn put_sum(ops: &mut Vec<Op>, first: Reg, second: Operand) -> Result<(), AllocError>
    ensures { OnOk result (ops.new.items ≡ ops.old.items ++ eir.Add A (Operations.addend first second) ∷ []) }
{
    put(ops, Op::Add(Reg::A, addend(first, second)))
}

/// Their difference.
pub fn put_difference(ops: &mut Vec<Op>, first: Reg, second: Operand) -> Result<(), AllocError>
    ensures { OnOk result (ops.new.items ≡ ops.old.items ++ (eir.Sub first second ∷ Operations.moved_from first)) }
{
    put(ops, Op::Sub(first, second))?;
    put_moved_from(ops, first)
}

/// The comparison that holds where another doesn't.
pub fn opposite(test: Cond) -> Cond
    ensures { result ≡ Operations.opposite test }
{
    match test {
        Cond::Eq => Cond::Ne,
        Cond::Ne => Cond::Eq,
        Cond::Lt => Cond::Ge,
        Cond::Gt => Cond::Le,
        Cond::Le => Cond::Gt,
        Cond::Ge => Cond::Lt,
    }
}

/// 1 where a comparison holds, else 0.
pub fn put_compared(
    ops: &mut Vec<Op>,
    test: Cond,
    first: Reg,
    second: Operand,
) -> Result<(), AllocError>
    ensures { OnOk result (ops.new.items ≡ ops.old.items ++ (eir.Set test first second ∷ Operations.moved_from first)) }
{
    put(ops, Op::Set(test, first, second))?;
    put_moved_from(ops, first)
}

/// The comparison, or its opposite.
fn turned(holds: bool, test: Cond) -> Cond
    ensures { result ≡ (if holds then test else Operations.opposite test) }
{
    if holds { test } else { opposite(test) }
}

/// A jump where a comparison holds, or where it doesn't.
pub fn put_jump_where(
    ops: &mut Vec<Op>,
    holds: bool,
    target: u32,
    test: Cond,
    first: Reg,
    second: Operand,
) -> Result<(), AllocError>
    ensures { OnOk result (ops.new.items ≡ ops.old.items ++ eir.JumpIf (if holds then test else Operations.opposite test) (Operations.constant target) first second ∷ []) }
{
    put(
        ops,
        Op::JumpIf(turned(holds, test), constant(target), first, second),
    )
}

/// `==` where what isn't 0 is to be left out, else `!=`.
fn zero_test(is_zero: bool) -> Cond
    ensures { result ≡ (if is_zero then Eq else Ne) }
{
    if is_zero { Cond::Eq } else { Cond::Ne }
}

/// A jump where A is 0, or where it isn't.
pub fn put_jump_if_zero(ops: &mut Vec<Op>, is_zero: bool, target: u32) -> Result<(), AllocError>
    ensures { OnOk result (ops.new.items ≡ ops.old.items ++ Operations.jump_if_zero is_zero target) }
{
    put(
        ops,
        Op::JumpIf(zero_test(is_zero), constant(target), Reg::A, constant(0)),
    )
}

/// 2^23 is added to a register.
pub fn put_lift(ops: &mut Vec<Op>, r: Reg) -> Result<(), AllocError>
    ensures { OnOk result (ops.new.items ≡ ops.old.items ++ Operations.lift r) }
{
    put(ops, Op::Add(r, constant(8388608)))
}

/// 2^23 is added to an operand that is a register.
pub fn put_lift_operand(ops: &mut Vec<Op>, v: Operand) -> Result<(), AllocError>
    ensures { OnOk result (ops.new.items ≡ ops.old.items ++ Operations.lift_operand v) }
{
    match v {
        Operand::Reg(r) => put_lift(ops, r),
        Operand::Imm(_) => Ok(()),
    }
}

/// The operand that it then is.
pub fn lifted_operand(v: Operand) -> Operand
    ensures { result ≡ Operations.lifted_operand v }
{
    match v {
        Operand::Reg(r) => Operand::Reg(r),
        Operand::Imm(w) => constant(w.get() + 8388608),
    }
}

/// The comparison that an operator is, if it is one.
pub fn comparison_of(op: BinOp) -> Option<Cond>
    ensures { result ≡ Operations.comparison_of op }
{
    match op {
        BinOp::Eq => Some(Cond::Eq),
        BinOp::Ne => Some(Cond::Ne),
        BinOp::Lt => Some(Cond::Lt),
        BinOp::Gt => Some(Cond::Gt),
        BinOp::Le => Some(Cond::Le),
        BinOp::Ge => Some(Cond::Ge),
        _ => None,
    }
}

/// The operation by which a register is updated.
fn step_by(op: BinOp, r: Reg, v: Operand) -> Op
    ensures { result ≡ Operations.step_by op r v }
{
    match op {
        BinOp::Sub => Op::Sub(r, v),
        _ => Op::Add(r, v),
    }
}

/// The word at the address in C is updated by a value that needs no evaluation.
pub fn put_update_by(ops: &mut Vec<Op>, op: BinOp, v: Direct) -> Result<(), AllocError>
    ensures { OnOk result (ops.new.items ≡ ops.old.items ++ Operations.update_by op (direct_of v)) }
{
    put(ops, Op::Load(Reg::A, Operand::Reg(Reg::C)))?;
    put_ready(ops, v)?;
    put(ops, step_by(op, Reg::A, operand_of(v)))?;
    put(ops, Op::Store(Reg::A, Operand::Reg(Reg::C)))
}

/// It is updated by the value in A.
pub fn put_update_by_value(ops: &mut Vec<Op>, op: BinOp) -> Result<(), AllocError>
    ensures { OnOk result (ops.new.items ≡ ops.old.items ++ Operations.update_by_value op) }
{
    put(ops, Op::Load(Reg::B, Operand::Reg(Reg::C)))?;
    put(ops, step_by(op, Reg::B, Operand::Reg(Reg::A)))?;
    put(ops, Op::Mov(Reg::A, Operand::Reg(Reg::B)))?;
    put(ops, Op::Store(Reg::A, Operand::Reg(Reg::C)))
}
