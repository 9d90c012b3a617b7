// Operators on two operands that stand ready.

ghost use Rattle.std.specs.Prelude.{◌≡◌, ℕ, ◌++◌, ◌∷◌, [], IfOk, OnOk};
ghost use Rattle.eir_core.specs.declared.ops.Op.TheVariants as eir;
ghost use Rattle.c_syntax.specs.View.{expr_of};
ghost use Rattle.c_types.specs.Scope.{Scope};
ghost use Rattle.c_eval.specs.Environment.{value_type_in};
ghost use Rattle.c_declared.specs.Held.{Holds, HoldsSome};
ghost use Rattle.c_lowered.specs.Operations;
ghost use Rattle.c_counted.specs.Numbers.{IsNumber};
ghost use Rattle.c_addressing.specs.Here.{Emits};
ghost use Rattle.c_applied.specs.Leads.{Keeps};
ghost use Rattle.c_applied.specs.Pieces as pieces;

use c_addressing::{Here, Output, class_in, compared, difference, jump_where, lifted, sum};
use c_emission::{comparison_of, lifted_operand};
use c_operands::Class;
use c_syntax::tree::{BinOp, Expr};
use eir_core::{Cond, Operand, Reg};
use std::alloc::AllocError;

/// The truth of the left side of `&&` or `||` that decides of both.
pub fn junction_of(op: BinOp) -> Option<bool>
    ensures { result ≡ pieces.junction_of op }
{
    match op {
        BinOp::And => Some(false),
        BinOp::Or => Some(true),
        _ => None,
    }
}

// Whether an operator compares without an order.
fn is_equality(op: BinOp) -> bool
    ensures { result ≡ pieces.is_equality op }
{
    match op {
        BinOp::Eq => true,
        BinOp::Ne => true,
        _ => false,
    }
}

// Whether a value of a class is an address.
fn is_address(class: Class) -> bool
    ensures { result ≡ pieces.is_address class }
{
    class.is_pointer() || class.is_array()
}

// Whether an operator orders ints, by the classes of both sides.
fn signed_by(op: BinOp, left: Class, right: Class) -> bool
    ensures { result ≡ pieces.signed_by op left right }
{
    if is_equality(op) {
        return false;
    }
    !(is_address(left) || left.is_unsigned() || right.is_unsigned())
}

/// Whether an operator orders ints, which have a sign.
pub fn signed(
    out: &mut Output<'_>,
    here: &Here<'_>,
    op: BinOp,
    a: &Expr,
    b: &Expr,
) -> Result<bool, AllocError>
    requires { HoldsSome out.old.types here.now.declared }
    ensures signed { (s : Scope) → Holds out.old.types here.now.declared s → IfOk result (λ r. r ≡ Operations.is_signed op (value_type_in s (expr_of a.now)) (value_type_in s (expr_of b.now))) }
    ensures still { OnOk result (Emits out.old out.new [] 0) }
{
    let left = class_in(out, here, a)?;
    let right = class_in(out, here, b)?;
    Ok(signed_by(op, left, right))
}

// Two operands become comparable.
fn put_lifts(
    out: &mut Output<'_>,
    signed: bool,
    first: Reg,
    second: Operand,
) -> Result<(), AllocError>
    ensures { OnOk result (Emits out.old out.new (pieces.lifts signed first second) 0) }
{
    if signed {
        return lifted(out, first, second);
    }
    Ok(())
}

// The second operand once they are.
fn compared_operand(signed: bool, second: Operand) -> Operand
    ensures { result ≡ pieces.compared_operand signed second }
{
    if signed {
        lifted_operand(second)
    } else {
        second
    }
}

// 1 where a comparison holds, else 0.
fn put_comparison(
    out: &mut Output<'_>,
    signed: bool,
    test: Cond,
    first: Reg,
    second: Operand,
) -> Result<(), AllocError>
    ensures { OnOk result (Emits out.old out.new (Operations.compared test (Operations.comparable signed (pieces.bare first second))) 0) }
{
    put_lifts(out, signed, first, second)?;
    compared(out, test, first, compared_operand(signed, second))?;
    Ok(())
}

/// A jump where a comparison of two operands holds, or where it doesn't.
pub fn comparison_jump(
    out: &mut Output<'_>,
    signed: bool,
    holds: bool,
    target: u32,
    test: Cond,
    first: Reg,
    second: Operand,
) -> Result<(), AllocError>
    ensures code { (t : ℕ) → IsNumber target t → OnOk result (Emits out.old out.new (Operations.jump_where holds t test (Operations.comparable signed (pieces.bare first second))) 0) }
    ensures keeps { OnOk result (Keeps out.old out.new) }
{
    put_lifts(out, signed, first, second)?;
    jump_where(
        out,
        holds,
        target,
        test,
        first,
        compared_operand(signed, second),
    )?;
    Ok(())
}

// A comparison of two operands, if it is one; other operators, for which helper functions stand, have no code.
fn put_compared(
    out: &mut Output<'_>,
    signed: bool,
    test: Option<Cond>,
    first: Reg,
    second: Operand,
) -> Result<(), AllocError>
    ensures { OnOk result (Emits out.old out.new (Operations.comparison_code test (Operations.comparable signed (pieces.bare first second))) 0) }
{
    match test {
        Some(comparison) => put_comparison(out, signed, comparison, first, second),
        None => put_lifts(out, signed, first, second),
    }
}

/// An operator on two operands.
pub fn operator(
    out: &mut Output<'_>,
    op: BinOp,
    signed: bool,
    first: Reg,
    second: Operand,
) -> Result<(), AllocError>
    ensures { OnOk result (Emits out.old out.new (pieces.operated op signed first second) 0) }
{
    if is_sum(op) {
        return sum(out, first, second);
    }
    if is_difference(op) {
        return difference(out, first, second);
    }
    put_compared(out, signed, comparison_of(op), first, second)
}

// The operator `+`.
fn is_sum(op: BinOp) -> bool
    ensures { result ≡ pieces.is_sum op }
{
    match op {
        BinOp::Add => true,
        _ => false,
    }
}

// The operator `-`.
fn is_difference(op: BinOp) -> bool
    ensures { result ≡ pieces.is_difference op }
{
    match op {
        BinOp::Sub => true,
        _ => false,
    }
}
