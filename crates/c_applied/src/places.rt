// What stands at an address, and operators on one side.

ghost use Rattle.std.specs.Prelude.{◌≡◌, [], OnOk};
ghost use Rattle.c_syntax.specs.View.{expr_of};
ghost use Rattle.c_types.specs.Scope.{Scope};
ghost use Rattle.c_eval.specs.Environment.{type_in, value_type_in};
ghost use Rattle.c_declared.specs.Held.{Holds, HoldsSome};
ghost use Rattle.c_lowered.specs.Operations;
ghost use Rattle.c_addressing.specs.Here.{Emits};
ghost use Rattle.c_applied.specs.Leads.{Keeps};
ghost use Rattle.c_applied.specs.Pieces as pieces;

use c_addressing::{Here, Output, class_in, operation, target_class};
use c_emission::constant;
use c_operands::Class;
use c_syntax::tree::{Expr, UnOp};
use eir_core::{Cond, Op, Operand, Reg};
use std::alloc::AllocError;

// Whether the word at an address of a class is the value.
fn is_fetched(class: Class) -> bool
    ensures { result ≡ pieces.is_fetched class }
{
    !matches!(class, Class::Array | Class::Struct | Class::Function)
}

// What stands at the address in A, by the class of its type.
fn put_fetched(out: &mut Output<'_>, class: Class) -> Result<(), AllocError>
    ensures { OnOk result (Emits out.old out.new (pieces.fetched_by class) 0) }
{
    if !is_fetched(class) {
        return Ok(());
    }
    operation(out, Op::Load(Reg::A, Operand::Reg(Reg::A)))
}

// What the pointer in A points to, by the class of that, if it is a pointer.
fn put_fetched_target(out: &mut Output<'_>, class: Option<Class>) -> Result<(), AllocError>
    ensures { OnOk result (Emits out.old out.new (pieces.fetched_target class) 0) }
{
    match class {
        Some(target) => put_fetched(out, target),
        None => Ok(()),
    }
}

/// What stands at the address in A, by the type of an expression.
pub fn fetch(out: &mut Output<'_>, here: &Here<'_>, e: &Expr) -> Result<(), AllocError>
    requires { HoldsSome out.old.types here.now.declared }
    ensures code { (s : Scope) → Holds out.old.types here.now.declared s → OnOk result (Emits out.old out.new (Operations.fetched (type_in s (expr_of e.now))) 0) }
    ensures keeps { OnOk result (Keeps out.old out.new) }
{
    let class = class_in(out, here, e)?;
    put_fetched(out, class)?;
    Ok(())
}

/// Whether an operator takes the address of its operand.
pub fn takes_place(op: UnOp) -> bool
    ensures { result ≡ pieces.takes_place op }
{
    match op {
        UnOp::Address => true,
        _ => false,
    }
}

// 1 where A is 0, else 0.
fn put_denied(out: &mut Output<'_>) -> Result<(), AllocError>
    ensures { OnOk result (Emits out.old out.new (pieces.denied) 0) }
{
    operation(out, Op::Set(Cond::Eq, Reg::A, constant(0)))
}

// 0 less what A has.
fn put_negated(out: &mut Output<'_>) -> Result<(), AllocError>
    ensures { OnOk result (Emits out.old out.new (pieces.negated) 0) }
{
    operation(out, Op::Mov(Reg::B, Operand::Reg(Reg::A)))?;
    operation(out, Op::Mov(Reg::A, constant(0)))?;
    operation(out, Op::Sub(Reg::A, Operand::Reg(Reg::B)))?;
    Ok(())
}

/// What an operator that takes a value adds behind the value of its operand.
pub fn after_value(
    out: &mut Output<'_>,
    here: &Here<'_>,
    op: UnOp,
    a: &Expr,
) -> Result<(), AllocError>
    requires { HoldsSome out.old.types here.now.declared }
    ensures code { (s : Scope) → Holds out.old.types here.now.declared s → OnOk result (Emits out.old out.new (pieces.after_code op (value_type_in s (expr_of a.now))) 0) }
    ensures keeps { OnOk result (Keeps out.old out.new) }
{
    match op {
        UnOp::Deref => {
            let target = target_class(out, here, a)?;
            put_fetched_target(out, target)?;
            Ok(())
        }
        UnOp::Not => {
            put_denied(out)?;
            Ok(())
        }
        UnOp::Minus => {
            put_negated(out)?;
            Ok(())
        }
        UnOp::Address => Ok(()),
        UnOp::Plus => Ok(()),
        UnOp::Invert => Ok(()),
    }
}
