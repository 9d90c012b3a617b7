// What each step makes.

ghost use Rattle.std.specs.Prelude.{◌≡◌, ◌∷◌, ◌++◌, [], codes, IfOk, OnOk};
ghost use Rattle.c_syntax.specs.Plain as plain;
ghost use Rattle.c_syntax.specs.View.{expr_of, stmt_of};
ghost use Rattle.c_helpers.specs.Functions.{r, doubled, raised, lowered, is_negative};
ghost use Rattle.c_helpers.specs.Terms as terms;
ghost use Rattle.c_helper_steps.specs.Postfix.{tree_of, with_expr, with_stmt, top, below, last_stmt, before, place_written, after};
ghost use Rattle.c_helper_steps.specs.declared.steps.Step.TheVariants as step;
ghost use Rattle.c_helper_steps.specs.Seen.{seen};

use crate::parts::Parts;
use crate::steps::{Step, TypeName};
use c_syntax::tree::{BinOp, Expr, Stmt, UnOp, Value};
use c_terms::{
    assign, binary, block, call, cast, local, looped, number, set, unary, variable, when,
};
use std::alloc::{AllocError, Global};
use std::mem;

// A name that becomes the sum of itself and another.
fn doubled(alloc: Global, name: &[u8]) -> Result<Stmt, AllocError>
    ensures { IfOk result (λ s. stmt_of s ≡ doubled name.now) }
{
    let a = variable(alloc, 0, name)?;
    let b = variable(alloc, 0, name)?;
    let sum = binary(alloc, 0, BinOp::Add, a, b)?;
    set(alloc, name, sum)
}

// A name that becomes 1 more.
fn raised(alloc: Global, name: &[u8]) -> Result<Stmt, AllocError>
    ensures { IfOk result (λ s. stmt_of s ≡ raised name.now) }
{
    let a = variable(alloc, 0, name)?;
    let sum = binary(alloc, 0, BinOp::Add, a, number(0, 1, false))?;
    set(alloc, name, sum)
}

// A name that becomes 1 less.
fn lowered(alloc: Global, name: &[u8]) -> Result<Stmt, AllocError>
    ensures { IfOk result (λ s. stmt_of s ≡ lowered name.now) }
{
    let a = variable(alloc, 0, name)?;
    let difference = binary(alloc, 0, BinOp::Sub, a, number(0, 1, false))?;
    set(alloc, name, difference)
}

// Whether what a name has is below zero.
fn negative(alloc: Global, name: &[u8]) -> Result<Expr, AllocError>
    ensures { IfOk result (λ e. expr_of e ≡ is_negative (terms.variable name.now)) }
{
    let a = variable(alloc, 0, name)?;
    binary(alloc, 0, BinOp::Lt, a, number(0, 0, false))
}

// A name.
fn put_name(alloc: Global, parts: &mut Parts, name: &[u8]) -> Result<(), AllocError>
    ensures { OnOk result (seen parts.new ≡ with_expr (terms.variable name.now) (seen parts.old)) }
{
    let e = variable(alloc, 0, name)?;
    parts.put(e)
}

// Whether what a name has is below zero.
fn put_negative(alloc: Global, parts: &mut Parts, name: &[u8]) -> Result<(), AllocError>
    ensures { OnOk result (seen parts.new ≡ with_expr (is_negative (terms.variable name.now)) (seen parts.old)) }
{
    let e = negative(alloc, name)?;
    parts.put(e)
}

// The last expression with an operator before it.
fn put_unary(alloc: Global, parts: &mut Parts, op: UnOp) -> Result<(), AllocError>
    ensures { OnOk result (seen parts.new ≡ with_expr (plain.Unary 0 op (top (seen parts.old))) (below (seen parts.old))) }
{
    let a = parts.take();
    let e = unary(alloc, 0, op, a)?;
    parts.put(e)
}

// The last expression as a type.
fn put_cast(alloc: Global, parts: &mut Parts, ty: TypeName) -> Result<(), AllocError>
    ensures { OnOk result (seen parts.new ≡ with_expr (plain.Cast 0 (tree_of ty) (top (seen parts.old))) (below (seen parts.old))) }
{
    let tree = ty.tree(alloc)?;
    let a = parts.take();
    let e = cast(alloc, 0, tree, a)?;
    parts.put(e)
}

// An operator on the last two expressions.
fn put_operation(alloc: Global, parts: &mut Parts, op: BinOp) -> Result<(), AllocError>
    ensures { OnOk result (seen parts.new ≡ with_expr (terms.operation op (top (below (seen parts.old))) (top (seen parts.old))) (below (below (seen parts.old)))) }
{
    let b = parts.take();
    let a = parts.take();
    let e = binary(alloc, 0, op, a, b)?;
    parts.put(e)
}

// An assignment of the last expression to the one before it.
fn put_assignment(alloc: Global, parts: &mut Parts) -> Result<(), AllocError>
    ensures { OnOk result (seen parts.new ≡ with_expr (terms.assigned (top (below (seen parts.old))) (top (seen parts.old))) (below (below (seen parts.old)))) }
{
    let b = parts.take();
    let a = parts.take();
    let e = assign(alloc, 0, None, a, b)?;
    parts.put(e)
}

// The last expression becomes an argument of the next call.
fn put_argument(parts: &mut Parts) -> Result<(), AllocError>
    ensures { OnOk result (seen parts.new ≡ after (seen parts.old) step.Argument) }
{
    let a = parts.take();
    parts.arguments.push(a)?;
    Ok(())
}

// A call with all arguments.
fn put_call(alloc: Global, parts: &mut Parts, name: &[u8]) -> Result<(), AllocError>
    ensures { OnOk result (seen parts.new ≡ with_expr (terms.call name.now (seen parts.old).arguments) (record (seen parts.old) { arguments = [] })) }
{
    let arguments = mem::replace(&mut parts.arguments, Vec::new(alloc));
    let callee = variable(alloc, 0, name)?;
    let e = call(alloc, 0, callee, arguments)?;
    parts.put(e)
}

// The last expression as a statement.
fn put_effect(parts: &mut Parts) -> Result<(), AllocError>
    ensures { OnOk result (seen parts.new ≡ with_stmt (plain.Do_expr (top (seen parts.old))) (below (seen parts.old))) }
{
    let e = parts.take();
    parts.put_statement(Stmt::Expr(e))
}

// A name becomes the last expression.
fn put_set(alloc: Global, parts: &mut Parts, name: &[u8]) -> Result<(), AllocError>
    ensures { OnOk result (seen parts.new ≡ with_stmt (terms.set name.now (top (seen parts.old))) (below (seen parts.old))) }
{
    let e = parts.take();
    let s = set(alloc, name, e)?;
    parts.put_statement(s)
}

// A name is doubled.
fn put_doubled(alloc: Global, parts: &mut Parts, name: &[u8]) -> Result<(), AllocError>
    ensures { OnOk result (seen parts.new ≡ with_stmt (doubled name.now) (seen parts.old)) }
{
    let s = doubled(alloc, name)?;
    parts.put_statement(s)
}

// A name gains 1.
fn put_raised(alloc: Global, parts: &mut Parts, name: &[u8]) -> Result<(), AllocError>
    ensures { OnOk result (seen parts.new ≡ with_stmt (raised name.now) (seen parts.old)) }
{
    let s = raised(alloc, name)?;
    parts.put_statement(s)
}

// A name loses 1.
fn put_lowered(alloc: Global, parts: &mut Parts, name: &[u8]) -> Result<(), AllocError>
    ensures { OnOk result (seen parts.new ≡ with_stmt (lowered name.now) (seen parts.old)) }
{
    let s = lowered(alloc, name)?;
    parts.put_statement(s)
}

// The digit at a place is written, and the rest kept.
fn digit_written(alloc: Global, place: u32) -> Result<Stmt, AllocError>
    ensures { IfOk result (λ s. stmt_of s ≡ terms.set r (terms.call (codes "one digit") (terms.variable r ∷ terms.unsigned_number place ∷ []))) }
{
    let rest = variable(alloc, 0, b"r")?;
    let mut arguments = Vec::new(alloc);
    arguments.push(rest)?;
    arguments.push(number(0, place, true))?;
    let callee = variable(alloc, 0, b"one digit")?;
    let e = call(alloc, 0, callee, arguments)?;
    set(alloc, b"r", e)
}

// The digit at a place is written, where a has one there.
fn put_place(alloc: Global, parts: &mut Parts, place: u32) -> Result<(), AllocError>
    ensures { OnOk result (seen parts.new ≡ with_stmt (place_written place) (seen parts.old)) }
{
    let then = digit_written(alloc, place)?;
    let a = variable(alloc, 0, b"a")?;
    let test = binary(alloc, 0, BinOp::Le, number(0, place, true), a)?;
    let s = when(alloc, test, then)?;
    parts.put_statement(s)
}

// A local without a first value.
fn put_fresh(alloc: Global, parts: &mut Parts, ty: TypeName, name: &[u8]) -> Result<(), AllocError>
    ensures { OnOk result (seen parts.new ≡ with_stmt (terms.fresh (tree_of ty) name.now) (seen parts.old)) }
{
    let tree = ty.tree(alloc)?;
    let s = local(alloc, tree, name, None)?;
    parts.put_statement(s)
}

// A local with the last expression as its first value.
fn put_local(alloc: Global, parts: &mut Parts, ty: TypeName, name: &[u8]) -> Result<(), AllocError>
    ensures { OnOk result (seen parts.new ≡ with_stmt (terms.local (tree_of ty) name.now (top (seen parts.old))) (below (seen parts.old))) }
{
    let tree = ty.tree(alloc)?;
    let e = parts.take();
    let s = local(alloc, tree, name, Some(Value::One(e)))?;
    parts.put_statement(s)
}

// The last statement where the last expression holds.
fn put_if(alloc: Global, parts: &mut Parts) -> Result<(), AllocError>
    ensures { OnOk result (seen parts.new ≡ with_stmt (plain.If (top (seen parts.old)) (last_stmt (seen parts.old))) (before (below (seen parts.old)))) }
{
    let e = parts.take();
    let then = parts.take_statement();
    let s = when(alloc, e, then)?;
    parts.put_statement(s)
}

// The last statement while the last expression holds.
fn put_while(alloc: Global, parts: &mut Parts) -> Result<(), AllocError>
    ensures { OnOk result (seen parts.new ≡ with_stmt (plain.While (top (seen parts.old)) (last_stmt (seen parts.old))) (before (below (seen parts.old)))) }
{
    let e = parts.take();
    let body = parts.take_statement();
    let s = looped(alloc, e, body)?;
    parts.put_statement(s)
}

// The last expression is given back.
fn put_return(parts: &mut Parts) -> Result<(), AllocError>
    ensures { OnOk result (seen parts.new ≡ with_stmt (terms.give_back (top (seen parts.old))) (below (seen parts.old))) }
{
    let e = parts.take();
    parts.put_statement(Stmt::Return(0, Some(e)))
}

// A block begins.
fn open_block(alloc: Global, parts: &mut Parts) -> Result<(), AllocError>
    ensures { OnOk result (seen parts.new ≡ after (seen parts.old) step.Open) }
{
    let row = mem::replace(&mut parts.row, Vec::new(alloc));
    parts.blocks.push(row)?;
    Ok(())
}

// A block ends.
fn close_block(alloc: Global, parts: &mut Parts) -> Result<(), AllocError>
    ensures { OnOk result (seen parts.new ≡ after (seen parts.old) step.Close) }
{
    let around = match parts.blocks.pop() {
        Some(row) => row,
        None => Vec::new(alloc),
    };
    let row = mem::replace(&mut parts.row, around);
    parts.put_statement(block(row))
}

/// What a step makes of what is made so far.
pub fn step(alloc: Global, parts: &mut Parts, next: Step<'_>) -> Result<(), AllocError>
    ensures { OnOk result (seen parts.new ≡ after (seen parts.old) next.entry) }
{
    match next {
        Step::Number(value) => parts.put(number(0, value, false)),
        Step::Unsigned(value) => parts.put(number(0, value, true)),
        Step::Name(name) => put_name(alloc, parts, name),
        Step::Negative(name) => put_negative(alloc, parts, name),
        Step::Minus => put_unary(alloc, parts, UnOp::Minus),
        Step::Cast(ty) => put_cast(alloc, parts, ty),
        Step::Deref => put_unary(alloc, parts, UnOp::Deref),
        Step::Operation(op) => put_operation(alloc, parts, op),
        Step::Assign => put_assignment(alloc, parts),
        Step::Argument => put_argument(parts),
        Step::Call(name) => put_call(alloc, parts, name),
        Step::Do => put_effect(parts),
        Step::Set(name) => put_set(alloc, parts, name),
        Step::Double(name) => put_doubled(alloc, parts, name),
        Step::Raise(name) => put_raised(alloc, parts, name),
        Step::Lower(name) => put_lowered(alloc, parts, name),
        Step::Place(place) => put_place(alloc, parts, place),
        Step::Fresh(ty, name) => put_fresh(alloc, parts, ty, name),
        Step::Local(ty, name) => put_local(alloc, parts, ty, name),
        Step::If => put_if(alloc, parts),
        Step::While => put_while(alloc, parts),
        Step::Return => put_return(parts),
        Step::Open => open_block(alloc, parts),
        Step::Close => close_block(alloc, parts),
    }
}
