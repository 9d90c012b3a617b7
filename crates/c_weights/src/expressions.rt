// Sums over expressions, and over the types that are written in them.

ghost use Rattle.std.specs.Prelude.{◌+◌, IfOk, if◌then◌else◌};
ghost use Rattle.c_syntax.specs.Plain as tree;
ghost use Rattle.c_syntax.specs.View.{expr_of, exprs_of, ty_of};
ghost use Rattle.c_types.specs.Expressions.{names_function};
ghost use Rattle.c_types.specs.Census.{expr_sum, exprs_sum, ty_sum, tys_sum};
ghost use Rattle.c_declared.specs.Held.{HoldsSome};
ghost use Rattle.c_expressions.specs.Named.{tys_of};
ghost use Rattle.c_weights.specs.Sums.{AreCounted};

use crate::sum::Sum;
use crate::wide::is_wide;
use c_expressions::{is_function_name, written};
use c_operands::Declarations;
use c_syntax::tree::{Expr, Exprs, Form, Ty, Tys};
use c_types::{Types, Words};
use std::alloc::AllocError;

/// The sum over an expression.
#[cycle(expressions)]
pub fn count(
    types: &mut Types<'_>,
    declared: &Declarations<'_>,
    e: &Expr,
) -> Result<Sum, AllocError>
    requires { HoldsSome types.old declared.now }
    ensures { IfOk result (λ r. AreCounted types.old types.new declared.now r (λ s c. expr_sum c s (expr_of e.now))) }
{
    match &e.form {
        Form::Number(_value, _unsigned) => Ok(Sum::node()),
        Form::Str(text) => Ok(Sum::string(text.as_bytes().len())),
        Form::Null => Ok(Sum::node()),
        Form::Name(_name) => Ok(Sum::node()),
        Form::Unary(_op, a) => count_one(types, declared, a),
        Form::Step(_op, a) => count_one(types, declared, a),
        Form::Binary(_op, a, b) => count_two(types, declared, a, b),
        Form::Assign(_op, a, b) => count_two(types, declared, a, b),
        Form::Cond(a, b, c) => count_three(types, declared, a, b, c),
        Form::Comma(a, b) => count_two(types, declared, a, b),
        Form::Cast(t, a) => count_cast(types, declared, e.pos, t, a),
        Form::SizeTy(t) => count_written(types, declared, e.pos, t),
        Form::SizeOf(a) => count_one(types, declared, a),
        Form::Index(a, b) => count_two(types, declared, a, b),
        Form::Call(f, arguments) => count_call(types, declared, f, arguments),
        Form::Member(a, _name) => count_one(types, declared, a),
        Form::Arrow(a, _name) => count_one(types, declared, a),
    }
}

// That of an expression with one part.
#[cycle(expressions)]
fn count_one(
    types: &mut Types<'_>,
    declared: &Declarations<'_>,
    a: &Expr,
) -> Result<Sum, AllocError>
    requires { HoldsSome types.old declared.now }
    ensures { IfOk result (λ r. AreCounted types.old types.new declared.now r (λ s c. c.node + expr_sum c s (expr_of a.now))) }
{
    let part = count(types, declared, a)?;
    Ok(Sum::node().plus(part))
}

// That of an expression with two parts.
#[cycle(expressions)]
fn count_two(
    types: &mut Types<'_>,
    declared: &Declarations<'_>,
    a: &Expr,
    b: &Expr,
) -> Result<Sum, AllocError>
    requires { HoldsSome types.old declared.now }
    ensures { IfOk result (λ r. AreCounted types.old types.new declared.now r (λ s c. c.node + expr_sum c s (expr_of a.now) + expr_sum c s (expr_of b.now))) }
{
    let first = count_one(types, declared, a)?;
    let second = count(types, declared, b)?;
    Ok(first.plus(second))
}

// That of an expression with three parts.
#[cycle(expressions)]
fn count_three(
    types: &mut Types<'_>,
    declared: &Declarations<'_>,
    a: &Expr,
    b: &Expr,
    d: &Expr,
) -> Result<Sum, AllocError>
    requires { HoldsSome types.old declared.now }
    ensures { IfOk result (λ r. AreCounted types.old types.new declared.now r (λ s c. c.node + expr_sum c s (expr_of a.now) + expr_sum c s (expr_of b.now) + expr_sum c s (expr_of d.now))) }
{
    let first = count_two(types, declared, a, b)?;
    let second = count(types, declared, d)?;
    Ok(first.plus(second))
}

// That of an expression in which a type is written.
#[cycle(expressions)]
fn count_written(
    types: &mut Types<'_>,
    declared: &Declarations<'_>,
    at: u32,
    t: &Ty,
) -> Result<Sum, AllocError>
    requires { HoldsSome types.old declared.now }
    ensures { IfOk result (λ r. AreCounted types.old types.new declared.now r (λ s c. c.expr s (tree.SizeTy at (ty_of t.now)) + ty_sum c s (ty_of t.now))) }
{
    let ty = written(types, declared, at, t)?;
    let own = Sum {
        weight: Words::of(1),
        is_wide: is_wide(types, declared.layouts.as_slice(), ty),
        nodes: 1,
        words: 0,
    };
    let part = count_type(types, declared, t)?;
    Ok(own.plus(part))
}

// That of a cast.
#[cycle(expressions)]
fn count_cast(
    types: &mut Types<'_>,
    declared: &Declarations<'_>,
    at: u32,
    t: &Ty,
    a: &Expr,
) -> Result<Sum, AllocError>
    requires { HoldsSome types.old declared.now }
    ensures { IfOk result (λ r. AreCounted types.old types.new declared.now r (λ s c. c.expr s (tree.SizeTy at (ty_of t.now)) + ty_sum c s (ty_of t.now) + expr_sum c s (expr_of a.now))) }
{
    let first = count_written(types, declared, at, t)?;
    let second = count(types, declared, a)?;
    Ok(first.plus(second))
}

// That of a call and what is called; the name that is called in a direct call is no node.
#[cycle(expressions)]
fn count_callee(
    types: &mut Types<'_>,
    declared: &Declarations<'_>,
    f: &Expr,
) -> Result<Sum, AllocError>
    requires { HoldsSome types.old declared.now }
    ensures { IfOk result (λ r. AreCounted types.old types.new declared.now r (λ s c. c.node + (if names_function s (expr_of f.now) then 0 else expr_sum c s (expr_of f.now)))) }
{
    if is_function_name(types, declared, f) {
        Ok(Sum::node())
    } else {
        count_one(types, declared, f)
    }
}

// That of a call.
#[cycle(expressions)]
fn count_call(
    types: &mut Types<'_>,
    declared: &Declarations<'_>,
    f: &Expr,
    arguments: &Exprs,
) -> Result<Sum, AllocError>
    requires { HoldsSome types.old declared.now }
    ensures { IfOk result (λ r. AreCounted types.old types.new declared.now r (λ s c. c.node + (if names_function s (expr_of f.now) then 0 else expr_sum c s (expr_of f.now)) + exprs_sum c s (exprs_of arguments.now))) }
{
    let first = count_callee(types, declared, f)?;
    let second = count_all(types, declared, arguments)?;
    Ok(first.plus(second))
}

// That of the arguments of a call.
#[cycle(expressions)]
fn count_all(
    types: &mut Types<'_>,
    declared: &Declarations<'_>,
    all: &Exprs,
) -> Result<Sum, AllocError>
    requires { HoldsSome types.old declared.now }
    ensures { IfOk result (λ r. AreCounted types.old types.new declared.now r (λ s c. exprs_sum c s (exprs_of all.now))) }
{
    let mut sum = Sum::nothing();
    for e in &all.items {
        let next = count(types, declared, e)?;
        sum = sum.plus(next);
    }
    Ok(sum)
}

/// The sum over a type that is written.
#[cycle(expressions)]
pub fn count_type(
    types: &mut Types<'_>,
    declared: &Declarations<'_>,
    t: &Ty,
) -> Result<Sum, AllocError>
    requires { HoldsSome types.old declared.now }
    ensures { IfOk result (λ r. AreCounted types.old types.new declared.now r (λ s c. ty_sum c s (ty_of t.now))) }
{
    match t {
        Ty::Void => Ok(Sum::node()),
        Ty::Int => Ok(Sum::node()),
        Ty::Unsigned => Ok(Sum::node()),
        Ty::Char => Ok(Sum::node()),
        Ty::UChar => Ok(Sum::node()),
        Ty::Struct(_name) => Ok(Sum::node()),
        Ty::Pointer(to) => count_behind(types, declared, to),
        Ty::Array(of, length) => match length {
            Some(size) => count_array(types, declared, of, size),
            None => count_behind(types, declared, of),
        },
        Ty::Func(gives, parameters) => count_function(types, declared, gives, parameters),
    }
}

// That of a type that is made of another.
#[cycle(expressions)]
fn count_behind(
    types: &mut Types<'_>,
    declared: &Declarations<'_>,
    t: &Ty,
) -> Result<Sum, AllocError>
    requires { HoldsSome types.old declared.now }
    ensures { IfOk result (λ r. AreCounted types.old types.new declared.now r (λ s c. c.node + ty_sum c s (ty_of t.now))) }
{
    let part = count_type(types, declared, t)?;
    Ok(Sum::node().plus(part))
}

// That of an array with its length.
#[cycle(expressions)]
fn count_array(
    types: &mut Types<'_>,
    declared: &Declarations<'_>,
    of: &Ty,
    size: &Expr,
) -> Result<Sum, AllocError>
    requires { HoldsSome types.old declared.now }
    ensures { IfOk result (λ r. AreCounted types.old types.new declared.now r (λ s c. c.node + ty_sum c s (ty_of of.now) + expr_sum c s (expr_of size.now))) }
{
    let first = count_behind(types, declared, of)?;
    let second = count(types, declared, size)?;
    Ok(first.plus(second))
}

// That of a function with the types of its parameters.
#[cycle(expressions)]
fn count_function(
    types: &mut Types<'_>,
    declared: &Declarations<'_>,
    gives: &Ty,
    parameters: &Tys,
) -> Result<Sum, AllocError>
    requires { HoldsSome types.old declared.now }
    ensures { IfOk result (λ r. AreCounted types.old types.new declared.now r (λ s c. c.node + ty_sum c s (ty_of gives.now) + tys_sum c s (tys_of parameters.now))) }
{
    let first = count_behind(types, declared, gives)?;
    let second = count_types(types, declared, parameters)?;
    Ok(first.plus(second))
}

// That of the types of parameters.
#[cycle(expressions)]
fn count_types(
    types: &mut Types<'_>,
    declared: &Declarations<'_>,
    all: &Tys,
) -> Result<Sum, AllocError>
    requires { HoldsSome types.old declared.now }
    ensures { IfOk result (λ r. AreCounted types.old types.new declared.now r (λ s c. tys_sum c s (tys_of all.now))) }
{
    let mut sum = Sum::nothing();
    for t in &all.items {
        let next = count_type(types, declared, t)?;
        sum = sum.plus(next);
    }
    Ok(sum)
}
