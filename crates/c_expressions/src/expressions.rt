// What expressions are, and the types that are written in them.

ghost use Rattle.std.specs.Prelude.{◌≡◌, List, IfOk, OnOk};
ghost use Rattle.c_syntax.specs.Plain as tree;
ghost use Rattle.c_syntax.specs.View.{expr_of, exprs_of, ty_of};
ghost use Rattle.c_types.specs.Types.{CType};
ghost use Rattle.c_types.specs.Refusals as refusals;
ghost use Rattle.c_types.specs.Refusals.{after, all_three};
ghost use Rattle.c_types.specs.Scope.{Scope};
ghost use Rattle.c_types.specs.Operands.{choice_operand, cast_operand, size_operand};
ghost use Rattle.c_types.specs.Expressions.{judged, all_judged, written, parameters, callee_of};
ghost use Rattle.c_types.specs.Table.{known, HasType};
ghost use Rattle.c_types.specs.Known.{Grows};
ghost use Rattle.c_operands.specs.Seen.{IsOperand, IsJudged};
ghost use Rattle.c_operands.specs.Arguments.{IsCallee, HasList};
ghost use Rattle.c_forms.specs.Forms.{one_operand, two_operand};
ghost use Rattle.c_operands.specs.Scoped.{Fits, FitsSome};
ghost use Rattle.c_expressions.specs.Named.{tys_of};
ghost use Rattle.c_expressions.specs.Told.{AreGiven};

use crate::calls::{after_call, through};
use crate::collected::Collected;
use crate::leaves::{literal, no_types, null, plain_type, string};
use crate::names::{format_of, is_function_name, name_in};
use c_forms::{
    One, Two, after_cast, after_one, after_size, after_three, after_two, function_type, more_types,
    open_array, pointer_type, sized_array,
};
use c_operands::{Argument, Callee, Declarations, Judged, Operand, called, named, struct_type};
use c_syntax::tree::{Expr, Exprs, Form, Ty, Tys};
use c_types::{Shape, TypeFault, Types};
use std::alloc::AllocError;

/// What an expression is.
#[cycle(expressions)]
pub fn judge(
    types: &mut Types<'_>,
    declared: &Declarations<'_>,
    e: &Expr,
) -> Result<Judged<Operand>, AllocError>
    requires { FitsSome types.old declared.now }
    ensures judged { (s : Scope) → Fits types.old declared.now s → IfOk result (λ j. IsJudged (IsOperand types.new) j (judged s (expr_of e.now))) }
    ensures grows { OnOk result (Grows (known types.old) (known types.new)) }
    ensures tags { OnOk result (types.new.tags ≡ types.old.tags) }
{
    match &e.form {
        Form::Number(value, unsigned) => literal(types, e.pos, *value, *unsigned),
        Form::Str(text) => string(types, e.pos, text.as_bytes()),
        Form::Null => null(types, e.pos),
        Form::Name(name) => named(types, declared, e.pos, name.as_bytes()),
        Form::Unary(op, a) => judge_one(types, declared, e.pos, One::Unary(*op), a),
        Form::Step(_op, a) => judge_one(types, declared, e.pos, One::Step, a),
        Form::Binary(op, a, b) => judge_two(types, declared, e.pos, Two::Binary(*op), a, b),
        Form::Assign(op, a, b) => judge_two(types, declared, e.pos, Two::Assign(*op), a, b),
        Form::Cond(a, b, c) => judge_three(types, declared, e.pos, a, b, c),
        Form::Comma(a, b) => judge_two(types, declared, e.pos, Two::Comma, a, b),
        Form::Cast(t, a) => judge_cast(types, declared, e.pos, t, a),
        Form::SizeTy(t) => judge_type_size(types, declared, e.pos, t),
        Form::SizeOf(a) => judge_size(types, declared, e.pos, a),
        Form::Index(a, b) => judge_two(types, declared, e.pos, Two::Index, a, b),
        Form::Call(f, arguments) => judge_call(types, declared, e.pos, f, arguments),
        Form::Member(a, m) => judge_one(types, declared, e.pos, One::Member(m.as_bytes()), a),
        Form::Arrow(a, m) => judge_one(types, declared, e.pos, One::Arrow(m.as_bytes()), a),
    }
}

// An expression with one part.
#[cycle(expressions)]
fn judge_one(
    types: &mut Types<'_>,
    declared: &Declarations<'_>,
    at: u32,
    form: One<'_>,
    a: &Expr,
) -> Result<Judged<Operand>, AllocError>
    requires { FitsSome types.old declared.now }
    ensures judged { (s : Scope) → Fits types.old declared.now s → IfOk result (λ j. IsJudged (IsOperand types.new) j (after (judged s (expr_of a.now)) (λ x. one_operand s.tags at form.entry x))) }
    ensures grows { OnOk result (Grows (known types.old) (known types.new)) }
    ensures tags { OnOk result (types.new.tags ≡ types.old.tags) }
{
    let part = judge(types, declared, a)?;
    after_one(types, declared.layouts.as_slice(), at, form, part)
}

// An expression with two parts.
#[cycle(expressions)]
fn judge_two(
    types: &mut Types<'_>,
    declared: &Declarations<'_>,
    at: u32,
    form: Two,
    a: &Expr,
    b: &Expr,
) -> Result<Judged<Operand>, AllocError>
    requires { FitsSome types.old declared.now }
    ensures judged { (s : Scope) → Fits types.old declared.now s → IfOk result (λ j. IsJudged (IsOperand types.new) j (refusals.both (judged s (expr_of a.now)) (judged s (expr_of b.now)) (λ x y. two_operand s.tags at form x y))) }
    ensures grows { OnOk result (Grows (known types.old) (known types.new)) }
    ensures tags { OnOk result (types.new.tags ≡ types.old.tags) }
{
    let first = judge(types, declared, a)?;
    let second = judge(types, declared, b)?;
    after_two(types, declared.layouts.as_slice(), at, form, first, second)
}

// A choice of two.
#[cycle(expressions)]
fn judge_three(
    types: &mut Types<'_>,
    declared: &Declarations<'_>,
    at: u32,
    a: &Expr,
    b: &Expr,
    c: &Expr,
) -> Result<Judged<Operand>, AllocError>
    requires { FitsSome types.old declared.now }
    ensures judged { (s : Scope) → Fits types.old declared.now s → IfOk result (λ j. IsJudged (IsOperand types.new) j (all_three (judged s (expr_of a.now)) (judged s (expr_of b.now)) (judged s (expr_of c.now)) (λ x y z. choice_operand at x y z))) }
    ensures grows { OnOk result (Grows (known types.old) (known types.new)) }
    ensures tags { OnOk result (types.new.tags ≡ types.old.tags) }
{
    let test = judge(types, declared, a)?;
    let first = judge(types, declared, b)?;
    let second = judge(types, declared, c)?;
    after_three(types, at, test, first, second)
}

// A cast.
#[cycle(expressions)]
fn judge_cast(
    types: &mut Types<'_>,
    declared: &Declarations<'_>,
    at: u32,
    t: &Ty,
    a: &Expr,
) -> Result<Judged<Operand>, AllocError>
    requires { FitsSome types.old declared.now }
    ensures judged { (s : Scope) → Fits types.old declared.now s → IfOk result (λ j. IsJudged (IsOperand types.new) j (refusals.both (written s at (ty_of t.now)) (judged s (expr_of a.now)) (λ u x. cast_operand at u x))) }
    ensures grows { OnOk result (Grows (known types.old) (known types.new)) }
    ensures tags { OnOk result (types.new.tags ≡ types.old.tags) }
{
    let ty = written(types, declared, at, t)?;
    let part = judge(types, declared, a)?;
    after_cast(types, at, ty, part)
}

// `sizeof` of a type.
#[cycle(expressions)]
fn judge_type_size(
    types: &mut Types<'_>,
    declared: &Declarations<'_>,
    at: u32,
    t: &Ty,
) -> Result<Judged<Operand>, AllocError>
    requires { FitsSome types.old declared.now }
    ensures judged { (s : Scope) → Fits types.old declared.now s → IfOk result (λ j. IsJudged (IsOperand types.new) j (after (written s at (ty_of t.now)) (λ u. size_operand s.tags at u))) }
    ensures grows { OnOk result (Grows (known types.old) (known types.new)) }
    ensures tags { OnOk result (types.new.tags ≡ types.old.tags) }
{
    let ty = written(types, declared, at, t)?;
    after_size(types, declared.layouts.as_slice(), at, ty)
}

// `sizeof` of an expression, which is no function's name.
#[cycle(expressions)]
fn judge_size(
    types: &mut Types<'_>,
    declared: &Declarations<'_>,
    at: u32,
    a: &Expr,
) -> Result<Judged<Operand>, AllocError>
    requires { FitsSome types.old declared.now }
    ensures judged { (s : Scope) → Fits types.old declared.now s → IfOk result (λ j. IsJudged (IsOperand types.new) j (judged s (tree.SizeOf at (expr_of a.now)))) }
    ensures grows { OnOk result (Grows (known types.old) (known types.new)) }
    ensures tags { OnOk result (types.new.tags ≡ types.old.tags) }
{
    if is_function_name(types, declared, a) {
        Ok(Err(TypeFault::Mismatch(at)))
    } else {
        judge_one(types, declared, at, One::SizeOf, a)
    }
}

// What is called.
#[cycle(expressions)]
fn judge_callee(
    types: &mut Types<'_>,
    declared: &Declarations<'_>,
    at: u32,
    f: &Expr,
) -> Result<Judged<Callee>, AllocError>
    requires { FitsSome types.old declared.now }
    ensures judged { (s : Scope) → Fits types.old declared.now s → IfOk result (λ j. IsJudged (IsCallee types.new) j (callee_of s at (expr_of f.now) (judged s (expr_of f.now)))) }
    ensures grows { OnOk result (Grows (known types.old) (known types.new)) }
    ensures tags { OnOk result (types.new.tags ≡ types.old.tags) }
{
    match name_in(f) {
        Some(name) => called(types, declared, at, name),
        None => {
            let value = judge(types, declared, f)?;
            through(types, value)
        }
    }
}

// The arguments of a call.
#[cycle(expressions)]
fn judge_all(
    types: &mut Types<'_>,
    declared: &Declarations<'_>,
    all: &Exprs,
) -> Result<Judged<Vec<Argument>>, AllocError>
    requires { FitsSome types.old declared.now }
    ensures judged { (s : Scope) → Fits types.old declared.now s → IfOk result (λ j. IsJudged (AreGiven types.new) j (all_judged s (exprs_of all.now))) }
    ensures grows { OnOk result (Grows (known types.old) (known types.new)) }
    ensures tags { OnOk result (types.new.tags ≡ types.old.tags) }
{
    let mut collected = Collected::new(declared.alloc);
    for e in &all.items {
        let argument = judge(types, declared, e)?;
        collected.add(types, argument)?;
    }
    Ok(collected.judged())
}

// A call.
#[cycle(expressions)]
fn judge_call(
    types: &mut Types<'_>,
    declared: &Declarations<'_>,
    at: u32,
    f: &Expr,
    arguments: &Exprs,
) -> Result<Judged<Operand>, AllocError>
    requires { FitsSome types.old declared.now }
    ensures judged { (s : Scope) → Fits types.old declared.now s → IfOk result (λ j. IsJudged (IsOperand types.new) j (judged s (tree.Call at (expr_of f.now) (exprs_of arguments.now)))) }
    ensures grows { OnOk result (Grows (known types.old) (known types.new)) }
    ensures tags { OnOk result (types.new.tags ≡ types.old.tags) }
{
    let callee = judge_callee(types, declared, at, f)?;
    let given = judge_all(types, declared, arguments)?;
    after_call(types, at, callee, format_of(arguments), given)
}

/// The type that is written at a declaration, a cast or a `sizeof`, whose place its own refusals have.
#[cycle(expressions)]
pub fn written(
    types: &mut Types<'_>,
    declared: &Declarations<'_>,
    at: u32,
    t: &Ty,
) -> Result<Judged<usize>, AllocError>
    requires { FitsSome types.old declared.now }
    ensures judged { (s : Scope) → Fits types.old declared.now s → IfOk result (λ j. IsJudged (HasType types.new) j (written s at (ty_of t.now))) }
    ensures grows { OnOk result (Grows (known types.old) (known types.new)) }
    ensures tags { OnOk result (types.new.tags ≡ types.old.tags) }
{
    match t {
        Ty::Void => plain_type(types, Shape::Void),
        Ty::Int => plain_type(types, Shape::Int),
        Ty::Unsigned => plain_type(types, Shape::Unsigned),
        Ty::Char => plain_type(types, Shape::Char),
        Ty::UChar => plain_type(types, Shape::UChar),
        Ty::Struct(name) => struct_type(types, declared, at, name.as_bytes()),
        Ty::Pointer(to) => {
            let ty = written(types, declared, at, to)?;
            pointer_type(types, ty)
        }
        Ty::Array(of, length) => match length {
            Some(count) => written_array(types, declared, at, of, count),
            None => {
                let ty = written(types, declared, at, of)?;
                open_array(types, declared.layouts.as_slice(), at, ty)
            }
        },
        Ty::Func(gives, parameters) => written_function(types, declared, at, gives, parameters),
    }
}

// An array whose length is the value of an expression.
#[cycle(expressions)]
fn written_array(
    types: &mut Types<'_>,
    declared: &Declarations<'_>,
    at: u32,
    of: &Ty,
    length: &Expr,
) -> Result<Judged<usize>, AllocError>
    requires { FitsSome types.old declared.now }
    ensures judged { (s : Scope) → Fits types.old declared.now s → IfOk result (λ j. IsJudged (HasType types.new) j (written s at (tree.ArrayOf (ty_of of.now) (expr_of length.now)))) }
    ensures grows { OnOk result (Grows (known types.old) (known types.new)) }
    ensures tags { OnOk result (types.new.tags ≡ types.old.tags) }
{
    let ty = written(types, declared, at, of)?;
    let count = judge(types, declared, length)?;
    sized_array(types, declared.layouts.as_slice(), at, ty, count)
}

// A function.
#[cycle(expressions)]
fn written_function(
    types: &mut Types<'_>,
    declared: &Declarations<'_>,
    at: u32,
    gives: &Ty,
    parameters: &Tys,
) -> Result<Judged<usize>, AllocError>
    requires { FitsSome types.old declared.now }
    ensures judged { (s : Scope) → Fits types.old declared.now s → IfOk result (λ j. IsJudged (HasType types.new) j (written s at (tree.Func (ty_of gives.now) (tys_of parameters.now)))) }
    ensures grows { OnOk result (Grows (known types.old) (known types.new)) }
    ensures tags { OnOk result (types.new.tags ≡ types.old.tags) }
{
    let ty = written(types, declared, at, gives)?;
    let list = written_all(types, declared, at, parameters)?;
    function_type(types, at, ty, list)
}

// The types of parameters, the last one first.
#[cycle(expressions)]
fn written_all(
    types: &mut Types<'_>,
    declared: &Declarations<'_>,
    at: u32,
    all: &Tys,
) -> Result<Judged<usize>, AllocError>
    requires { FitsSome types.old declared.now }
    ensures judged { (s : Scope) → Fits types.old declared.now s → IfOk result (λ j. IsJudged (HasList types.new) j (parameters s at (tys_of all.now))) }
    ensures grows { OnOk result (Grows (known types.old) (known types.new)) }
    ensures tags { OnOk result (types.new.tags ≡ types.old.tags) }
{
    let count = all.items.len();
    let mut list = no_types(types)?;
    for k in 0..count {
        let next = &all.items[count - 1 - k];
        let ty = written(types, declared, at, next)?;
        list = more_types(types, at, ty, list)?;
    }
    Ok(list)
}
