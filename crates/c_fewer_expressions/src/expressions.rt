// Expressions with fewer operators.

ghost use Rattle.std.specs.Prelude.{◌≡◌, IfOk, OnOk};
ghost use Rattle.c_syntax.specs.Plain as plain;
ghost use Rattle.c_syntax.specs.View.{expr_of, exprs_of, ty_of};
ghost use Rattle.c_types.specs.Scope.{Scope};
ghost use Rattle.c_types.specs.Table.{known};
ghost use Rattle.c_types.specs.Known.{Grows};
ghost use Rattle.c_fewer_operators.specs.Here.{Stands, StandsSome};
ghost use Rattle.c_fewer_trees.specs.Remade.{ComesFrom};
ghost use Rattle.c_fewer_expressions.specs.Calls.{CalledFrom, GivenFrom};

use crate::calls::{Called, Given, remade_call};
use c_expressions::{Collected, format_of, name_in, through, written};
use c_fewer_operators::Here;
use c_fewer_trees::{
    Remade, constant_tree, fewer_in_type, null, remade_arrow, remade_assignment, remade_binary,
    remade_cast, remade_choice, remade_comma, remade_element, remade_leaf, remade_member,
    remade_step, remade_unary, string,
};
use c_operands::called;
use c_syntax::tree::{BinOp, Expr, Exprs, Form, StepOp, Ty, UnOp};
use c_terms::{number, variable};
use c_types::Types;
use std::alloc::AllocError;

/// An expression that is evaluated, with calls of helper functions in place of operators, and what it is judged to be.
#[cycle(fewer)]
pub fn fewer(types: &mut Types<'_>, here: &Here<'_>, e: &Expr) -> Result<Remade, AllocError>
    requires { StandsSome types.old here.now }
    ensures made { (s : Scope) → Stands types.old here.now s → IfOk result (λ r. ComesFrom types.new r s (expr_of e.now)) }
    ensures grows { OnOk result (Grows (known types.old) (known types.new)) }
    ensures tags { OnOk result (types.new.tags ≡ types.old.tags) }
{
    match &e.form {
        Form::Number(value, unsigned) => {
            remade_leaf(types, here, e, number(e.pos, *value, *unsigned))
        }
        Form::Str(text) => {
            let tree = string(here.declared.alloc, e.pos, text.as_bytes())?;
            remade_leaf(types, here, e, tree)
        }
        Form::Null => remade_leaf(types, here, e, null(e.pos)),
        Form::Name(name) => {
            let tree = variable(here.declared.alloc, e.pos, name.as_bytes())?;
            remade_leaf(types, here, e, tree)
        }
        Form::Unary(op, a) => unary(types, here, e.pos, *op, a),
        Form::Step(op, a) => step(types, here, e.pos, *op, a),
        Form::Binary(op, a, b) => binary(types, here, e.pos, *op, a, b),
        Form::Assign(op, a, b) => assignment(types, here, e.pos, *op, a, b),
        Form::Cond(a, b, c) => choice(types, here, e.pos, a, b, c),
        Form::Comma(a, b) => comma(types, here, e.pos, a, b),
        Form::Cast(t, a) => cast(types, here, e.pos, t, a),
        Form::SizeTy(_t) => constant_tree(types, here, e),
        Form::SizeOf(_a) => constant_tree(types, here, e),
        Form::Index(a, b) => element(types, here, e.pos, a, b),
        Form::Call(f, es) => call(types, here, e.pos, f, es),
        Form::Member(a, m) => member(types, here, e.pos, a, m.as_bytes()),
        Form::Arrow(a, m) => arrow(types, here, e.pos, a, m.as_bytes()),
    }
}

// An operator on one side.
#[cycle(fewer)]
fn unary(
    types: &mut Types<'_>,
    here: &Here<'_>,
    at: u32,
    op: UnOp,
    a: &Expr,
) -> Result<Remade, AllocError>
    requires { StandsSome types.old here.now }
    ensures made { (s : Scope) → Stands types.old here.now s → IfOk result (λ r. ComesFrom types.new r s (plain.Unary at op (expr_of a.now))) }
    ensures grows { OnOk result (Grows (known types.old) (known types.new)) }
    ensures tags { OnOk result (types.new.tags ≡ types.old.tags) }
{
    let part = fewer(types, here, a)?;
    remade_unary(types, here, at, op, part)
}

// A step of a place.
#[cycle(fewer)]
fn step(
    types: &mut Types<'_>,
    here: &Here<'_>,
    at: u32,
    op: StepOp,
    a: &Expr,
) -> Result<Remade, AllocError>
    requires { StandsSome types.old here.now }
    ensures made { (s : Scope) → Stands types.old here.now s → IfOk result (λ r. ComesFrom types.new r s (plain.Step at op (expr_of a.now))) }
    ensures grows { OnOk result (Grows (known types.old) (known types.new)) }
    ensures tags { OnOk result (types.new.tags ≡ types.old.tags) }
{
    let part = fewer(types, here, a)?;
    remade_step(types, here, at, op, part)
}

// A member of a struct.
#[cycle(fewer)]
fn member(
    types: &mut Types<'_>,
    here: &Here<'_>,
    at: u32,
    a: &Expr,
    m: &[u8],
) -> Result<Remade, AllocError>
    requires { StandsSome types.old here.now }
    ensures made { (s : Scope) → Stands types.old here.now s → IfOk result (λ r. ComesFrom types.new r s (plain.Member at (expr_of a.now) m.now)) }
    ensures grows { OnOk result (Grows (known types.old) (known types.new)) }
    ensures tags { OnOk result (types.new.tags ≡ types.old.tags) }
{
    let part = fewer(types, here, a)?;
    remade_member(types, here, at, m, part)
}

// A member of the struct that a pointer points to.
#[cycle(fewer)]
fn arrow(
    types: &mut Types<'_>,
    here: &Here<'_>,
    at: u32,
    a: &Expr,
    m: &[u8],
) -> Result<Remade, AllocError>
    requires { StandsSome types.old here.now }
    ensures made { (s : Scope) → Stands types.old here.now s → IfOk result (λ r. ComesFrom types.new r s (plain.Arrow at (expr_of a.now) m.now)) }
    ensures grows { OnOk result (Grows (known types.old) (known types.new)) }
    ensures tags { OnOk result (types.new.tags ≡ types.old.tags) }
{
    let part = fewer(types, here, a)?;
    remade_arrow(types, here, at, m, part)
}

// An operator on two sides.
#[cycle(fewer)]
fn binary(
    types: &mut Types<'_>,
    here: &Here<'_>,
    at: u32,
    op: BinOp,
    a: &Expr,
    b: &Expr,
) -> Result<Remade, AllocError>
    requires { StandsSome types.old here.now }
    ensures made { (s : Scope) → Stands types.old here.now s → IfOk result (λ r. ComesFrom types.new r s (plain.Binary at op (expr_of a.now) (expr_of b.now))) }
    ensures grows { OnOk result (Grows (known types.old) (known types.new)) }
    ensures tags { OnOk result (types.new.tags ≡ types.old.tags) }
{
    let first = fewer(types, here, a)?;
    let second = fewer(types, here, b)?;
    remade_binary(types, here, at, op, first, second)
}

// An assignment, perhaps with an operator.
#[cycle(fewer)]
fn assignment(
    types: &mut Types<'_>,
    here: &Here<'_>,
    at: u32,
    op: Option<BinOp>,
    a: &Expr,
    b: &Expr,
) -> Result<Remade, AllocError>
    requires { StandsSome types.old here.now }
    ensures made { (s : Scope) → Stands types.old here.now s → IfOk result (λ r. ComesFrom types.new r s (plain.Assign at op (expr_of a.now) (expr_of b.now))) }
    ensures grows { OnOk result (Grows (known types.old) (known types.new)) }
    ensures tags { OnOk result (types.new.tags ≡ types.old.tags) }
{
    let first = fewer(types, here, a)?;
    let second = fewer(types, here, b)?;
    remade_assignment(types, here, at, op, first, second)
}

// One expression and then another.
#[cycle(fewer)]
fn comma(
    types: &mut Types<'_>,
    here: &Here<'_>,
    at: u32,
    a: &Expr,
    b: &Expr,
) -> Result<Remade, AllocError>
    requires { StandsSome types.old here.now }
    ensures made { (s : Scope) → Stands types.old here.now s → IfOk result (λ r. ComesFrom types.new r s (plain.Comma at (expr_of a.now) (expr_of b.now))) }
    ensures grows { OnOk result (Grows (known types.old) (known types.new)) }
    ensures tags { OnOk result (types.new.tags ≡ types.old.tags) }
{
    let first = fewer(types, here, a)?;
    let second = fewer(types, here, b)?;
    remade_comma(types, here, at, first, second)
}

// An element of an array.
#[cycle(fewer)]
fn element(
    types: &mut Types<'_>,
    here: &Here<'_>,
    at: u32,
    a: &Expr,
    b: &Expr,
) -> Result<Remade, AllocError>
    requires { StandsSome types.old here.now }
    ensures made { (s : Scope) → Stands types.old here.now s → IfOk result (λ r. ComesFrom types.new r s (plain.Index at (expr_of a.now) (expr_of b.now))) }
    ensures grows { OnOk result (Grows (known types.old) (known types.new)) }
    ensures tags { OnOk result (types.new.tags ≡ types.old.tags) }
{
    let first = fewer(types, here, a)?;
    let second = fewer(types, here, b)?;
    remade_element(types, here, at, first, second)
}

// A choice of two.
#[cycle(fewer)]
fn choice(
    types: &mut Types<'_>,
    here: &Here<'_>,
    at: u32,
    a: &Expr,
    b: &Expr,
    c: &Expr,
) -> Result<Remade, AllocError>
    requires { StandsSome types.old here.now }
    ensures made { (s : Scope) → Stands types.old here.now s → IfOk result (λ r. ComesFrom types.new r s (plain.Cond at (expr_of a.now) (expr_of b.now) (expr_of c.now))) }
    ensures grows { OnOk result (Grows (known types.old) (known types.new)) }
    ensures tags { OnOk result (types.new.tags ≡ types.old.tags) }
{
    let test = fewer(types, here, a)?;
    let first = fewer(types, here, b)?;
    let second = fewer(types, here, c)?;
    remade_choice(types, here, at, test, first, second)
}

// A cast.
#[cycle(fewer)]
fn cast(
    types: &mut Types<'_>,
    here: &Here<'_>,
    at: u32,
    t: &Ty,
    a: &Expr,
) -> Result<Remade, AllocError>
    requires { StandsSome types.old here.now }
    ensures made { (s : Scope) → Stands types.old here.now s → IfOk result (λ r. ComesFrom types.new r s (plain.Cast at (ty_of t.now) (expr_of a.now))) }
    ensures grows { OnOk result (Grows (known types.old) (known types.new)) }
    ensures tags { OnOk result (types.new.tags ≡ types.old.tags) }
{
    let ty = written(types, &here.declared, at, t)?;
    let tree = fewer_in_type(types, here, t)?;
    let part = fewer(types, here, a)?;
    remade_cast(types, here, at, ty, tree, part)
}

// What is called.
#[cycle(fewer)]
fn callee(types: &mut Types<'_>, here: &Here<'_>, at: u32, f: &Expr) -> Result<Called, AllocError>
    requires { StandsSome types.old here.now }
    ensures made { (s : Scope) → Stands types.old here.now s → IfOk result (λ r. CalledFrom types.new r s at (expr_of f.now)) }
    ensures grows { OnOk result (Grows (known types.old) (known types.new)) }
    ensures tags { OnOk result (types.new.tags ≡ types.old.tags) }
{
    match name_in(f) {
        Some(name) => {
            let judged = called(types, &here.declared, at, name)?;
            let tree = variable(here.declared.alloc, f.pos, name)?;
            Ok(Called { tree, judged })
        }
        None => {
            let part = fewer(types, here, f)?;
            let judged = through(types, part.judged)?;
            Ok(Called {
                tree: part.tree,
                judged,
            })
        }
    }
}

// The arguments of a call.
#[cycle(fewer)]
fn arguments(types: &mut Types<'_>, here: &Here<'_>, all: &Exprs) -> Result<Given, AllocError>
    requires { StandsSome types.old here.now }
    ensures made { (s : Scope) → Stands types.old here.now s → IfOk result (λ r. GivenFrom types.new r s (exprs_of all.now)) }
    ensures grows { OnOk result (Grows (known types.old) (known types.new)) }
    ensures tags { OnOk result (types.new.tags ≡ types.old.tags) }
{
    let mut collected = Collected::new(here.declared.alloc);
    let mut trees = Vec::new(here.declared.alloc);
    for e in &all.items {
        let argument = fewer(types, here, e)?;
        collected.add(types, argument.judged)?;
        trees.push(argument.tree)?;
    }
    Ok(Given {
        trees,
        judged: collected.judged(),
    })
}

// A call.
#[cycle(fewer)]
fn call(
    types: &mut Types<'_>,
    here: &Here<'_>,
    at: u32,
    f: &Expr,
    es: &Exprs,
) -> Result<Remade, AllocError>
    requires { StandsSome types.old here.now }
    ensures made { (s : Scope) → Stands types.old here.now s → IfOk result (λ r. ComesFrom types.new r s (plain.Call at (expr_of f.now) (exprs_of es.now))) }
    ensures grows { OnOk result (Grows (known types.old) (known types.new)) }
    ensures tags { OnOk result (types.new.tags ≡ types.old.tags) }
{
    let called = callee(types, here, at, f)?;
    let given = arguments(types, here, es)?;
    remade_call(types, here, at, called, format_of(es), given)
}
