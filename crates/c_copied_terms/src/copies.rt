// Copies of expressions, and of the types in them.

ghost use Rattle.std.specs.Prelude.{◌≡◌, map, IfOk};
ghost use Rattle.c_syntax.specs.Plain as plain;
ghost use Rattle.c_syntax.specs.Plain.{exprs, tys};
ghost use Rattle.c_syntax.specs.View.{expr_of, exprs_of, ty_of};
ghost use Rattle.c_expressions.specs.Named.{tys_of};

use crate::leaves::{null, size_of, size_type, string};
use c_syntax::text::Text;
use c_syntax::tree::{BinOp, Expr, Exprs, Form, StepOp, Ty, Tys, UnOp};
use c_terms::{
    array, array_of, arrow, assign, binary, call, cast, comma, conditional, function, index,
    member, number, pointer, step, unary, variable,
};
use std::alloc::{AllocError, Global};

// A struct, by its tag.
fn structure(alloc: Global, tag: &Text) -> Result<Ty, AllocError>
    ensures { IfOk result (λ t. ty_of t ≡ plain.Struct tag.now) }
{
    let name = tag.copied(alloc)?;
    Ok(Ty::Struct(name))
}

/// A copy of an expression.
#[cycle(copied)]
pub fn copied(alloc: Global, e: &Expr) -> Result<Expr, AllocError>
    ensures { IfOk result (λ r. expr_of r ≡ expr_of e.now) }
{
    match &e.form {
        Form::Number(value, unsigned) => Ok(number(e.pos, *value, *unsigned)),
        Form::Str(text) => string(alloc, e.pos, text),
        Form::Null => Ok(null(e.pos)),
        Form::Name(name) => variable(alloc, e.pos, name.as_bytes()),
        Form::Unary(op, a) => copied_unary(alloc, e.pos, *op, a),
        Form::Step(op, a) => copied_step(alloc, e.pos, *op, a),
        Form::Binary(op, a, b) => copied_binary(alloc, e.pos, *op, a, b),
        Form::Assign(op, a, b) => copied_assign(alloc, e.pos, *op, a, b),
        Form::Cond(a, b, c) => copied_cond(alloc, e.pos, a, b, c),
        Form::Comma(a, b) => copied_comma(alloc, e.pos, a, b),
        Form::Cast(t, a) => copied_cast(alloc, e.pos, t, a),
        Form::SizeTy(t) => copied_size_type(alloc, e.pos, t),
        Form::SizeOf(a) => copied_size(alloc, e.pos, a),
        Form::Index(a, b) => copied_index(alloc, e.pos, a, b),
        Form::Call(f, es) => copied_call(alloc, e.pos, f, es),
        Form::Member(a, m) => copied_member(alloc, e.pos, a, m),
        Form::Arrow(a, m) => copied_arrow(alloc, e.pos, a, m),
    }
}

// An operator on one side.
#[cycle(copied)]
fn copied_unary(alloc: Global, pos: u32, op: UnOp, a: &Expr) -> Result<Expr, AllocError>
    ensures { IfOk result (λ r. expr_of r ≡ plain.Unary pos op (expr_of a.now)) }
{
    let part = copied(alloc, a)?;
    unary(alloc, pos, op, part)
}

// A step of a place.
#[cycle(copied)]
fn copied_step(alloc: Global, pos: u32, op: StepOp, a: &Expr) -> Result<Expr, AllocError>
    ensures { IfOk result (λ r. expr_of r ≡ plain.Step pos op (expr_of a.now)) }
{
    let part = copied(alloc, a)?;
    step(alloc, pos, op, part)
}

// An operator on two sides.
#[cycle(copied)]
fn copied_binary(alloc: Global, pos: u32, op: BinOp, a: &Expr, b: &Expr) -> Result<Expr, AllocError>
    ensures { IfOk result (λ r. expr_of r ≡ plain.Binary pos op (expr_of a.now) (expr_of b.now)) }
{
    let first = copied(alloc, a)?;
    let second = copied(alloc, b)?;
    binary(alloc, pos, op, first, second)
}

// An assignment, perhaps with an operator.
#[cycle(copied)]
fn copied_assign(
    alloc: Global,
    pos: u32,
    op: Option<BinOp>,
    a: &Expr,
    b: &Expr,
) -> Result<Expr, AllocError>
    ensures { IfOk result (λ r. expr_of r ≡ plain.Assign pos op (expr_of a.now) (expr_of b.now)) }
{
    let first = copied(alloc, a)?;
    let second = copied(alloc, b)?;
    assign(alloc, pos, op, first, second)
}

// A choice of two.
#[cycle(copied)]
fn copied_cond(alloc: Global, pos: u32, a: &Expr, b: &Expr, c: &Expr) -> Result<Expr, AllocError>
    ensures { IfOk result (λ r. expr_of r ≡ plain.Cond pos (expr_of a.now) (expr_of b.now) (expr_of c.now)) }
{
    let test = copied(alloc, a)?;
    let first = copied(alloc, b)?;
    let second = copied(alloc, c)?;
    conditional(alloc, pos, test, first, second)
}

// One expression and then another.
#[cycle(copied)]
fn copied_comma(alloc: Global, pos: u32, a: &Expr, b: &Expr) -> Result<Expr, AllocError>
    ensures { IfOk result (λ r. expr_of r ≡ plain.Comma pos (expr_of a.now) (expr_of b.now)) }
{
    let first = copied(alloc, a)?;
    let second = copied(alloc, b)?;
    comma(alloc, pos, first, second)
}

// A cast.
#[cycle(copied)]
fn copied_cast(alloc: Global, pos: u32, t: &Ty, a: &Expr) -> Result<Expr, AllocError>
    ensures { IfOk result (λ r. expr_of r ≡ plain.Cast pos (ty_of t.now) (expr_of a.now)) }
{
    let ty = copied_type(alloc, t)?;
    let part = copied(alloc, a)?;
    cast(alloc, pos, ty, part)
}

// `sizeof` of a type.
#[cycle(copied)]
fn copied_size_type(alloc: Global, pos: u32, t: &Ty) -> Result<Expr, AllocError>
    ensures { IfOk result (λ r. expr_of r ≡ plain.SizeTy pos (ty_of t.now)) }
{
    let ty = copied_type(alloc, t)?;
    size_type(alloc, pos, ty)
}

// `sizeof` of an expression.
#[cycle(copied)]
fn copied_size(alloc: Global, pos: u32, a: &Expr) -> Result<Expr, AllocError>
    ensures { IfOk result (λ r. expr_of r ≡ plain.SizeOf pos (expr_of a.now)) }
{
    let part = copied(alloc, a)?;
    size_of(alloc, pos, part)
}

// An element of an array.
#[cycle(copied)]
fn copied_index(alloc: Global, pos: u32, a: &Expr, b: &Expr) -> Result<Expr, AllocError>
    ensures { IfOk result (λ r. expr_of r ≡ plain.Index pos (expr_of a.now) (expr_of b.now)) }
{
    let first = copied(alloc, a)?;
    let second = copied(alloc, b)?;
    index(alloc, pos, first, second)
}

// A call.
#[cycle(copied)]
fn copied_call(alloc: Global, pos: u32, f: &Expr, es: &Exprs) -> Result<Expr, AllocError>
    ensures { IfOk result (λ r. expr_of r ≡ plain.Call pos (expr_of f.now) (exprs_of es.now)) }
{
    let callee = copied(alloc, f)?;
    let arguments = copied_all(alloc, es)?;
    call(alloc, pos, callee, arguments)
}

// A member of a struct.
#[cycle(copied)]
fn copied_member(alloc: Global, pos: u32, a: &Expr, m: &Text) -> Result<Expr, AllocError>
    ensures { IfOk result (λ r. expr_of r ≡ plain.Member pos (expr_of a.now) m.now) }
{
    let part = copied(alloc, a)?;
    let name = m.copied(alloc)?;
    member(alloc, pos, part, name)
}

// A member of the struct that a pointer points to.
#[cycle(copied)]
fn copied_arrow(alloc: Global, pos: u32, a: &Expr, m: &Text) -> Result<Expr, AllocError>
    ensures { IfOk result (λ r. expr_of r ≡ plain.Arrow pos (expr_of a.now) m.now) }
{
    let part = copied(alloc, a)?;
    let name = m.copied(alloc)?;
    arrow(alloc, pos, part, name)
}

// The arguments of a call.
#[cycle(copied)]
fn copied_all(alloc: Global, all: &Exprs) -> Result<Vec<Expr>, AllocError>
    ensures { IfOk result (λ r. exprs (map expr_of r.items) ≡ exprs_of all.now) }
{
    let mut copies = Vec::new(alloc);
    for e in &all.items {
        let copy = copied(alloc, e)?;
        copies.push(copy)?;
    }
    Ok(copies)
}

/// A copy of a type.
#[cycle(copied)]
pub fn copied_type(alloc: Global, t: &Ty) -> Result<Ty, AllocError>
    ensures { IfOk result (λ r. ty_of r ≡ ty_of t.now) }
{
    match t {
        Ty::Void => Ok(Ty::Void),
        Ty::Int => Ok(Ty::Int),
        Ty::Unsigned => Ok(Ty::Unsigned),
        Ty::Char => Ok(Ty::Char),
        Ty::UChar => Ok(Ty::UChar),
        Ty::Struct(tag) => structure(alloc, tag),
        Ty::Pointer(to) => {
            let copy = copied_type(alloc, to)?;
            pointer(alloc, copy)
        }
        Ty::Array(of, length) => match length {
            Some(count) => copied_array(alloc, of, count),
            None => {
                let copy = copied_type(alloc, of)?;
                array(alloc, copy)
            }
        },
        Ty::Func(gives, parameters) => copied_function(alloc, gives, parameters),
    }
}

// An array of a length.
#[cycle(copied)]
fn copied_array(alloc: Global, of: &Ty, length: &Expr) -> Result<Ty, AllocError>
    ensures { IfOk result (λ r. ty_of r ≡ plain.ArrayOf (ty_of of.now) (expr_of length.now)) }
{
    let copy = copied_type(alloc, of)?;
    let count = copied(alloc, length)?;
    array_of(alloc, copy, count)
}

// A function.
#[cycle(copied)]
fn copied_function(alloc: Global, gives: &Ty, parameters: &Tys) -> Result<Ty, AllocError>
    ensures { IfOk result (λ r. ty_of r ≡ plain.Func (ty_of gives.now) (tys_of parameters.now)) }
{
    let copy = copied_type(alloc, gives)?;
    let copies = copied_types(alloc, parameters)?;
    function(alloc, copy, copies)
}

// The types of parameters.
#[cycle(copied)]
fn copied_types(alloc: Global, all: &Tys) -> Result<Vec<Ty>, AllocError>
    ensures { IfOk result (λ r. tys (map ty_of r.items) ≡ tys_of all.now) }
{
    let mut copies = Vec::new(alloc);
    for t in &all.items {
        let copy = copied_type(alloc, t)?;
        copies.push(copy)?;
    }
    Ok(copies)
}
