// The names in expressions.

ghost use Rattle.std.specs.Prelude.{◌∷◌, ◌++◌, [], OnOk};
ghost use Rattle.c_syntax.specs.View.{expr_of, exprs_of, maybe};
ghost use Rattle.c_helpers.specs.Names.{names_in, names_in_all, maybe_names};
ghost use Rattle.c_tree_names.specs.Added.{Added};

use c_syntax::tree::{Expr, Exprs, Form};
use std::alloc::AllocError;

// A name behind others.
fn add_name<'t>(names: &mut Vec<&'t [u8]>, name: &'t [u8]) -> Result<(), AllocError>
    ensures { OnOk result (Added names.old.items names.new.items (name.now ∷ [])) }
{
    names.push(name)?;
    Ok(())
}

/// The names in an expression, behind others.
#[cycle(expressions)]
pub fn add_expression<'t>(names: &mut Vec<&'t [u8]>, e: &'t Expr) -> Result<(), AllocError>
    ensures { OnOk result (Added names.old.items names.new.items (names_in (expr_of e.now))) }
{
    match &e.form {
        Form::Number(_value, _unsigned) => Ok(()),
        Form::Str(_text) => Ok(()),
        Form::Null => Ok(()),
        Form::Name(name) => add_name(names, name.as_bytes()),
        Form::Unary(_op, a) => add_expression(names, a),
        Form::Step(_op, a) => add_expression(names, a),
        Form::Binary(_op, a, b) => add_two(names, a, b),
        Form::Assign(_op, a, b) => add_two(names, a, b),
        Form::Cond(a, b, c) => add_three(names, a, b, c),
        Form::Comma(a, b) => add_two(names, a, b),
        Form::Cast(_ty, a) => add_expression(names, a),
        Form::SizeTy(_ty) => Ok(()),
        Form::SizeOf(_a) => Ok(()),
        Form::Index(a, b) => add_two(names, a, b),
        Form::Call(f, arguments) => add_call(names, f, arguments),
        Form::Member(a, _name) => add_expression(names, a),
        Form::Arrow(a, _name) => add_expression(names, a),
    }
}

// Those in two expressions.
#[cycle(expressions)]
fn add_two<'t>(names: &mut Vec<&'t [u8]>, a: &'t Expr, b: &'t Expr) -> Result<(), AllocError>
    ensures { OnOk result (Added names.old.items names.new.items (names_in (expr_of a.now) ++ names_in (expr_of b.now))) }
{
    add_expression(names, a)?;
    add_expression(names, b)
}

// Those in three.
#[cycle(expressions)]
fn add_three<'t>(
    names: &mut Vec<&'t [u8]>,
    a: &'t Expr,
    b: &'t Expr,
    d: &'t Expr,
) -> Result<(), AllocError>
    ensures { OnOk result (Added names.old.items names.new.items (names_in (expr_of a.now) ++ (names_in (expr_of b.now) ++ names_in (expr_of d.now)))) }
{
    add_expression(names, a)?;
    add_two(names, b, d)
}

// Those in a call.
#[cycle(expressions)]
fn add_call<'t>(
    names: &mut Vec<&'t [u8]>,
    f: &'t Expr,
    arguments: &'t Exprs,
) -> Result<(), AllocError>
    ensures { OnOk result (Added names.old.items names.new.items (names_in (expr_of f.now) ++ names_in_all (exprs_of arguments.now))) }
{
    add_expression(names, f)?;
    add_all(names, arguments)
}

// Those in the arguments of a call.
#[cycle(expressions)]
fn add_all<'t>(names: &mut Vec<&'t [u8]>, all: &'t Exprs) -> Result<(), AllocError>
    ensures { OnOk result (Added names.old.items names.new.items (names_in_all (exprs_of all.now))) }
{
    for e in &all.items {
        add_expression(names, e)?;
    }
    Ok(())
}

/// Those in an expression that may be missing.
pub fn add_maybe<'t>(names: &mut Vec<&'t [u8]>, e: &'t Option<Expr>) -> Result<(), AllocError>
    ensures { OnOk result (Added names.old.items names.new.items (maybe_names (maybe e.now))) }
{
    match e {
        Some(there) => add_expression(names, there),
        None => Ok(()),
    }
}
