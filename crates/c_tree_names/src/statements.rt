// The names in statements.

ghost use Rattle.std.specs.Prelude.{◌++◌, OnOk};
ghost use Rattle.c_syntax.specs.View.{expr_of, maybe, stmt_of, part_of};
ghost use Rattle.c_helpers.specs.Names.{names_in, maybe_names, stmt_names, stmts_names, part_names, parts_names};
ghost use Rattle.c_tree_names.specs.Added.{Added};
ghost use Rattle.c_tree_names.specs.Rows.{stmts_of, parts_of};

use crate::expressions::{add_expression, add_maybe};
use crate::values::add_first;
use c_syntax::tree::{Expr, Part, Parts, Stmt, Stmts};
use std::alloc::AllocError;

/// The names in a statement, behind others.
#[cycle(statements)]
pub fn add_statement<'t>(names: &mut Vec<&'t [u8]>, statement: &'t Stmt) -> Result<(), AllocError>
    ensures { OnOk result (Added names.old.items names.new.items (stmt_names (stmt_of statement.now))) }
{
    match statement {
        Stmt::Block(all) => add_statements(names, all),
        Stmt::Local(d) => add_first(names, &d.first),
        Stmt::Expr(e) => add_expression(names, e),
        Stmt::Empty => Ok(()),
        Stmt::If(e, t, other) => match other {
            None => add_one(names, e, t),
            Some(u) => add_both(names, e, t, u),
        },
        Stmt::While(e, t) => add_one(names, e, t),
        Stmt::Do(t, e) => add_do(names, t, e),
        Stmt::For(first, test, step, t) => add_for(names, first, test, step, t),
        Stmt::Return(_at, e) => add_maybe(names, e),
        Stmt::Break(_at) => Ok(()),
        Stmt::Continue(_at) => Ok(()),
        Stmt::Switch(e, parts) => add_switch(names, e, parts),
    }
}

// Those in statements one after the other.
#[cycle(statements)]
fn add_statements<'t>(names: &mut Vec<&'t [u8]>, all: &'t Stmts) -> Result<(), AllocError>
    ensures { OnOk result (Added names.old.items names.new.items (stmts_names (stmts_of all.now))) }
{
    for statement in &all.items {
        add_statement(names, statement)?;
    }
    Ok(())
}

// Those in an expression and in the statement behind it.
#[cycle(statements)]
fn add_one<'t>(names: &mut Vec<&'t [u8]>, e: &'t Expr, t: &'t Stmt) -> Result<(), AllocError>
    ensures { OnOk result (Added names.old.items names.new.items (names_in (expr_of e.now) ++ stmt_names (stmt_of t.now))) }
{
    add_expression(names, e)?;
    add_statement(names, t)
}

// Those in an expression and in the two statements behind it.
#[cycle(statements)]
fn add_both<'t>(
    names: &mut Vec<&'t [u8]>,
    e: &'t Expr,
    t: &'t Stmt,
    u: &'t Stmt,
) -> Result<(), AllocError>
    ensures { OnOk result (Added names.old.items names.new.items (names_in (expr_of e.now) ++ (stmt_names (stmt_of t.now) ++ stmt_names (stmt_of u.now)))) }
{
    add_expression(names, e)?;
    add_pair(names, t, u)
}

// Those in two statements.
#[cycle(statements)]
fn add_pair<'t>(names: &mut Vec<&'t [u8]>, t: &'t Stmt, u: &'t Stmt) -> Result<(), AllocError>
    ensures { OnOk result (Added names.old.items names.new.items (stmt_names (stmt_of t.now) ++ stmt_names (stmt_of u.now))) }
{
    add_statement(names, t)?;
    add_statement(names, u)
}

// Those in a statement and in the expression behind it.
#[cycle(statements)]
fn add_do<'t>(names: &mut Vec<&'t [u8]>, t: &'t Stmt, e: &'t Expr) -> Result<(), AllocError>
    ensures { OnOk result (Added names.old.items names.new.items (stmt_names (stmt_of t.now) ++ names_in (expr_of e.now))) }
{
    add_statement(names, t)?;
    add_expression(names, e)
}

// Those in a `for`.
#[cycle(statements)]
fn add_for<'t>(
    names: &mut Vec<&'t [u8]>,
    first: &'t Stmt,
    test: &'t Option<Expr>,
    step: &'t Option<Expr>,
    t: &'t Stmt,
) -> Result<(), AllocError>
    ensures { OnOk result (Added names.old.items names.new.items (stmt_names (stmt_of first.now) ++ (maybe_names (maybe test.now) ++ (maybe_names (maybe step.now) ++ stmt_names (stmt_of t.now))))) }
{
    add_statement(names, first)?;
    add_rest(names, test, step, t)
}

// Those in a `for` behind its head.
#[cycle(statements)]
fn add_rest<'t>(
    names: &mut Vec<&'t [u8]>,
    test: &'t Option<Expr>,
    step: &'t Option<Expr>,
    t: &'t Stmt,
) -> Result<(), AllocError>
    ensures { OnOk result (Added names.old.items names.new.items (maybe_names (maybe test.now) ++ (maybe_names (maybe step.now) ++ stmt_names (stmt_of t.now)))) }
{
    add_maybe(names, test)?;
    add_turn(names, step, t)
}

// Those in a step and in the statement before it.
#[cycle(statements)]
fn add_turn<'t>(
    names: &mut Vec<&'t [u8]>,
    step: &'t Option<Expr>,
    t: &'t Stmt,
) -> Result<(), AllocError>
    ensures { OnOk result (Added names.old.items names.new.items (maybe_names (maybe step.now) ++ stmt_names (stmt_of t.now))) }
{
    add_maybe(names, step)?;
    add_statement(names, t)
}

// Those in a `switch`.
#[cycle(statements)]
fn add_switch<'t>(
    names: &mut Vec<&'t [u8]>,
    e: &'t Expr,
    parts: &'t Parts,
) -> Result<(), AllocError>
    ensures { OnOk result (Added names.old.items names.new.items (names_in (expr_of e.now) ++ parts_names (parts_of parts.now))) }
{
    add_expression(names, e)?;
    add_parts(names, parts)
}

// Those in the parts of a `switch`.
#[cycle(statements)]
fn add_parts<'t>(names: &mut Vec<&'t [u8]>, all: &'t Parts) -> Result<(), AllocError>
    ensures { OnOk result (Added names.old.items names.new.items (parts_names (parts_of all.now))) }
{
    for part in &all.items {
        add_part(names, part)?;
    }
    Ok(())
}

// Those in a part; what a label has isn't evaluated.
#[cycle(statements)]
fn add_part<'t>(names: &mut Vec<&'t [u8]>, part: &'t Part) -> Result<(), AllocError>
    ensures { OnOk result (Added names.old.items names.new.items (part_names (part_of part.now))) }
{
    match part {
        Part::Label(_at, _e) => Ok(()),
        Part::Item(statement) => add_statement(names, statement),
    }
}
