// The string literals of statements.

ghost use Rattle.std.specs.Prelude.{◌++◌, [], false, OnOk};
ghost use Rattle.c_syntax.specs.Plain as tree;
ghost use Rattle.c_syntax.specs.View.{expr_of, maybe, decl_of, stmt_of, part_of};
ghost use Rattle.c_types.specs.Scope.{entered};
ghost use Rattle.c_types.specs.Declarations as plain;
ghost use Rattle.c_types.specs.Declarations.{scope_or};
ghost use Rattle.c_types.specs.Census.{scope_behind, scope_behind_all, scope_behind_part};
ghost use Rattle.c_declared.specs.Held.{HoldsSome};
ghost use Rattle.c_census.specs.Sums.{stmts_of, parts_of, parts_behind};
ghost use Rattle.c_eval.specs.LiteralsIn.{literals_in, maybe_literals, stmt_literals, stmts_literals, part_literals, parts_literals};
ghost use Rattle.c_lower_literals.specs.Gathered as gathered;
ghost use Rattle.c_lower_literals.specs.Gathered.{Gathers};

use crate::expressions::{expression_literals, maybe_literals};
use crate::locals::{forgotten_literals, local_literals};
use c_census::forget;
use c_operands::Declarations;
use c_signatures::{begin_block, end_block};
use c_syntax::tree::{Decl, Expr, Part, Parts, Stmt, Stmts};
use c_types::Types;
use std::alloc::AllocError;

/// The texts of a statement's string literals, behind others.
#[cycle(statements)]
pub fn statement_literals<'t>(
    types: &mut Types<'_>,
    declared: &mut Declarations<'t>,
    statement: &'t Stmt,
    texts: &mut Vec<&'t [u8]>,
) -> Result<(), AllocError>
    requires { HoldsSome types.old declared.old }
    ensures { OnOk result (Gathers types.old types.new declared.old declared.new texts.old.items texts.new.items (λ s. stmt_literals s (stmt_of statement.now)) (λ s. scope_behind s (stmt_of statement.now))) }
{
    match statement {
        Stmt::Block(all) => block_literals(types, declared, all, texts),
        Stmt::Local(d) => {
            let _refusal = local_literals(types, declared, d, texts)?;
            Ok(())
        }
        Stmt::Expr(e) => expression_literals(declared, e, texts),
        Stmt::Empty => Ok(()),
        Stmt::If(e, t, other) => match other {
            None => guarded_literals(types, declared, e, t, texts),
            Some(u) => choice_literals(types, declared, e, t, u, texts),
        },
        Stmt::While(e, t) => guarded_literals(types, declared, e, t, texts),
        Stmt::Do(t, e) => do_literals(types, declared, t, e, texts),
        Stmt::For(first, test, step, t) => {
            for_literals(types, declared, first, test, step, t, texts)
        }
        Stmt::Return(_at, e) => maybe_literals(declared, e, texts),
        Stmt::Break(_at) => Ok(()),
        Stmt::Continue(_at) => Ok(()),
        Stmt::Switch(e, parts) => switch_literals(types, declared, e, parts, texts),
    }
}

// Those of a statement whose names aren't in scope behind it.
#[cycle(statements)]
fn body_literals<'t>(
    types: &mut Types<'_>,
    declared: &mut Declarations<'t>,
    statement: &'t Stmt,
    texts: &mut Vec<&'t [u8]>,
) -> Result<(), AllocError>
    requires { HoldsSome types.old declared.old }
    ensures { OnOk result (Gathers types.old types.new declared.old declared.new texts.old.items texts.new.items (λ s. stmt_literals s (stmt_of statement.now)) (λ s. s)) }
{
    match statement {
        Stmt::Local(d) => forgotten_literals(types, declared, d, texts),
        _ => statement_literals(types, declared, statement, texts),
    }
}

// Those of a block.
#[cycle(statements)]
fn block_literals<'t>(
    types: &mut Types<'_>,
    declared: &mut Declarations<'t>,
    all: &'t Stmts,
    texts: &mut Vec<&'t [u8]>,
) -> Result<(), AllocError>
    requires { HoldsSome types.old declared.old }
    ensures { OnOk result (Gathers types.old types.new declared.old declared.new texts.old.items texts.new.items (λ s. stmts_literals (entered s) (stmts_of all.now)) (λ s. s)) }
{
    let mark = begin_block(declared);
    list_literals(types, declared, all, texts)?;
    end_block(declared, mark)
}

/// The texts of the string literals of statements, one after the other, behind others.
#[cycle(statements)]
pub fn list_literals<'t>(
    types: &mut Types<'_>,
    declared: &mut Declarations<'t>,
    all: &'t Stmts,
    texts: &mut Vec<&'t [u8]>,
) -> Result<(), AllocError>
    requires { HoldsSome types.old declared.old }
    ensures { OnOk result (Gathers types.old types.new declared.old declared.new texts.old.items texts.new.items (λ s. stmts_literals s (stmts_of all.now)) (λ s. scope_behind_all s (stmts_of all.now))) }
{
    for statement in &all.items {
        statement_literals(types, declared, statement, texts)?;
    }
    Ok(())
}

// Those of an expression, and of a body behind it.
#[cycle(statements)]
fn guarded_literals<'t>(
    types: &mut Types<'_>,
    declared: &mut Declarations<'t>,
    e: &'t Expr,
    body: &'t Stmt,
    texts: &mut Vec<&'t [u8]>,
) -> Result<(), AllocError>
    requires { HoldsSome types.old declared.old }
    ensures { OnOk result (Gathers types.old types.new declared.old declared.new texts.old.items texts.new.items (λ s. literals_in s (expr_of e.now) ++ stmt_literals s (stmt_of body.now)) (λ s. s)) }
{
    expression_literals(declared, e, texts)?;
    body_literals(types, declared, body, texts)
}

// Those of an expression, and of two bodies behind it.
#[cycle(statements)]
fn choice_literals<'t>(
    types: &mut Types<'_>,
    declared: &mut Declarations<'t>,
    e: &'t Expr,
    body: &'t Stmt,
    other: &'t Stmt,
    texts: &mut Vec<&'t [u8]>,
) -> Result<(), AllocError>
    requires { HoldsSome types.old declared.old }
    ensures { OnOk result (Gathers types.old types.new declared.old declared.new texts.old.items texts.new.items (λ s. literals_in s (expr_of e.now) ++ (stmt_literals s (stmt_of body.now) ++ stmt_literals s (stmt_of other.now))) (λ s. s)) }
{
    guarded_literals(types, declared, e, body, texts)?;
    body_literals(types, declared, other, texts)
}

// Those of a body, and of an expression behind it.
#[cycle(statements)]
fn do_literals<'t>(
    types: &mut Types<'_>,
    declared: &mut Declarations<'t>,
    body: &'t Stmt,
    e: &'t Expr,
    texts: &mut Vec<&'t [u8]>,
) -> Result<(), AllocError>
    requires { HoldsSome types.old declared.old }
    ensures { OnOk result (Gathers types.old types.new declared.old declared.new texts.old.items texts.new.items (λ s. stmt_literals s (stmt_of body.now) ++ literals_in s (expr_of e.now)) (λ s. s)) }
{
    body_literals(types, declared, body, texts)?;
    expression_literals(declared, e, texts)
}

// Those of what stands behind the head of a `for`: its test, its step and its body.
#[cycle(statements)]
fn rest_literals<'t>(
    types: &mut Types<'_>,
    declared: &mut Declarations<'t>,
    test: &'t Option<Expr>,
    step: &'t Option<Expr>,
    body: &'t Stmt,
    texts: &mut Vec<&'t [u8]>,
) -> Result<(), AllocError>
    requires { HoldsSome types.old declared.old }
    ensures { OnOk result (Gathers types.old types.new declared.old declared.new texts.old.items texts.new.items (λ s. maybe_literals s (maybe test.now) ++ (maybe_literals s (maybe step.now) ++ stmt_literals s (stmt_of body.now))) (λ s. s)) }
{
    maybe_literals(declared, test, texts)?;
    maybe_literals(declared, step, texts)?;
    body_literals(types, declared, body, texts)
}

// Those of a `for` whose head is a block: its declarations are in scope in the whole `for`.
#[cycle(statements)]
fn for_block_literals<'t>(
    types: &mut Types<'_>,
    declared: &mut Declarations<'t>,
    head: &'t Stmts,
    test: &'t Option<Expr>,
    step: &'t Option<Expr>,
    body: &'t Stmt,
    texts: &mut Vec<&'t [u8]>,
) -> Result<(), AllocError>
    requires { HoldsSome types.old declared.old }
    ensures { OnOk result (Gathers types.old types.new declared.old declared.new texts.old.items texts.new.items (λ s. stmts_literals (entered s) (stmts_of head.now) ++ (maybe_literals (scope_behind_all (entered s) (stmts_of head.now)) (maybe test.now) ++ (maybe_literals (scope_behind_all (entered s) (stmts_of head.now)) (maybe step.now) ++ stmt_literals (scope_behind_all (entered s) (stmts_of head.now)) (stmt_of body.now)))) (λ s. s)) }
{
    let mark = begin_block(declared);
    list_literals(types, declared, head, texts)?;
    rest_literals(types, declared, test, step, body, texts)?;
    end_block(declared, mark)
}

// Those of a `for` whose head is a declaration.
#[cycle(statements)]
fn for_local_literals<'t>(
    types: &mut Types<'_>,
    declared: &mut Declarations<'t>,
    head: &'t Decl,
    test: &'t Option<Expr>,
    step: &'t Option<Expr>,
    body: &'t Stmt,
    texts: &mut Vec<&'t [u8]>,
) -> Result<(), AllocError>
    requires { HoldsSome types.old declared.old }
    ensures { OnOk result (Gathers types.old types.new declared.old declared.new texts.old.items texts.new.items (λ s. gathered.local_literals s (decl_of head.now) ++ (maybe_literals (scope_or s (plain.declared s false (decl_of head.now))) (maybe test.now) ++ (maybe_literals (scope_or s (plain.declared s false (decl_of head.now))) (maybe step.now) ++ stmt_literals (scope_or s (plain.declared s false (decl_of head.now))) (stmt_of body.now)))) (λ s. s)) }
{
    let refusal = local_literals(types, declared, head, texts)?;
    rest_literals(types, declared, test, step, body, texts)?;
    forget(types, declared, refusal)
}

// Those of a `for`.
#[cycle(statements)]
fn for_literals<'t>(
    types: &mut Types<'_>,
    declared: &mut Declarations<'t>,
    head: &'t Stmt,
    test: &'t Option<Expr>,
    step: &'t Option<Expr>,
    body: &'t Stmt,
    texts: &mut Vec<&'t [u8]>,
) -> Result<(), AllocError>
    requires { HoldsSome types.old declared.old }
    ensures { OnOk result (Gathers types.old types.new declared.old declared.new texts.old.items texts.new.items (λ s. stmt_literals s (tree.For (stmt_of head.now) (maybe test.now) (maybe step.now) (stmt_of body.now))) (λ s. s)) }
{
    match head {
        Stmt::Block(all) => for_block_literals(types, declared, all, test, step, body, texts),
        Stmt::Local(d) => for_local_literals(types, declared, d, test, step, body, texts),
        _ => {
            statement_literals(types, declared, head, texts)?;
            rest_literals(types, declared, test, step, body, texts)
        }
    }
}

// Those of a `switch`.
#[cycle(statements)]
fn switch_literals<'t>(
    types: &mut Types<'_>,
    declared: &mut Declarations<'t>,
    e: &'t Expr,
    parts: &'t Parts,
    texts: &mut Vec<&'t [u8]>,
) -> Result<(), AllocError>
    requires { HoldsSome types.old declared.old }
    ensures { OnOk result (Gathers types.old types.new declared.old declared.new texts.old.items texts.new.items (λ s. literals_in s (expr_of e.now) ++ parts_literals (entered s) (parts_of parts.now)) (λ s. s)) }
{
    expression_literals(declared, e, texts)?;
    let mark = begin_block(declared);
    parts_literals(types, declared, parts, texts)?;
    end_block(declared, mark)
}

// Those of the parts of a `switch`.
#[cycle(statements)]
fn parts_literals<'t>(
    types: &mut Types<'_>,
    declared: &mut Declarations<'t>,
    all: &'t Parts,
    texts: &mut Vec<&'t [u8]>,
) -> Result<(), AllocError>
    requires { HoldsSome types.old declared.old }
    ensures { OnOk result (Gathers types.old types.new declared.old declared.new texts.old.items texts.new.items (λ s. parts_literals s (parts_of all.now)) (λ s. parts_behind s (parts_of all.now))) }
{
    for part in &all.items {
        part_literals(types, declared, part, texts)?;
    }
    Ok(())
}

// Those of a part of a `switch`: a label isn't evaluated.
#[cycle(statements)]
fn part_literals<'t>(
    types: &mut Types<'_>,
    declared: &mut Declarations<'t>,
    part: &'t Part,
    texts: &mut Vec<&'t [u8]>,
) -> Result<(), AllocError>
    requires { HoldsSome types.old declared.old }
    ensures { OnOk result (Gathers types.old types.new declared.old declared.new texts.old.items texts.new.items (λ s. part_literals s (part_of part.now)) (λ s. scope_behind_part s (part_of part.now))) }
{
    match part {
        Part::Label(_at, _e) => Ok(()),
        Part::Item(statement) => statement_literals(types, declared, statement, texts),
    }
}
