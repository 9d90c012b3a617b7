// Statements from their parts, and parts that may be missing.

ghost use Rattle.std.specs.Prelude.{◌≡◌, map, option_map, IfOk, OnOk};
ghost use Rattle.c_syntax.specs.Plain as plain;
ghost use Rattle.c_syntax.specs.View.{expr_of, maybe, stmt_of, part_of};
ghost use Rattle.c_types.specs.Scope.{Scope};
ghost use Rattle.c_types.specs.Table.{known};
ghost use Rattle.c_types.specs.Known.{Grows};
ghost use Rattle.c_helpers.specs.Fewer as fewer;
ghost use Rattle.c_fewer_operators.specs.Here.{Stands, StandsSome};

use c_fewer_expressions::fewer;
use c_fewer_operators::Here;
use c_fewer_trees::constant_tree;
use c_syntax::tree::{Expr, Part, Parts, Stmt};
use c_types::Types;
use std::alloc::{AllocError, Global};

/// What stands behind the head of a `for`: the test, the step and the body.
#[derive(Drop)]
pub struct Turns {
    pub test: Option<Expr>,
    pub step: Option<Expr>,
    pub body: Stmt,
}

/// One of two statements.
pub fn choice(alloc: Global, e: Expr, s: Stmt, other: Stmt) -> Result<Stmt, AllocError>
    ensures { IfOk result (λ t. stmt_of t ≡ plain.IfElse (expr_of e) (stmt_of s) (stmt_of other)) }
{
    let s = Box::new(alloc, s)?;
    let other = Box::new(alloc, other)?;
    Ok(Stmt::If(e, s, Some(other)))
}

/// A statement, and again while a condition holds.
pub fn repeated(alloc: Global, s: Stmt, e: Expr) -> Result<Stmt, AllocError>
    ensures { IfOk result (λ t. stmt_of t ≡ plain.Do (stmt_of s) (expr_of e)) }
{
    let s = Box::new(alloc, s)?;
    Ok(Stmt::Do(s, e))
}

/// A `for` of a head and what stands behind it.
pub fn counted(alloc: Global, head: Stmt, turns: Turns) -> Result<Stmt, AllocError>
    ensures { IfOk result (λ t. stmt_of t ≡ plain.For (stmt_of head) (maybe turns.test) (maybe turns.step) (stmt_of turns.body)) }
{
    let head = Box::new(alloc, head)?;
    let body = Box::new(alloc, turns.body)?;
    Ok(Stmt::For(head, turns.test, turns.step, body))
}

/// A `switch` of these parts.
pub fn selection(e: Expr, items: Vec<Part>) -> Stmt
    ensures { stmt_of result ≡ plain.Switch (expr_of e) (plain.parts (map part_of items.items)) }
{
    Stmt::Switch(e, Parts { items })
}

/// An expression that may be missing.
pub fn maybe_fewer(
    types: &mut Types<'_>,
    here: &Here<'_>,
    e: &Option<Expr>,
) -> Result<Option<Expr>, AllocError>
    requires { StandsSome types.old here.now }
    ensures tree { (s : Scope) → Stands types.old here.now s → IfOk result (λ r. maybe r ≡ fewer.maybe_fewer s (maybe e.now)) }
    ensures grows { OnOk result (Grows (known types.old) (known types.new)) }
    ensures tags { OnOk result (types.new.tags ≡ types.old.tags) }
{
    match e {
        Some(there) => {
            let made = fewer(types, here, there)?;
            Ok(Some(made.tree))
        }
        None => Ok(None),
    }
}

/// A constant expression that may be missing, as a label has it.
pub fn maybe_constant(
    types: &mut Types<'_>,
    here: &Here<'_>,
    e: &Option<Expr>,
) -> Result<Option<Expr>, AllocError>
    requires { StandsSome types.old here.now }
    ensures tree { (s : Scope) → Stands types.old here.now s → IfOk result (λ r. maybe r ≡ option_map (fewer.constant_tree s) (maybe e.now)) }
    ensures grows { OnOk result (Grows (known types.old) (known types.new)) }
    ensures tags { OnOk result (types.new.tags ≡ types.old.tags) }
{
    match e {
        Some(there) => {
            let made = constant_tree(types, here, there)?;
            Ok(Some(made.tree))
        }
        None => Ok(None),
    }
}
