// Statements from their parts.

ghost use Rattle.std.specs.Prelude.{◌≡◌, map, None, IfOk};
ghost use Rattle.c_syntax.specs.Plain as plain;
ghost use Rattle.c_syntax.specs.Plain.{stmts};
ghost use Rattle.c_syntax.specs.View.{expr_of, ty_of, stmt_of, maybe_value};

use crate::expressions::{assign, variable};
use c_syntax::text::Text;
use c_syntax::tree::{Decl, Expr, Stmt, Stmts, Ty, Value};
use std::alloc::{AllocError, Global};

/// A block of statements.
pub fn block(items: Vec<Stmt>) -> Stmt
    ensures { stmt_of result ≡ plain.Block (stmts (map stmt_of items.items)) }
{
    Stmt::Block(Stmts { items })
}

/// A local of a type and a name, which stands at no place, perhaps with a first value.
pub fn local(alloc: Global, ty: Ty, name: &[u8], first: Option<Value>) -> Result<Stmt, AllocError>
    ensures { IfOk result (λ s. stmt_of s ≡ plain.Local (record { name = name.now; pos = 0; ty = ty_of ty; first = maybe_value first })) }
{
    let name = Text::from_bytes(Vec::from_slice(alloc, name)?);
    Ok(Stmt::Local(Decl {
        name,
        pos: 0,
        ty,
        first,
    }))
}

/// A name becomes a value, at no place.
pub fn set(alloc: Global, name: &[u8], e: Expr) -> Result<Stmt, AllocError>
    ensures { IfOk result (λ s. stmt_of s ≡ plain.Do_expr (plain.Assign 0 None (plain.Var 0 name.now) (expr_of e))) }
{
    let place = variable(alloc, 0, name)?;
    Ok(Stmt::Expr(assign(alloc, 0, None, place, e)?))
}

/// A statement where a condition holds.
pub fn when(alloc: Global, e: Expr, s: Stmt) -> Result<Stmt, AllocError>
    ensures { IfOk result (λ t. stmt_of t ≡ plain.If (expr_of e) (stmt_of s)) }
{
    let s = Box::new(alloc, s)?;
    Ok(Stmt::If(e, s, None))
}

/// A statement again and again, while a condition holds.
pub fn looped(alloc: Global, e: Expr, s: Stmt) -> Result<Stmt, AllocError>
    ensures { IfOk result (λ t. stmt_of t ≡ plain.While (expr_of e) (stmt_of s)) }
{
    let s = Box::new(alloc, s)?;
    Ok(Stmt::While(e, s))
}
