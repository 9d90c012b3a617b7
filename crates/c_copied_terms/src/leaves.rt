// Expressions that `c_terms` doesn't make.

ghost use Rattle.std.specs.Prelude.{◌≡◌, IfOk};
ghost use Rattle.c_syntax.specs.Plain as plain;
ghost use Rattle.c_syntax.specs.View.{expr_of, ty_of};

use c_syntax::text::Text;
use c_syntax::tree::{Expr, Form, Ty};
use std::alloc::{AllocError, Global};

/// A string.
pub fn string(alloc: Global, pos: u32, text: &Text) -> Result<Expr, AllocError>
    ensures { IfOk result (λ e. expr_of e ≡ plain.Str pos text.now) }
{
    let text = text.copied(alloc)?;
    Ok(Expr {
        pos,
        form: Form::Str(text),
    })
}

/// `NULL`.
pub fn null(pos: u32) -> Expr
    ensures { expr_of result ≡ plain.Null pos }
{
    Expr {
        pos,
        form: Form::Null,
    }
}

/// `sizeof` of a type.
pub fn size_type(alloc: Global, pos: u32, ty: Ty) -> Result<Expr, AllocError>
    ensures { IfOk result (λ e. expr_of e ≡ plain.SizeTy pos (ty_of ty)) }
{
    Ok(Expr {
        pos,
        form: Form::SizeTy(Box::new(alloc, ty)?),
    })
}

/// `sizeof` of an expression.
pub fn size_of(alloc: Global, pos: u32, a: Expr) -> Result<Expr, AllocError>
    ensures { IfOk result (λ e. expr_of e ≡ plain.SizeOf pos (expr_of a)) }
{
    Ok(Expr {
        pos,
        form: Form::SizeOf(Box::new(alloc, a)?),
    })
}
