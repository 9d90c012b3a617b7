// How expressions stand as first values.

ghost use Rattle.std.specs.Prelude.{◌≡◌, ℕ};
ghost use Rattle.c_syntax.specs.Plain as plain;
ghost use Rattle.c_syntax.specs.View.{expr_of};
ghost use Rattle.c_declared.specs.Figures.{figure_of, is_name};

use c_syntax::tree::{Expr, Form, UnOp};

/// How an expression stands as a first value.
#[derive(Clone, Copy)]
pub enum Figure {
    /// A string of so many bytes.
    Text(usize),
    /// `NULL`.
    Null,
    /// `&` of a name.
    AddressOfName,
    /// A name.
    Name,
    Other,
}

// Whether an expression is a name.
fn is_name(e: &Expr) -> bool
    ensures { result ≡ is_name (expr_of e.now) }
{
    matches!(e.form, Form::Name(_))
}

// How an operator stands as a first value, by its operand.
fn figure_of_unary(op: UnOp, of: &Expr) -> Figure
    ensures { (at : ℕ) → result ≡ figure_of (plain.Unary at op (expr_of of.now)) }
{
    match op {
        UnOp::Address => {
            if is_name(of) {
                Figure::AddressOfName
            } else {
                Figure::Other
            }
        }
        _ => Figure::Other,
    }
}

/// How an expression stands as a first value.
pub fn figure_of(e: &Expr) -> Figure
    ensures { result ≡ figure_of (expr_of e.now) }
{
    match &e.form {
        Form::Str(text) => Figure::Text(text.as_bytes().len()),
        Form::Null => Figure::Null,
        Form::Name(_) => Figure::Name,
        Form::Unary(op, of) => figure_of_unary(*op, of),
        _ => Figure::Other,
    }
}
