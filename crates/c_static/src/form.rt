// The forms of first values at file scope.

ghost use Rattle.std.specs.Prelude.{◌≡◌, ℕ};
ghost use Rattle.c_syntax.specs.Plain as plain;
ghost use Rattle.c_syntax.specs.declared.tree.UnOp.TheVariants as unary;
ghost use Rattle.c_syntax.specs.View.{expr_of};
ghost use Rattle.c_static.specs.Forms.{static_form, plain_form};

use c_syntax::tree::{Expr, Form, UnOp};

/// What a first value at file scope is: a string, `NULL`, a name or its address, or else a constant expression.
#[derive(Clone, Copy)]
pub enum StaticForm<'t> {
    Text(&'t [u8]),
    Null,
    Name(&'t [u8]),
    Constant,
}

// The form of a name, if an expression is one.
fn form_of_name<'t>(e: &'t Expr) -> StaticForm<'t>
    ensures { (at : ℕ) → plain_form result ≡ static_form (plain.Unary at unary.Address (expr_of e.now)) }
{
    match &e.form {
        Form::Name(name) => StaticForm::Name(name.as_bytes()),
        _ => StaticForm::Constant,
    }
}

// The form of an operator with its operand: the address of a name is one.
fn form_of_unary<'t>(op: UnOp, of: &'t Expr) -> StaticForm<'t>
    ensures { (at : ℕ) → plain_form result ≡ static_form (plain.Unary at op (expr_of of.now)) }
{
    match op {
        UnOp::Address => form_of_name(of),
        _ => StaticForm::Constant,
    }
}

/// The form of an expression as a first value at file scope.
pub fn static_form<'t>(e: &'t Expr) -> StaticForm<'t>
    ensures { plain_form result ≡ static_form (expr_of e.now) }
{
    match &e.form {
        Form::Str(text) => StaticForm::Text(text.as_bytes()),
        Form::Null => StaticForm::Null,
        Form::Name(name) => StaticForm::Name(name.as_bytes()),
        Form::Unary(op, of) => form_of_unary(*op, of),
        _ => StaticForm::Constant,
    }
}
