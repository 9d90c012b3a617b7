// Expressions that write nothing and call nothing.

ghost use Rattle.std.specs.Prelude.{◌≡◌, ◌&&◌};
ghost use Rattle.c_syntax.specs.View.{expr_of};
ghost use Rattle.c_lowered.specs.Locations as plain;

use c_syntax::tree::{Expr, Form};

/// Whether the evaluation of an expression writes nothing and calls nothing.
#[cycle(quiet)]
pub fn is_quiet(e: &Expr) -> bool
    ensures { result ≡ plain.is_quiet (expr_of e.now) }
{
    match &e.form {
        Form::Number(_value, _unsigned) => true,
        Form::Str(_text) => true,
        Form::Null => true,
        Form::Name(_name) => true,
        Form::Unary(_op, a) => is_quiet(a),
        Form::Step(_op, _a) => false,
        Form::Binary(_op, a, b) => both(a, b),
        Form::Assign(_op, _a, _b) => false,
        Form::Cond(a, b, c) => both(a, b) && is_quiet(c),
        Form::Comma(a, b) => both(a, b),
        Form::Cast(_t, a) => is_quiet(a),
        Form::SizeTy(_t) => true,
        Form::SizeOf(_a) => true,
        Form::Index(a, b) => both(a, b),
        Form::Call(_f, _es) => false,
        Form::Member(a, _m) => is_quiet(a),
        Form::Arrow(a, _m) => is_quiet(a),
    }
}

// Whether both of two are.
#[cycle(quiet)]
fn both(a: &Expr, b: &Expr) -> bool
    ensures { result ≡ (plain.is_quiet (expr_of a.now) && plain.is_quiet (expr_of b.now)) }
{
    is_quiet(a) && is_quiet(b)
}
