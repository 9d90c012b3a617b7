// Names and strings.

ghost use Rattle.std.specs.Prelude.{◌≡◌, option_map};
ghost use Rattle.c_syntax.specs.View.{expr_of, exprs_of};
ghost use Rattle.c_types.specs.Scope.{Scope};
ghost use Rattle.c_types.specs.Expressions as plain;
ghost use Rattle.c_types.specs.Expressions.{format_of};
ghost use Rattle.c_operands.specs.Scoped.{Fits};
ghost use Rattle.c_expressions.specs.Named.{name_in, string_in};

use c_operands::{Declarations, names_function};
use c_syntax::tree::{Expr, Exprs, Form};
use c_types::Types;

/// The name that an expression is, if it is one.
pub fn name_in(e: &Expr) -> Option<&[u8]>
    ensures { option_map (λ n. n.now) result ≡ name_in (expr_of e.now) }
{
    match &e.form {
        Form::Name(name) => Some(name.as_bytes()),
        _ => None,
    }
}

// The string that an expression is, if it is one.
fn string_in(e: &Expr) -> Option<&[u8]>
    ensures { option_map (λ n. n.now) result ≡ string_in (expr_of e.now) }
{
    match &e.form {
        Form::Str(text) => Some(text.as_bytes()),
        _ => None,
    }
}

/// The format of a call: the string that is its first argument, if it is one.
pub fn format_of(arguments: &Exprs) -> Option<&[u8]>
    ensures { option_map (λ n. n.now) result ≡ format_of (exprs_of arguments.now) }
{
    match arguments.items.first() {
        Some(first) => string_in(first),
        None => None,
    }
}

/// Whether an expression is the name of a function.
pub fn is_function_name(types: &Types<'_>, declared: &Declarations<'_>, e: &Expr) -> bool
    ensures { (s : Scope) → Fits types.now declared.now s → result ≡ plain.names_function s (expr_of e.now) }
{
    match name_in(e) {
        Some(name) => names_function(types, declared, name),
        None => false,
    }
}
