// Names that helper functions alone call.

ghost use Rattle.std.specs.Prelude.{◌≡◌};
ghost use Rattle.std.specs.Str.{bytes_eq};
ghost use Rattle.c_syntax.specs.View.{expr_of};
ghost use Rattle.c_lowered.specs.Counts;

use c_syntax::tree::{Expr, Form};

/// Whether a name is this word.
pub fn is_word(name: &[u8], word: &[u8]) -> bool
    ensures { result ≡ bytes_eq name.now word.now }
{
    name == word
}

/// Whether a name is one of those for which helper functions alone have calls.
pub fn is_known_to_helpers(name: &[u8]) -> bool
    ensures { result ≡ Counts.is_known_to_helpers name.now }
{
    is_word(name, b"unit of fuel")
        || is_word(name, b"second fuel")
        || is_word(name, b"piece of text")
}

/// Whether an expression is such a name.
pub fn names_known(f: &Expr) -> bool
    ensures { result ≡ Counts.names_known (expr_of f.now) }
{
    match &f.form {
        Form::Name(name) => is_known_to_helpers(name.as_bytes()),
        _ => false,
    }
}
