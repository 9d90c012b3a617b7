//! What the places of a production want.

ghost use Rattle.std.specs.Prelude.{◌≡◌, ◌∷◌, [], slice_get};
ghost use Rattle.c_grammar.specs.Grammar.{HasRoom, rhs};
ghost use Rattle.c_progress.specs.Places.{wanted_at, first_terminal, first_part};

use c_grammar::names::{Part, Production, Symbol, Terminal};
use c_grammar::places::place;

/// The part that a place wants.
pub fn wanted(symbol: Symbol) -> Option<Part>
    ensures { result ≡ wanted_at symbol }
{
    match symbol {
        Symbol::Tok(_) => None,
        Symbol::One(part) => Some(part),
        Symbol::Many(part) => Some(part),
        Symbol::Maybe(part) => Some(part),
    }
}

/// The token that a production begins with.
pub fn first_terminal(production: Production) -> Option<Terminal>
    requires { HasRoom production }
    ensures { result ≡ first_terminal (rhs production) }
{
    match place(production, 0) {
        Some(symbol) => terminal(symbol),
        None => None,
    }
}

/// The part that a production begins with.
pub fn first_part(production: Production) -> Option<Part>
    requires { HasRoom production }
    ensures { result ≡ first_part (rhs production) }
{
    match place(production, 0) {
        Some(symbol) => part(symbol),
        None => None,
    }
}

fn terminal(symbol: Symbol) -> Option<Terminal>
    ensures { result ≡ first_terminal (symbol ∷ []) }
{
    match symbol {
        Symbol::Tok(terminal) => Some(terminal),
        _ => None,
    }
}

fn part(symbol: Symbol) -> Option<Part>
    ensures { result ≡ first_part (symbol ∷ []) }
{
    match symbol {
        Symbol::One(part) => Some(part),
        _ => None,
    }
}
