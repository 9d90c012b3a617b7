//! The tokens of a text.

ghost use Rattle.std.specs.Prelude.{◌≡◌, ◌≤◌, ◌^◌, length};
ghost use Rattle.c_prep.specs.Prepared.{prepared, refusal_of};
ghost use Rattle.c_prep.specs.Outcome.{Answers};

use crate::fault::PrepFault;
use crate::lines::read_lines;
use c_syntax::{LexFault, Token, lex_raw};
use std::alloc::Global;

// The refusal of a text that has no tokens.
fn refusal_of(fault: LexFault) -> PrepFault
    ensures { result ≡ refusal_of fault }
{
    match fault {
        LexFault::BadChar(pos) => PrepFault::BadChar(pos),
        LexFault::Unclosed(pos) => PrepFault::Unclosed(pos),
        LexFault::NumberRange(pos) => PrepFault::NumberRange(pos),
        LexFault::Memory => PrepFault::Memory,
    }
}

/// The tokens of a text when its directives are obeyed and its macros expanded, the end last; the text has at most 2^29 bytes.
///
/// `#define` and `#undef` keep and drop macros without parameters, `#ifdef`, `#ifndef`, `#else` and `#endif` choose parts, and `#include`
/// takes the three headers that `lex` takes. A token that a macro stands for has the place of the name in the text. The refusal is the lowest
/// BadChar or Unclosed of the text's bytes, else that of the first line that has one, else the first conditional that is left open, else
/// TooLarge, else that of the first number that is too large or `#` that stays.
#[tactic(auto, unfolding(crate::specs::Prepared::prepared))]
pub fn prepare(alloc: Global, text: &[u8]) -> Result<Vec<Token>, PrepFault>
    requires { length text.now ≤ 2 ^ 29 }
    ensures { Answers (λ v. v.items) result (prepared text.now) }
{
    let raws = match lex_raw(alloc, text) {
        Ok(raws) => raws,
        Err(fault) => return Err(refusal_of(fault)),
    };
    let out = read_lines(alloc, raws.as_slice())?;
    out.into_tokens()
}
