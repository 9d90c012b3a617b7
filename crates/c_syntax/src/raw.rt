//! The tokens of a text before its directives are read.

ghost use Rattle.std.specs.Prelude.{◌≡◌, ℕ, ◌≤◌, ◌^◌, List, length, IfErr};
ghost use Rattle.c_syntax.specs.Scan.{raw_of, raw_tokens, Gives};

use crate::scan::{Found, Gap, scan};
use crate::token::{LexFault, Raw};
use std::alloc::Global;

// The token of a piece.
fn raw_of(found: Found, pos: u32, gap: Gap) -> Result<Raw, LexFault>
    ensures { result ≡ raw_of found pos gap }
{
    match found {
        Found::Token(kind) => Ok(Raw {
            kind,
            pos,
            first: gap.first,
            close: gap.close,
        }),
        Found::BadChar => Err(LexFault::BadChar(pos)),
        Found::Unclosed => Err(LexFault::Unclosed(pos)),
    }
}

/// The tokens of a text, the end last, before neighbouring strings join, directives are read, and `NULL` and `EOF` are replaced.
///
/// A `#` is a token here, and so is a number above 16,777,215. The lowest refusal comes, at its place; the text has at most 2^29 bytes.
#[tactic(auto, unfolding(crate::specs::Scan::raw_tokens))]
pub fn lex_raw(alloc: Global, text: &[u8]) -> Result<Vec<Raw>, LexFault>
    requires { length text.now ≤ 2 ^ 29 }
    ensures { Gives (λ v. v.items) result (raw_tokens text.now) }
{
    let mut raws = Vec::new(alloc);
    let mut pieces = scan(alloc, text)?;
    while let Some(piece) = pieces.pop_front() {
        match raw_of(piece.found, piece.pos, piece.gap) {
            Ok(raw) => raws.push(raw)?,
            Err(fault) => return Err(fault),
        }
    }
    Ok(raws)
}
