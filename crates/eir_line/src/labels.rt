//! The labels at the front of a line.

ghost use Rattle.std.specs.Prelude.{◌≡◌, ℕ, List, length, IfOk, IfErr, map};
ghost use Rattle.eir_line.specs.Grammar.{label_at, labels_at};
ghost use Rattle.eir_line.specs.Reading.{Finds};

use crate::bytes::{name_at, past, past_blanks};
use crate::words::register_of;
use std::alloc::{AllocError, Global};

// The label at the front, and what follows its colon.
#[tactic(auto, unfolding(crate::specs::Grammar::label_at))]
fn label_at(bytes: &[u8]) -> Option<(&[u8], &[u8])>
    ensures { Finds (λ x. (x.0.now, x.1.now)) result (label_at bytes.now) }
{
    let (name, rest) = name_at(bytes)?;
    let rest = past(b':', rest)?;
    match register_of(name) {
        Some(_) => None,
        None => Some((name, rest)),
    }
}

// The labels of a line, and what follows them.
pub fn labels_of(alloc: Global, line: &[u8]) -> Result<(Vec<&[u8]>, &[u8]), AllocError>
    ensures { IfOk result (λ x. labels_at (length line.now) line.now ≡ (map (λ name. name.now) x.0.items, x.1.now)) }
{
    let mut labels = Vec::new(alloc);
    let mut rest = line;
    // Each label takes a byte at least.
    for _ in 0..line.len() {
        match label_at(past_blanks(rest)) {
            Some((name, after)) => {
                labels.push(name)?;
                rest = after;
            }
            None => return Ok((labels, rest)),
        }
    }
    Ok((labels, rest))
}
