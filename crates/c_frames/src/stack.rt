//! The productions that are open, the innermost last.

ghost use Rattle.std.specs.Prelude.{◌≡◌, ◌+◌, ◌∷◌, [], length, IfOk, MatchOption, List};
ghost use Rattle.c_grammar.specs.Grammar.{HasRoom};
ghost use Rattle.c_grammar.specs.Values as machine;
ghost use Rattle.c_grammar.specs.Values.{Open};
ghost use Rattle.c_nesting.specs.Nested.{context_of};
ghost use Rattle.c_frames.specs.Stack.{IsSound, AreSound, StandsOn, Stands, opens, open_of};

use crate::frame::{Frame, at_next};
use c_grammar::names::Production;
use c_nesting::counts::{Counted, sum};
use std::alloc::{AllocError, Global};
use std::collections::VecDeque;

// What is counted before what comes next within a production.
fn counted_within(frame: &Frame) -> Result<Counted, AllocError>
    ensures { IfOk result (λ c. (s : List Open) → IsSound frame.now s → context_of c ≡ machine.context_of (open_of frame.now ∷ s)) }
{
    let at = at_next(frame)?;
    let declarator = sum(at.declarator, frame.row_stars)?;
    Ok(Counted {
        rest: at.rest,
        declarator,
        cast: at.cast,
    })
}

// What is counted before what comes next on a stack.
fn counted_in(stack: &[Frame]) -> Result<Counted, AllocError>
    requires { AreSound stack.now [] }
    ensures { IfOk result (λ c. context_of c ≡ machine.context_of (opens stack.now [])) }
{
    match stack.last() {
        Some(frame) => counted_within(frame),
        None => Ok(Counted {
            rest: 0,
            declarator: 0,
            cast: true,
        }),
    }
}

/// A production that is open above a stack, with no part.
pub fn opened(alloc: Global, production: Production, stack: &[Frame]) -> Result<Frame, AllocError>
    requires room { HasRoom production }
    requires sound { AreSound stack.now [] }
    ensures production { IfOk result (λ f. f.production ≡ production) }
    ensures done { IfOk result (λ f. f.done.items ≡ []) }
    ensures row { IfOk result (λ f. f.row.items ≡ []) }
    ensures stands { IfOk result (λ f. StandsOn f stack.now) }
{
    let so_far = counted_in(stack)?;
    Ok(Frame {
        production,
        done: Vec::new(alloc),
        row: VecDeque::new(alloc),
        row_stars: 0,
        so_far,
    })
}

/// Puts a production on top.
pub fn push(stack: &mut Vec<Frame>, frame: Frame) -> Result<(), AllocError>
    requires { StandsOn frame stack.old.items }
    ensures { IfOk result (λ _. Stands stack.new.items (open_of frame ∷ opens stack.old.items [])) }
{
    stack.push(frame)?;
    Ok(())
}

/// Takes the production on top; none: no production is open.
pub fn pop(stack: &mut Vec<Frame>) -> Option<Frame>
    requires { AreSound stack.old.items [] }
    ensures top { MatchOption result (opens stack.old.items [] ≡ []) (λ f. opens stack.old.items [] ≡ open_of f ∷ opens stack.new.items []) }
    ensures stands { MatchOption result (AreSound stack.new.items []) (λ f. StandsOn f stack.new.items) }
    ensures len { MatchOption result (length stack.new.items ≡ 0) (λ _. length stack.new.items + 1 ≡ length stack.old.items) }
{
    stack.pop()
}
