//! Reading token by token, with the productions that are open on a stack: an `Err` is want of memory.

ghost use Rattle.std.specs.Prelude.{◌≡◌, ◌≤◌, ◌∷◌, [], suc, IfOk, List, length};
ghost use Rattle.c_grammar.specs.Class.{class_of};
ghost use Rattle.c_grammar.specs.Grammar.{HasRoom, rhs};
ghost use Rattle.c_grammar.specs.Values as machine;
ghost use Rattle.c_grammar.specs.Values.{Open};
ghost use Rattle.c_grammar.specs.declared.names.Production.{Production as AProduction};
ghost use Rattle.c_grammar.specs.declared.names.Symbol.TheVariants as is;
ghost use Rattle.c_held.specs.View.{made_of, values_of};
ghost use Rattle.c_frames.specs.Stack.{AreSound, StandsOn, StandsNext, opens, open_of};
ghost use Rattle.c_frames.specs.declared.frame.Frame.{Frame as AFrame};
ghost use Rattle.c_progress.specs.Places.{TakesRow};
ghost use Rattle.c_progress.specs.Progress.{Reads, Comes, IsFit, IsGoing, IsWhole, Meets, given, left_over, placed_at, put};

use c_act::made;
use c_frames::frame::{Frame, next_place, with_next, with_part, with_row, without_row};
use c_frames::stack::{opened, pop, push};
use c_grammar::categories::{accepts, announced};
use c_grammar::names::{Class, Part, Production, Symbol};
use c_grammar::tables::{class_of, opening};
use c_held::value::Made;
use c_progress::begin::{begin, enter_within};
use c_progress::places::{first_part, wanted};
use c_progress::progress::{Progress, unfinished};
use c_syntax::Token;
use std::alloc::{AllocError, Global};

/// Begins a production with a part that was read.
fn wrap(
    alloc: Global,
    production: Production,
    part: Made,
    class: Class,
    token: &Token,
    stack: &mut Vec<Frame>,
) -> Result<Progress, AllocError>
    requires class { class ≡ class_of token.now }
    requires room { HasRoom production }
    requires fit { IsFit part }
    requires sound { AreSound stack.old.items [] }
    ensures { IfOk result (λ r. (p : AProduction) (old : List AFrame) → Comes r p old stack.new.items (machine.wraps (rhs production) production part.facts.category (made_of part) token.now (opens stack.old.items []))) }
{
    let Some(wanted) = first_part(production) else {
        return Ok(Progress::Stuck);
    };
    if !accepts(part.facts.category, wanted) {
        return Ok(Progress::Stuck);
    }
    let frame = opened(alloc, production, stack)?;
    let grown = with_part(alloc, frame, part)?;
    let progress = begin(alloc, grown, class, token, stack)?;
    Ok(unfinished(progress))
}

/// Begins a production with a part, within a production that stands on top.
fn wrap_within(
    alloc: Global,
    frame: Frame,
    production: Production,
    part: Made,
    class: Class,
    token: &Token,
    stack: &mut Vec<Frame>,
) -> Result<Progress, AllocError>
    requires class { class ≡ class_of token.now }
    requires room { HasRoom production }
    requires fit { IsFit part }
    requires stands { StandsOn frame stack.old.items }
    ensures { IfOk result (λ r. (p : AProduction) (old : List AFrame) → Comes r p old stack.new.items (machine.wraps (rhs production) production part.facts.category (made_of part) token.now (open_of frame ∷ opens stack.old.items []))) }
{
    push(stack, frame)?;
    let progress = wrap(alloc, production, part, class, token, stack)?;
    Ok(progress)
}

/// Puts a part alone at the next place.
fn put_alone(
    alloc: Global,
    frame: Frame,
    wanted: Part,
    part: Made,
    class: Class,
    token: &Token,
    stack: &mut Vec<Frame>,
) -> Result<Progress, AllocError>
    requires class { class ≡ class_of token.now }
    requires next { StandsNext frame (is.One wanted) }
    requires meets { Meets (is.One wanted) part.meaning }
    requires stands { StandsOn frame stack.old.items }
    ensures { IfOk result (λ r. Comes r frame.production stack.old.items stack.new.items (put (is.One wanted) (made_of part) frame token.now (opens stack.old.items []))) }
{
    let grown = with_part(alloc, frame, part)?;
    let progress = begin(alloc, grown, class, token, stack)?;
    Ok(progress)
}

/// Puts a part into the row at the next place.
fn put_in_row(
    alloc: Global,
    frame: Frame,
    wanted: Part,
    part: Made,
    class: Class,
    token: &Token,
    stack: &mut Vec<Frame>,
) -> Result<Progress, AllocError>
    requires class { class ≡ class_of token.now }
    requires next { StandsNext frame (is.Many wanted) }
    requires stands { StandsOn frame stack.old.items }
    ensures { IfOk result (λ r. Comes r frame.production stack.old.items stack.new.items (put (is.Many wanted) (made_of part) frame token.now (opens stack.old.items []))) }
{
    let grown = with_next(frame, part)?;
    match opening(wanted, class) {
        Some(production) => {
            let progress = enter_within(alloc, grown, production, class, token, stack)?;
            Ok(progress)
        }
        None => {
            let passed = with_row(alloc, grown)?;
            let progress = begin(alloc, passed, class, token, stack)?;
            Ok(progress)
        }
    }
}

/// Puts a part at the next place, where it may be left out.
fn put_maybe(
    alloc: Global,
    frame: Frame,
    wanted: Part,
    part: Made,
    class: Class,
    token: &Token,
    stack: &mut Vec<Frame>,
) -> Result<Progress, AllocError>
    requires class { class ≡ class_of token.now }
    requires next { StandsNext frame (is.Maybe wanted) }
    requires stands { StandsOn frame stack.old.items }
    ensures { IfOk result (λ r. Comes r frame.production stack.old.items stack.new.items (put (is.Maybe wanted) (made_of part) frame token.now (opens stack.old.items []))) }
{
    let cleared = without_row(alloc, frame);
    let grown = with_next(cleared, part)?;
    let passed = with_row(alloc, grown)?;
    let progress = begin(alloc, passed, class, token, stack)?;
    Ok(progress)
}

/// Puts a part at the next place of a production that stands on top.
fn put_part(
    alloc: Global,
    frame: Frame,
    symbol: Symbol,
    part: Made,
    class: Class,
    token: &Token,
    stack: &mut Vec<Frame>,
) -> Result<Progress, AllocError>
    requires class { class ≡ class_of token.now }
    requires next { StandsNext frame symbol }
    requires meets { Meets symbol part.meaning }
    requires stands { StandsOn frame stack.old.items }
    ensures { IfOk result (λ r. Comes r frame.production stack.old.items stack.new.items (put symbol (made_of part) frame token.now (opens stack.old.items []))) }
{
    match symbol {
        Symbol::Tok(_) => Ok(Progress::Stuck),
        Symbol::One(wanted) => put_alone(alloc, frame, wanted, part, class, token, stack),
        Symbol::Many(wanted) => put_in_row(alloc, frame, wanted, part, class, token, stack),
        Symbol::Maybe(wanted) => put_maybe(alloc, frame, wanted, part, class, token, stack),
    }
}

/// Takes a part that was read where a production that stands on top wants one.
fn take_part(
    alloc: Global,
    frame: Frame,
    part: Made,
    class: Class,
    token: &Token,
    stack: &mut Vec<Frame>,
) -> Result<Progress, AllocError>
    requires class { class ≡ class_of token.now }
    requires fit { IsFit part }
    requires stands { StandsOn frame stack.old.items }
    ensures { IfOk result (λ r. Comes r frame.production stack.old.items stack.new.items (placed_at part.facts.category (made_of part) frame token.now (opens stack.old.items []))) }
{
    let Some(symbol) = next_place(&frame) else {
        return Ok(Progress::Stuck);
    };
    let Some(wanted) = wanted(symbol) else {
        return Ok(Progress::Stuck);
    };
    let category = part.facts.category;
    match announced(category, wanted, class) {
        Some(production) => {
            let progress = wrap_within(alloc, frame, production, part, class, token, stack)?;
            Ok(progress)
        }
        None => {
            if !accepts(category, wanted) {
                return Ok(Progress::Stuck);
            }
            let progress = put_part(alloc, frame, symbol, part, class, token, stack)?;
            Ok(progress)
        }
    }
}

/// What a production that ended becomes above the production that stands on top.
fn hand_over(
    alloc: Global,
    ended: Frame,
    frame: Frame,
    class: Class,
    token: &Token,
    stack: &mut Vec<Frame>,
) -> Result<Progress, AllocError>
    requires class { class ≡ class_of token.now }
    requires whole { IsWhole ended }
    requires stands { StandsOn frame stack.old.items }
    ensures going { IfOk result (λ r. IsGoing r stack.new.items) }
    ensures same { IfOk result (λ r. machine.give ended.production (values_of ended.done.items) token.now (open_of frame ∷ opens stack.old.items []) ≡ given r token.now (opens stack.new.items [])) }
    ensures less { IfOk result (λ r. left_over r stack.new.items ≤ suc (length stack.old.items)) }
{
    let part = made(alloc, ended.production, ended.done)?;
    let progress = take_part(alloc, frame, part, class, token, stack)?;
    Ok(progress)
}

/// Goes on with a production, and with those that it ends.
fn give(
    alloc: Global,
    mut progress: Progress,
    class: Class,
    token: &Token,
    stack: &mut Vec<Frame>,
) -> Result<Option<u32>, AllocError>
    requires class { class ≡ class_of token.now }
    requires going { IsGoing progress stack.old.items }
    ensures { IfOk result (λ d. Reads d stack.new.items (given progress token.now (opens stack.old.items []))) }
{
    'endings: loop {
        match progress {
            Progress::Moved(depth) => return Ok(Some(depth)),
            Progress::Stuck => return Ok(None),
            Progress::Finished(ended) => {
                let Some(frame) = pop(stack) else {
                    return Ok(None);
                };
                let next = hand_over(alloc, ended, frame, class, token, stack)?;
                progress = next;
            }
        }
    }
}

/// Reads a token: the nesting there, or none where it is refused.
pub fn step(alloc: Global, token: &Token, stack: &mut Vec<Frame>) -> Result<Option<u32>, AllocError>
    requires { AreSound stack.old.items [] }
    ensures { IfOk result (λ d. Reads d stack.new.items (machine.step (opens stack.old.items []) token.now)) }
{
    let class = class_of(token);
    let Some(frame) = pop(stack) else {
        return Ok(None);
    };
    if frame.row.len() > 0 {
        return Ok(None);
    }
    let progress = begin(alloc, frame, class, token, stack)?;
    let read = give(alloc, progress, class, token, stack)?;
    Ok(read)
}
