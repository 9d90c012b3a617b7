//! Reading a token at the places that are left of a production: an `Err` is want of memory.

ghost use Rattle.std.specs.Prelude.{◌≡◌, ◌∷◌, [], IfOk, List, length};
ghost use Rattle.c_grammar.specs.Class.{class_of};
ghost use Rattle.c_grammar.specs.Grammar.{HasRoom};
ghost use Rattle.c_grammar.specs.Machine.{opening};
ghost use Rattle.c_grammar.specs.Values as machine;
ghost use Rattle.c_grammar.specs.Values.{nil};
ghost use Rattle.c_grammar.specs.declared.names.Production.{Production as AProduction};
ghost use Rattle.c_grammar.specs.declared.names.Symbol.TheVariants as is;
ghost use Rattle.c_frames.specs.Stack.{AreSound, StandsOn, StandsNext, opens, open_of};
ghost use Rattle.c_frames.specs.declared.frame.Frame.{Frame as AFrame};
ghost use Rattle.c_progress.specs.Places.{TakesRow};
ghost use Rattle.c_progress.specs.Progress.{Reads, Comes, Turns, token_at, begin_at, begin_behind};

use crate::places::first_terminal;
use crate::progress::{Progress, Turn, progress_of};
use c_frames::frame::{Frame, copied, depth, next_place, with_row, with_token};
use c_frames::stack::{opened, push};
use c_grammar::names::{Class, Part, Production, Symbol, Terminal};
use c_grammar::tables::{opening, takes};
use c_syntax::Token;
use std::alloc::{AllocError, Global};

/// Reads a token at the next place of a production that stands on top.
fn read_token(
    alloc: Global,
    frame: Frame,
    terminal: Terminal,
    class: Class,
    token: &Token,
    stack: &mut Vec<Frame>,
) -> Result<Option<u32>, AllocError>
    requires class { class ≡ class_of token.now }
    requires next { StandsNext frame (is.Tok terminal) }
    requires stands { StandsOn frame stack.old.items }
    ensures { IfOk result (λ d. Reads d stack.new.items (token_at frame terminal token.now (opens stack.old.items []))) }
{
    if !takes(terminal, class) {
        return Ok(None);
    }
    let depth = depth(&frame)?;
    let copy = copied(alloc, token)?;
    let grown = with_token(alloc, frame, copy)?;
    push(stack, grown)?;
    Ok(Some(depth))
}

/// Begins a production with a token.
fn enter(
    alloc: Global,
    production: Production,
    class: Class,
    token: &Token,
    stack: &mut Vec<Frame>,
) -> Result<Option<u32>, AllocError>
    requires class { class ≡ class_of token.now }
    requires room { HasRoom production }
    requires sound { AreSound stack.old.items [] }
    ensures { IfOk result (λ d. Reads d stack.new.items (machine.enter production token.now (opens stack.old.items []))) }
{
    match first_terminal(production) {
        Some(terminal) => {
            let frame = opened(alloc, production, stack)?;
            let read = read_token(alloc, frame, terminal, class, token, stack)?;
            Ok(read)
        }
        None => Ok(None),
    }
}

/// Begins a production with a token, within a production that stands on top.
pub fn enter_within(
    alloc: Global,
    frame: Frame,
    production: Production,
    class: Class,
    token: &Token,
    stack: &mut Vec<Frame>,
) -> Result<Progress, AllocError>
    requires class { class ≡ class_of token.now }
    requires room { HasRoom production }
    requires stands { StandsOn frame stack.old.items }
    ensures { IfOk result (λ r. (p : AProduction) (old : List AFrame) → Comes r p old stack.new.items (machine.moved (machine.enter production token.now (open_of frame ∷ opens stack.old.items [])))) }
{
    push(stack, frame)?;
    let read = enter(alloc, production, class, token, stack)?;
    Ok(progress_of(read))
}

/// Begins a part with a token where it must stand.
fn begin_part(
    alloc: Global,
    frame: Frame,
    part: Part,
    class: Class,
    token: &Token,
    stack: &mut Vec<Frame>,
) -> Result<Progress, AllocError>
    requires class { class ≡ class_of token.now }
    requires stands { StandsOn frame stack.old.items }
    ensures { IfOk result (λ r. (p : AProduction) (old : List AFrame) → Comes r p old stack.new.items (machine.choose (opening part (class_of token.now)) token.now (open_of frame ∷ opens stack.old.items []) machine.Stuck)) }
{
    match opening(part, class) {
        Some(production) => {
            let progress = enter_within(alloc, frame, production, class, token, stack)?;
            Ok(progress)
        }
        None => Ok(Progress::Stuck),
    }
}

/// Begins a part with a token where none need stand.
fn begin_row(
    alloc: Global,
    frame: Frame,
    symbol: Symbol,
    part: Part,
    class: Class,
    token: &Token,
    stack: &mut Vec<Frame>,
) -> Result<Turn, AllocError>
    requires class { class ≡ class_of token.now }
    requires row { frame.row.items ≡ [] }
    requires next { StandsNext frame symbol }
    requires takes { TakesRow symbol }
    requires stands { StandsOn frame stack.old.items }
    ensures { IfOk result (λ r. Turns r frame token.now stack.old.items stack.new.items (machine.choose (opening part (class_of token.now)) token.now (open_of frame ∷ opens stack.old.items []) (begin_behind frame (machine.Values nil) token.now (opens stack.old.items [])))) }
{
    match opening(part, class) {
        Some(production) => {
            let progress = enter_within(alloc, frame, production, class, token, stack)?;
            Ok(Turn::Ended(progress))
        }
        None => {
            let passed = with_row(alloc, frame)?;
            Ok(Turn::Passed(passed))
        }
    }
}

/// Reads a token at the next place.
fn begin_here(
    alloc: Global,
    frame: Frame,
    symbol: Symbol,
    class: Class,
    token: &Token,
    stack: &mut Vec<Frame>,
) -> Result<Turn, AllocError>
    requires class { class ≡ class_of token.now }
    requires row { frame.row.items ≡ [] }
    requires next { StandsNext frame symbol }
    requires stands { StandsOn frame stack.old.items }
    ensures { IfOk result (λ r. Turns r frame token.now stack.old.items stack.new.items (begin_at frame token.now (opens stack.old.items []))) }
{
    match symbol {
        Symbol::Tok(terminal) => {
            let read = read_token(alloc, frame, terminal, class, token, stack)?;
            Ok(Turn::Ended(progress_of(read)))
        }
        Symbol::One(part) => {
            let progress = begin_part(alloc, frame, part, class, token, stack)?;
            Ok(Turn::Ended(progress))
        }
        Symbol::Many(part) => {
            let turn = begin_row(alloc, frame, symbol, part, class, token, stack)?;
            Ok(turn)
        }
        Symbol::Maybe(part) => {
            let turn = begin_row(alloc, frame, symbol, part, class, token, stack)?;
            Ok(turn)
        }
    }
}

/// Reads a token at the places that are left of a production that stands on top.
pub fn begin(
    alloc: Global,
    mut frame: Frame,
    class: Class,
    token: &Token,
    stack: &mut Vec<Frame>,
) -> Result<Progress, AllocError>
    requires class { class ≡ class_of token.now }
    requires row { frame.row.items ≡ [] }
    requires stands { StandsOn frame stack.old.items }
    ensures { IfOk result (λ r. Comes r frame.production stack.old.items stack.new.items (begin_at frame token.now (opens stack.old.items []))) }
{
    'places: loop {
        let Some(symbol) = next_place(&frame) else {
            return Ok(Progress::Finished(frame));
        };
        let turn = begin_here(alloc, frame, symbol, class, token, stack)?;
        match turn {
            Turn::Passed(passed) => frame = passed,
            Turn::Ended(progress) => return Ok(progress),
        }
    }
}
