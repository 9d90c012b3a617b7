//! A production that is open.

ghost use Rattle.std.specs.Prelude.{◌≡◌, ◌+◌, ◌∷◌, [], ◌++◌, length, drop, IfOk, List, if◌then◌else◌, slice_get, MatchOption};
ghost use Rattle.c_grammar.specs.Grammar.{HasRoom, rhs};
ghost use Rattle.c_grammar.specs.Nesting.{total};
ghost use Rattle.c_grammar.specs.Nesting as nesting;
ghost use Rattle.c_grammar.specs.Values as machine;
ghost use Rattle.c_held.specs.View.{value_at, row_of};
ghost use Rattle.c_held.specs.declared.value.Value.TheVariants as value;
ghost use Rattle.c_nesting.specs.Nested.{context_of, carries_at};
ghost use Rattle.c_frames.specs.Stack.{Grows, GrowsByOne, IsCleared, walk_of};

use c_grammar::names::{Production, Symbol};
use c_grammar::places::place;
use c_held::value::{Made, Value};
use c_nesting::counts::{Counted, at_place, carries, sum};
use c_syntax::{Kind, Token};
use std::alloc::{AllocError, Global};
use std::collections::VecDeque;

/// A production that is open.
#[derive(Drop)]
pub struct Frame {
    pub production: Production,
    /// What stands at its first places.
    pub done: Vec<Value>,
    /// The parts so far at the place behind them, where that has a row.
    pub row: VecDeque<Made>,
    /// The stars and opening square brackets of those.
    pub row_stars: u32,
    /// What is counted so far.
    pub so_far: Counted,
}

fn copied_kind(alloc: Global, kind: &Kind) -> Result<Kind, AllocError>
    ensures { IfOk result (λ k. k ≡ kind.now) }
{
    match kind {
        Kind::Name(text) => {
            let copy = text.copied(alloc)?;
            Ok(Kind::Name(copy))
        }
        Kind::Number { value, unsigned } => Ok(Kind::Number {
            value: *value,
            unsigned: *unsigned,
        }),
        Kind::Str(text) => {
            let copy = text.copied(alloc)?;
            Ok(Kind::Str(copy))
        }
        Kind::Null => Ok(Kind::Null),
        Kind::Key(key) => Ok(Kind::Key(*key)),
        Kind::Mark(mark) => Ok(Kind::Mark(*mark)),
        Kind::End => Ok(Kind::End),
    }
}

/// A copy of a token.
pub fn copied(alloc: Global, token: &Token) -> Result<Token, AllocError>
    ensures { IfOk result (λ t. t ≡ token.now) }
{
    let kind = copied_kind(alloc, &token.kind)?;
    Ok(Token {
        kind,
        pos: token.pos,
    })
}

/// What stands at the next place; none: it has all its parts.
pub fn next_place(frame: &Frame) -> Option<Symbol>
    requires { HasRoom frame.now.production }
    ensures { result ≡ slice_get (rhs frame.now.production) (length frame.now.done.items) }
{
    place(frame.production, frame.done.len())
}

/// What is counted before the next place.
pub fn at_next(frame: &Frame) -> Result<Counted, AllocError>
    ensures { IfOk result (λ d. context_of d ≡ nesting.place (walk_of frame.now)) }
{
    at_place(frame.production, frame.done.len(), frame.so_far)
}

/// The nesting at a token that stands next.
pub fn depth(frame: &Frame) -> Result<u32, AllocError>
    ensures { IfOk result (λ d. d ≡ total (nesting.place (walk_of frame.now))) }
{
    let at = at_next(frame)?;
    sum(at.rest, at.declarator)
}

// What a value counts behind it.
fn behind(frame: &Frame, operators: u32, stars: u32) -> Result<Counted, AllocError>
    ensures { IfOk result (λ c. context_of c ≡ record { rest = frame.now.so_far.rest + (if carries_at frame.now.production (length frame.now.done.items) then operators else 0); declarator = frame.now.so_far.declarator + stars; cast = frame.now.so_far.cast }) }
{
    let so_far = frame.so_far;
    let carried = if carries(frame.production, frame.done.len()) {
        operators
    } else {
        0
    };
    let rest = sum(so_far.rest, carried)?;
    let declarator = sum(so_far.declarator, stars)?;
    Ok(Counted {
        rest,
        declarator,
        cast: so_far.cast,
    })
}

// A value at the next place, with its operators and stars.
fn with_value(
    alloc: Global,
    frame: Frame,
    value: Value,
    operators: u32,
    stars: u32,
) -> Result<Frame, AllocError>
    requires operators { operators ≡ machine.operators_in (value_at value) }
    requires stars { stars ≡ machine.stars_in (value_at value) }
    ensures { IfOk result (λ g. Grows frame g value) }
{
    let so_far = behind(&frame, operators, stars)?;
    let Frame {
        production,
        mut done,
        ..
    } = frame;
    done.push(value)?;
    Ok(Frame {
        production,
        done,
        row: VecDeque::new(alloc),
        row_stars: 0,
        so_far,
    })
}

/// A token at the next place.
pub fn with_token(alloc: Global, frame: Frame, token: Token) -> Result<Frame, AllocError>
    ensures { IfOk result (λ g. Grows frame g (value.Token token)) }
{
    with_value(alloc, frame, Value::Token(token), 0, 0)
}

/// A part at the next place.
pub fn with_part(alloc: Global, frame: Frame, made: Made) -> Result<Frame, AllocError>
    ensures { IfOk result (λ g. Grows frame g (value.Part made)) }
{
    let facts = made.facts;
    with_value(
        alloc,
        frame,
        Value::Part(made),
        facts.operators,
        facts.stars,
    )
}

/// The row so far at the next place.
pub fn with_row(alloc: Global, frame: Frame) -> Result<Frame, AllocError>
    requires { frame.row_stars ≡ machine.all_stars_in (row_of frame.row.items) }
    ensures { IfOk result (λ g. Grows frame g (value.Row frame.row)) }
{
    let Frame {
        production,
        done,
        row,
        row_stars,
        so_far,
    } = frame;
    let rest = Frame {
        production,
        done,
        row: VecDeque::new(alloc),
        row_stars: 0,
        so_far,
    };
    with_value(alloc, rest, Value::Row(row), 0, row_stars)
}

/// A part more in the row so far.
pub fn with_next(frame: Frame, made: Made) -> Result<Frame, AllocError>
    ensures { IfOk result (λ g. GrowsByOne frame g made) }
{
    let Frame {
        production,
        done,
        mut row,
        row_stars,
        so_far,
    } = frame;
    let row_stars = sum(row_stars, made.facts.stars)?;
    row.push_back(made)?;
    Ok(Frame {
        production,
        done,
        row,
        row_stars,
        so_far,
    })
}

/// Without the parts of the row so far.
pub fn without_row(alloc: Global, frame: Frame) -> Frame
    ensures { IsCleared frame result }
{
    let Frame {
        production,
        done,
        so_far,
        ..
    } = frame;
    Frame {
        production,
        done,
        row: VecDeque::new(alloc),
        row_stars: 0,
        so_far,
    }
}
