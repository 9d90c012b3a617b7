//! The tree of a list of tokens.

ghost use Rattle.std.specs.Prelude.{◌≡◌, ◌<◌, ◌≤◌, [], length, MatchResult, IfOk, Result};
ghost use Rattle.c_syntax.specs.Plain.{CUnit};
ghost use Rattle.c_syntax.specs.View.{unit_of};
ghost use Rattle.c_grammar.specs.Spells.{IsUnitWithin};
ghost use Rattle.c_grammar.specs.Values as machine;
ghost use Rattle.c_grammar.specs.Values.{ValueList, tree_of};
ghost use Rattle.c_frames.specs.Stack.{AreSound, opens};
ghost use Rattle.c_parse.specs.Answer.{EndsInEnd, IsRight, Fails, IsRead, ReadsOn, Refuses, Parses, answered, IsUnlessMemory};
ghost use Rattle.c_parse.specs.declared.fault.ParseFault.{ParseFault as Fault};

use crate::fault::ParseFault;
use crate::machine::step;
use c_act::unit;
use c_frames::frame::Frame;
use c_frames::stack::{opened, pop, push};
use c_grammar::names::Production;
use c_syntax::Token;
use c_syntax::tree::Unit;
use std::alloc::{AllocError, Global};

/// The nesting that no token may pass.
const DEEPEST: u32 = 256;

/// Tokens, the end being one.
const MOST: usize = 1_000_001;

/// Reads a token that is not nested too deep.
fn read_token(alloc: Global, token: &Token, stack: &mut Vec<Frame>) -> Result<(), ParseFault>
    requires { AreSound stack.old.items [] }
    ensures { MatchResult result (λ _. ReadsOn token.now stack.old.items stack.new.items) (λ e. Refuses e token.now stack.old.items stack.new.items) }
{
    let read = step(alloc, token, stack)?;
    match read {
        Some(depth) => {
            if depth > DEEPEST {
                return Err(ParseFault::TooDeep(token.pos));
            }
            Ok(())
        }
        None => Err(ParseFault::Syntax(token.pos)),
    }
}

/// Reads all tokens.
fn read(alloc: Global, tokens: &[Token], stack: &mut Vec<Frame>) -> Result<(), ParseFault>
    requires start { opens stack.old.items [] ≡ machine.start }
    requires sound { AreSound stack.old.items [] }
    ensures { MatchResult result (λ _. IsRead tokens.now (length tokens.now) stack.new.items) (λ e. Fails tokens.now e) }
{
    for token in tokens {
        match read_token(alloc, token, stack) {
            Ok(()) => {}
            Err(fault) => return Err(fault),
        }
    }
    Ok(())
}

/// The unit of a stack that has read a whole text.
fn whole(alloc: Global, stack: &mut Vec<Frame>) -> Result<Unit, AllocError>
    requires sound { AreSound stack.old.items [] }
    requires whole { (vs : ValueList) × (opens stack.old.items [] ≡ machine.whole vs) }
    ensures { IfOk result (λ u. (vs : ValueList) → opens stack.old.items [] ≡ machine.whole vs → unit_of u ≡ tree_of vs) }
{
    let Some(frame) = pop(stack) else {
        unreachable!()
    };
    let unit = unit(alloc, frame.done)?;
    Ok(unit)
}

/// A stack that has read nothing.
fn start(alloc: Global) -> Result<Vec<Frame>, AllocError>
    ensures start { IfOk result (λ s. opens s.items [] ≡ machine.start) }
    ensures sound { IfOk result (λ s. AreSound s.items []) }
{
    let mut stack = Vec::new(alloc);
    let first = opened(alloc, Production::Whole, &stack)?;
    push(&mut stack, first)?;
    Ok(stack)
}

/// The unit of tokens that are not too many.
fn parse_all(alloc: Global, tokens: &[Token]) -> Result<Unit, ParseFault>
    requires { EndsInEnd tokens.now }
    ensures { MatchResult result (λ u. IsUnitWithin tokens.now (unit_of u)) (λ e. Fails tokens.now e) }
{
    let mut stack = start(alloc)?;
    match read(alloc, tokens, &mut stack) {
        Ok(()) => {}
        Err(fault) => return Err(fault),
    }
    let unit = whole(alloc, &mut stack)?;
    Ok(unit)
}

/// The tree of a list of tokens, of which the last is the text's end, as `lex` gives it.
///
/// The first token that no unit can have there is `Syntax`, and the first at which nesting passes 256 is `TooDeep`; the lower of
/// them comes. More than 1,000,000 tokens before the end are `TooLarge`, before both.
pub fn parse(alloc: Global, tokens: &[Token]) -> Result<Unit, ParseFault>
    requires { EndsInEnd tokens.now }
    ensures right { IsRight tokens.now (answered result) }
    ensures only { (r : Result CUnit Fault) → Parses tokens.now r → IsUnlessMemory (answered result) r }
{
    if tokens.len() > MOST {
        return Err(ParseFault::TooLarge);
    }
    parse_all(alloc, tokens)
}
