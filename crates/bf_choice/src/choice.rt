// The tree of choices.

ghost use Rattle.std.specs.Prelude.{◌≡◌, ◌+◌, ◌*◌, ◌^◌, ◌<◌, ◌≤◌, ◌++◌, [], ◌∷◌, take, drop, IfOk};
ghost use Rattle.bf_tape.specs.Code.{if_code, goto_code};
ghost use Rattle.bf_choice.specs.Choice.{tree_code, first_of, bit_cell, spare_cell, codes, AreBalanced};

use bf_lang::Command;
use bf_tape::Frag;
use std::alloc::{AllocError, Global};

// The first pieces.
fn front(arms: &[Vec<Command>], count: usize) -> &[Vec<Command>]
    ensures { result.now ≡ take count arms.now }
{
    &arms[..count.min(arms.len())]
}

// The others.
fn rest(arms: &[Vec<Command>], count: usize) -> &[Vec<Command>]
    ensures { result.now ≡ drop count arms.now }
{
    &arms[count.min(arms.len())..]
}

// The first piece, or nothing where there is none.
fn leaf(alloc: Global, arms: &[Vec<Command>]) -> Result<Frag, AllocError>
    requires { AreBalanced (codes arms.now) }
    ensures { IfOk result (λ piece. piece ≡ record { commands = first_of (codes arms.now); cell = 0 }) }
{
    let mut piece = Frag::new(alloc);
    if let [arm, ..] = arms {
        piece.join(arm, 0)?;
    }
    Ok(piece)
}

// A choice on a digit.
fn branch(alloc: Global, digit: u32, yes: Frag, other: Frag) -> Result<Frag, AllocError>
    requires digit { digit < 14 }
    requires yes_home { yes.cell ≡ 0 }
    requires other_home { other.cell ≡ 0 }
    ensures { IfOk result (λ piece. piece ≡ record { commands = if_code 0 (bit_cell digit) (spare_cell digit) yes.commands other.commands ++ goto_code (spare_cell digit) 0; cell = 0 }) }
{
    let mut piece = Frag::new(alloc);
    piece.if_else(3 * digit + 1, 3 * digit + 2, yes, other)?;
    piece.goto(0)?;
    Ok(piece)
}

// So many pieces as a digit counts.
fn half(digit: u32) -> usize
    requires { digit < 14 }
    ensures { result ≡ 2 ^ digit }
{
    1usize << digit
}

// The choice of one of these pieces by so many digits of its number.
pub(crate) fn choose(alloc: Global, digits: u32, arms: &[Vec<Command>]) -> Result<Frag, AllocError>
    requires digits { digits ≤ 14 }
    requires balanced { AreBalanced (codes arms.now) }
    ensures { IfOk result (λ piece. piece ≡ record { commands = tree_code digits (codes arms.now); cell = 0 }) }
{
    let count = arms.len();
    if count == 0 {
        return Ok(Frag::new(alloc));
    }
    if digits == 0 {
        let only = leaf(alloc, arms)?;
        return Ok(only);
    }
    let digit = digits - 1;
    let from = half(digit);
    let high = rest(arms, from);
    let low = front(arms, from);
    let yes = choose(alloc, digit, high)?;
    let other = choose(alloc, digit, low)?;
    let both = branch(alloc, digit, yes, other)?;
    Ok(both)
}
