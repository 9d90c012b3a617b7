// Counters, less and more.

ghost use Rattle.std.specs.Prelude.{◌≡◌, ◌+◌, ◌^◌, ◌<◌, ◌++◌, OnOk, OnErr};
ghost use Rattle.bf_lang.specs.Balance.{IsBalanced};
ghost use Rattle.bf_tape.specs.Code.{goto_code};
ghost use Rattle.bf_tape.specs.Piece.{joined, Adds};
ghost use Rattle.bf_word.specs.Word.{IsCounter, IsApart, lifted_by, lifted_once, lowered_by, lowered_once};
ghost use Rattle.bf_word.specs.WordCode.{lift_code, lower_code, once_code, raise_code};
ghost use Rattle.bf_word.specs.Steps.{repeat_code, count_code};

use crate::joining::{append, aside};
use crate::steps::{lift_high, lift_past, lower_high, lower_past};
use bf_lang::Command;
use bf_tape::Frag;
use std::alloc::AllocError;

// As often as a cell says, a step at another cell.
fn repeat(piece: &mut Frag, cell: u32, at: u32, step: &[Command]) -> Result<(), AllocError>
    requires cell { cell < 256 }
    requires at { at < 256 }
    requires balanced { IsBalanced step.now }
    ensures { OnOk result (piece.new ≡ joined piece.old (repeat_code piece.old.cell cell at step.now) cell) }
{
    let mut body = piece.begin(cell);
    body.goto(at)?;
    body.join(step, at)?;
    body.goto(cell)?;
    piece.times(cell, body)
}

// The steps of the three bytes of a counter, each as often as the byte of a word says.
fn count(
    f: &mut Frag,
    counter: u32,
    word: u32,
    low: &[Command],
    mid: &[Command],
    high: &[Command],
) -> Result<(), AllocError>
    requires counter { counter < 247 }
    requires word { word < 254 }
    requires low { IsBalanced low.now }
    requires mid { IsBalanced mid.now }
    requires high { IsBalanced high.now }
    ensures ok { OnOk result (f.new ≡ joined f.old (count_code f.old.cell counter word low.now mid.now high.now) (word + 2)) }
    ensures below { f.old.cell < 256 }
    ensures err { OnErr result (f.new ≡ f.old) }
{
    let mut piece = aside(f);
    repeat(&mut piece, word, counter, low)?;
    repeat(&mut piece, word + 1, counter + 1, mid)?;
    repeat(&mut piece, word + 2, counter + 2, high)?;
    append(f, &piece)
}

// A step, at a cell.
fn step(f: &mut Frag, cell: u32, code: &[Command]) -> Result<(), AllocError>
    requires cell { cell < 256 }
    requires balanced { IsBalanced code.now }
    ensures ok { OnOk result (f.new ≡ joined f.old (goto_code f.old.cell cell ++ code.now) cell) }
    ensures below { f.old.cell < 256 }
    ensures err { OnErr result (f.new ≡ f.old) }
{
    let mut piece = aside(f);
    piece.goto(cell)?;
    piece.join(code, cell)?;
    append(f, &piece)
}

/// Adds a word to a counter modulo 2^24, and clears the word.
pub fn lift_by(f: &mut Frag, counter: u32, word: u32) -> Result<(), AllocError>
    requires counter { counter < 247 }
    requires word { word < 254 }
    requires apart { IsApart word counter }
    ensures code { OnOk result (f.new ≡ joined f.old (lift_code f.old.cell counter word) (word + 2)) }
    ensures effect { OnOk result (Adds f.old f.new (IsCounter counter) (λ input s. lifted_by counter word s) (2 ^ 20) (2 ^ 12)) }
    ensures err { OnErr result (f.new ≡ f.old) }
{
    let high = lift_high(f.alloc())?;
    let mid = lift_past(f.alloc(), &high)?;
    let low = lift_past(f.alloc(), &mid)?;
    count(f, counter, word, &low, &mid, &high)
}

/// Takes a word from a counter modulo 2^24, and clears the word. The counter's last cell tells the borrow: it becomes 1 where
/// the counter was less than the word.
pub fn lower_by(f: &mut Frag, counter: u32, word: u32) -> Result<(), AllocError>
    requires counter { counter < 247 }
    requires word { word < 254 }
    requires apart { IsApart word counter }
    ensures code { OnOk result (f.new ≡ joined f.old (lower_code f.old.cell counter word) (word + 2)) }
    ensures effect { OnOk result (Adds f.old f.new (IsCounter counter) (λ input s. lowered_by counter word s) (2 ^ 20) (2 ^ 12)) }
    ensures err { OnErr result (f.new ≡ f.old) }
{
    let high = lower_high(f.alloc())?;
    let mid = lower_past(f.alloc(), &high)?;
    let low = lower_past(f.alloc(), &mid)?;
    count(f, counter, word, &low, &mid, &high)
}

/// Takes one from a counter modulo 2^24. The counter's last cell becomes 1 where it was 0.
pub fn lower_once(f: &mut Frag, counter: u32) -> Result<(), AllocError>
    requires { counter < 247 }
    ensures code { OnOk result (f.new ≡ joined f.old (once_code f.old.cell counter) counter) }
    ensures effect { OnOk result (Adds f.old f.new (IsCounter counter) (λ input s. lowered_once counter s) 512 512) }
    ensures err { OnErr result (f.new ≡ f.old) }
{
    let high = lower_high(f.alloc())?;
    let mid = lower_past(f.alloc(), &high)?;
    let low = lower_past(f.alloc(), &mid)?;
    step(f, counter, &low)
}

/// Adds one to a counter modulo 2^24.
pub fn lift_once(f: &mut Frag, counter: u32) -> Result<(), AllocError>
    requires { counter < 247 }
    ensures code { OnOk result (f.new ≡ joined f.old (raise_code f.old.cell counter) counter) }
    ensures effect { OnOk result (Adds f.old f.new (IsCounter counter) (λ input s. lifted_once counter s) 512 512) }
    ensures err { OnErr result (f.new ≡ f.old) }
{
    let high = lift_high(f.alloc())?;
    let mid = lift_past(f.alloc(), &high)?;
    let low = lift_past(f.alloc(), &mid)?;
    step(f, counter, &low)
}
