// The whole program.

ghost use Rattle.std.specs.Prelude.{◌≡◌, ◌+◌, ◌*◌, ◌^◌, ◌≤◌, IfOk, OnOk, length, map};
ghost use Rattle.word24.specs.Word.{number_of};
ghost use Rattle.eir_core.specs.Eir.{size_of};
ghost use Rattle.bf_tape.specs.Piece.{joined};
ghost use Rattle.bf_turn.specs.Number.{op_count, first_numbers};
ghost use Rattle.bf_back.specs.Data.{Begins};
ghost use Rattle.bf_back.specs.Code.{start_code, begin_code, whole_code};
ghost use Rattle.bf_back.specs.Whole.{Opens, IsWhole, StandsFor};

use crate::data::lay;
use bf_choice::{advance, aim};
use bf_tape::Frag;
use bf_turn::{digit_count, first_numbers, first_of, op_count, turn};
use eir_core::Program;
use std::alloc::{AllocError, Global};
use word24::Word;

// What comes before the loop. What is added up to an error is left.
fn begin(f: &mut Frag, words: &[Word], digits: u32, start: u32) -> Result<(), AllocError>
    requires { digits ≤ 14 }
    ensures code { OnOk result (f.new ≡ joined f.old (start_code f.old.cell words.now digits start) 0) }
    ensures cell { OnOk result (f.new.cell ≡ 0) }
    ensures begins { OnOk result (Begins f.old f.new (map number_of words.now) digits start) }
{
    lay(f, words)?;
    f.add_const(0, 1)?;
    aim(f, digits, start)?;
    advance(f, digits)?;
    f.goto(0)?;
    Ok(())
}

// The beginning of a program.
fn beginning(alloc: Global, p: &Program, numbers: &[u32]) -> Result<Frag, AllocError>
    requires size { size_of p.now ≤ 2 ^ 14 }
    requires numbers { numbers.now ≡ first_numbers 1 p.now.blocks }
    ensures home { IfOk result (λ code. code.cell ≡ 0) }
    ensures code { IfOk result (λ code. code.commands ≡ begin_code p.now) }
    ensures opens { IfOk result (λ code. Opens p.now code.commands) }
{
    let digits = digit_count(op_count(p));
    let mut code = Frag::new(alloc);
    begin(&mut code, p.words(), digits, first_of(numbers, p.start()))?;
    Ok(code)
}

/// A Brainfuck program that does what a program does, step by step.
pub fn translate(alloc: Global, p: &Program) -> Result<Frag, AllocError>
    requires { size_of p.now ≤ 2 ^ 14 }
    ensures code { IfOk result (λ code. code.commands ≡ whole_code p.now) }
    ensures short { IfOk result (λ code. length code.commands ≤ 4096 * (size_of p.now + 1)) }
    ensures whole { IfOk result (λ code. IsWhole p.now code.commands) }
    ensures stands { IfOk result (λ code. StandsFor p.now code.commands) }
{
    let numbers = first_numbers(alloc, p)?;
    let body = turn(alloc, p, &numbers)?;
    let mut code = beginning(alloc, p, &numbers)?;
    code.while_nonzero(0, body)?;
    Ok(code)
}
