// A turn of the loop.

ghost use Rattle.std.specs.Prelude.{◌≡◌, ◌^◌, ◌≤◌, IfOk, OnOk, length};
ghost use Rattle.bf_tape.specs.Piece.{joined};
ghost use Rattle.eir_core.specs.Eir.{IsEir, size_of};
ghost use Rattle.bf_turn.specs.Number.{first_numbers, op_count};
ghost use Rattle.bf_turn.specs.Turn.{decision_code, decision_cell, tail_code, tail_cell, Decisions, IsDecided, Tails, TurnsBy, IsTurn};
ghost use Rattle.bf_turn.specs.Code.{around_code, decided_code, turn_code};

use crate::arms::arms;
use crate::lookup::look_up;
use crate::number::{accesses, branches, digit_count};
use bf_choice::advance;
use bf_jump::decide;
use bf_ops::serve;
use bf_tape::Frag;
use eir_core::Program;
use std::alloc::{AllocError, Global};

// What operations asked of the memory is served, in a program in which one asks.
fn serve_asked(f: &mut Frag, accesses: bool) -> Result<(), AllocError>
    ensures code { OnOk result (f.new ≡ joined f.old (tail_code f.old.cell accesses) (tail_cell f.old.cell accesses)) }
    ensures effect { OnOk result (Tails f.old f.new accesses) }
{
    if accesses {
        return serve(f);
    }
    Ok(())
}

// What conditional jumps asked is decided, in a program that has one. What is added up to an error is left.
fn decide_asked(f: &mut Frag, digits: u32, branches: bool) -> Result<(), AllocError>
    requires { digits ≤ 14 }
    ensures code { OnOk result (f.new ≡ joined f.old (decision_code f.old.cell digits branches) (decision_cell f.old.cell branches)) }
    ensures effect { OnOk result (Decisions f.old f.new digits branches) }
{
    if branches {
        return decide(f, digits);
    }
    Ok(())
}

// The choice, and what conditional jumps asked decided, from cell 0 and back.
fn decided(tree: &Frag, digits: u32, branches: bool) -> Result<Frag, AllocError>
    requires { digits ≤ 14 }
    ensures home { IfOk result (λ piece. piece.cell ≡ 0) }
    ensures code { IfOk result (λ piece. piece.commands ≡ decided_code digits branches tree.now.commands) }
    ensures effect { IfOk result (λ piece. IsDecided piece.commands digits branches tree.now.commands) }
{
    let mut piece = tree.begin(0);
    piece.join(tree.commands(), 0)?;
    decide_asked(&mut piece, digits, branches)?;
    piece.goto(0)?;
    Ok(piece)
}

// A turn of which the choice is known.
fn around(
    alloc: Global,
    digits: u32,
    numbers: &[u32],
    accesses: bool,
    tree: &Frag,
) -> Result<Frag, AllocError>
    requires digits { digits ≤ 14 }
    requires few { length numbers.now ≤ 2 ^ 22 }
    ensures home { IfOk result (λ body. body.cell ≡ 0) }
    ensures code { IfOk result (λ body. body.commands ≡ around_code digits numbers.now accesses tree.now.commands) }
    ensures turn { IfOk result (λ body. TurnsBy body.commands digits numbers.now accesses tree.now.commands) }
{
    let mut body = Frag::new(alloc);
    body.join(tree.commands(), 0)?;
    serve_asked(&mut body, accesses)?;
    look_up(&mut body, digits, numbers)?;
    advance(&mut body, digits)?;
    body.goto(0)?;
    Ok(body)
}

/// The number of a program's last operation.
pub fn op_count(p: &Program) -> u32
    ensures count { result ≡ op_count p.now }
    ensures sound { IsEir p.now }
{
    p.size() - p.block_count() - p.words().len() as u32
}

/// What a program does in one step, as the body of a loop from cell 0 to cell 0.
pub fn turn(alloc: Global, p: &Program, numbers: &[u32]) -> Result<Frag, AllocError>
    requires size { size_of p.now ≤ 2 ^ 14 }
    requires numbers { numbers.now ≡ first_numbers 1 p.now.blocks }
    ensures home { IfOk result (λ body. body.cell ≡ 0) }
    ensures code { IfOk result (λ body. body.commands ≡ turn_code p.now) }
    ensures turn { IfOk result (λ body. IsTurn p.now body.commands) }
{
    let last = op_count(p);
    let digits = digit_count(last);
    let arms = arms(alloc, p, digits, numbers, last)?;
    let tree = arms.choose(digits)?;
    let all = decided(&tree, digits, branches(p))?;
    around(alloc, digits, numbers, accesses(p), &all)
}
