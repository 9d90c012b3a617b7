// Pieces of code on their way to a sink.
#![tactic(auto, using(crate::proofs::Texts::texts))]

ghost use Rattle.std.specs.Prelude.{◌≡◌, ◌+◌, ◌*◌, ◌<◌, ◌≤◌, ◌^◌, ◌++◌, ◌∷◌, [], pos, OnOk, IfOk};
ghost use Rattle.word24.specs.Word.{number_of};
ghost use Rattle.ws_lang.specs.Instruction.{Push, Store, Retrieve};
ghost use Rattle.ws_back.specs.Code.{wanted, branch_code};
ghost use Rattle.ws_back.specs.Text.{text_of};
ghost use Rattle.ws_back.specs.Pieces.{piece_code, IsPiece, IsCodeHanded};

use crate::code::{put_op, put_wanted};
use crate::command::{Command, Place};
use crate::text::Text;
use eir_core::Op;
use mach_core::{Put, Sink};
use sim_trait::EmitFault;
use std::alloc::{AllocError, Global};
use word24::Word;

/// A piece of code.
#[derive(Clone, Copy)]
pub enum Piece {
    /// Stores a data word at an address.
    Word(u32, Word),
    Command(Command),
    /// Goes to where the blocks below this number are looked up, if the wanted one is below it.
    Branch(u32),
    Op(Op),
}

// Stores a word at an address.
fn put_word(text: &mut Text, a: u32, word: Word) -> Result<(), AllocError>
    requires { a < 2 ^ 25 }
    ensures { OnOk result (text.new.bytes.items ≡ text.old.bytes.items ++ text_of (Push (pos a) ∷ Push (pos (number_of word)) ∷ Store ∷ [])) }
{
    text.put(Command::Push(i64::from(a)))?;
    text.put(Command::Push(i64::from(word.get())))?;
    text.put(Command::Store)
}

// Goes to where the blocks below a number are looked up, if the wanted one is below it.
fn put_branch(text: &mut Text, middle: u32) -> Result<(), AllocError>
    requires { 2 * middle + 1 < 2 ^ 25 }
    ensures { OnOk result (text.new.bytes.items ≡ text.old.bytes.items ++ text_of (branch_code middle)) }
{
    put_wanted(text)?;
    text.put(Command::Push(i64::from(middle)))?;
    text.put(Command::Subtract)?;
    text.put(Command::JumpIfNegative(Place::Branch(middle)))
}

// The text of a piece, in a program of so many blocks.
fn piece_text(alloc: Global, count: u32, piece: Piece) -> Result<Text, AllocError>
    requires count { count ≤ 2 ^ 21 }
    requires piece { IsPiece piece }
    ensures { IfOk result (λ text. text.bytes.items ≡ text_of (piece_code count piece)) }
{
    let mut text = Text::new(alloc);
    match piece {
        Piece::Word(a, word) => put_word(&mut text, a, word)?,
        Piece::Command(command) => text.put(command)?,
        Piece::Branch(middle) => put_branch(&mut text, middle)?,
        Piece::Op(op) => put_op(&mut text, count, op)?,
    }
    Ok(text)
}

/// Hands a piece on to a sink.
pub fn put_piece<O: Sink>(
    alloc: Global,
    count: u32,
    piece: Piece,
    put: &mut Put,
    out: &mut O,
) -> Result<(), EmitFault>
    requires count { count ≤ 2 ^ 21 }
    requires piece { IsPiece piece }
    ensures handed { IsCodeHanded O.got O.faults out.old out.new put.old put.new (piece_code count piece) result }
    ensures later { O.faults out.old ≤ O.faults out.new }
{
    let Ok(text) = piece_text(alloc, count, piece) else {
        return Err(EmitFault::Memory);
    };
    match put.bytes(text.bytes(), out) {
        Ok(()) => Ok(()),
        Err(_) => Err(EmitFault::Write),
    }
}
