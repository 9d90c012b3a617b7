// How an instruction stands to blocks.
ghost use Rattle.std.specs.Prelude.{◌≡◌};
ghost use Rattle.wasm_valid.specs.Checking.{shape_of};

use crate::frames::Kind;
use wasm_bin::Instr;

/// How an instruction stands to blocks.
#[derive(Clone, Copy)]
pub enum Shape {
    /// It opens a block of this kind, which gives a value or none.
    Opens(Kind, bool),
    /// It ends the first part of an `if`.
    Parts,
    /// It ends a block.
    Closes,
    /// It is no part of a block's form.
    Plain,
}

impl Shape {
    /// The shape of an instruction.
    #[tactic(auto, unfolding(crate::specs::Checking::shape_of))]
    pub fn of(instruction: &Instr) -> Shape
        ensures { result ≡ shape_of instruction.now }
    {
        match instruction {
            Instr::Block(result) => Shape::Opens(Kind::Block, *result),
            Instr::Loop(result) => Shape::Opens(Kind::Loop, *result),
            Instr::If(result) => Shape::Opens(Kind::If, *result),
            Instr::Else => Shape::Parts,
            Instr::End => Shape::Closes,
            _ => Shape::Plain,
        }
    }
}
