// The instructions as a machine executes them.
ghost use Rattle.std.specs.Prelude.{◌≡◌};
ghost use Rattle.ws_lang.specs.OpInstruction.{instruction_of};
ghost use Rattle.ws_lang.specs.Resolved.{resolved as resolved_with};

use crate::instruction::Op;

/// One instruction, with the place that its label marks for the label.
#[derive(Clone, Copy)]
pub enum Resolved {
    Push(i64),
    Duplicate,
    Swap,
    Discard,
    Copy(i64),
    Slide(i64),
    Add,
    Subtract,
    Multiply,
    Divide,
    Modulo,
    Store,
    Retrieve,
    Mark,
    Call(u32),
    Jump(u32),
    JumpIfZero(u32),
    JumpIfNegative(u32),
    Return,
    End,
    WriteCharacter,
    WriteNumber,
    ReadCharacter,
    ReadNumber,
}

/// An instruction that goes to this place, if it goes to one.
pub fn with_target(op: &Op, target: u32) -> Resolved
    ensures { result ≡ resolved_with target (instruction_of op.now) }
{
    match op {
        Op::Push(n) => Resolved::Push(*n),
        Op::Duplicate => Resolved::Duplicate,
        Op::Swap => Resolved::Swap,
        Op::Discard => Resolved::Discard,
        Op::Copy(n) => Resolved::Copy(*n),
        Op::Slide(n) => Resolved::Slide(*n),
        Op::Add => Resolved::Add,
        Op::Subtract => Resolved::Subtract,
        Op::Multiply => Resolved::Multiply,
        Op::Divide => Resolved::Divide,
        Op::Modulo => Resolved::Modulo,
        Op::Store => Resolved::Store,
        Op::Retrieve => Resolved::Retrieve,
        Op::Mark(_) => Resolved::Mark,
        Op::Call(_) => Resolved::Call(target),
        Op::Jump(_) => Resolved::Jump(target),
        Op::JumpIfZero(_) => Resolved::JumpIfZero(target),
        Op::JumpIfNegative(_) => Resolved::JumpIfNegative(target),
        Op::Return => Resolved::Return,
        Op::End => Resolved::End,
        Op::WriteCharacter => Resolved::WriteCharacter,
        Op::WriteNumber => Resolved::WriteNumber,
        Op::ReadCharacter => Resolved::ReadCharacter,
        Op::ReadNumber => Resolved::ReadNumber,
    }
}
