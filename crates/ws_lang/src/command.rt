// The names of the instructions.

/// What the first signs of an instruction name.
#[derive(Clone, Copy)]
pub enum Command {
    Push,
    Duplicate,
    Swap,
    Discard,
    Copy,
    Slide,
    Add,
    Subtract,
    Multiply,
    Divide,
    Modulo,
    Store,
    Retrieve,
    Mark,
    Call,
    Jump,
    JumpIfZero,
    JumpIfNegative,
    Return,
    End,
    WriteCharacter,
    WriteNumber,
    ReadCharacter,
    ReadNumber,
}
