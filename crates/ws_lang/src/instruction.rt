// The instructions as a program keeps them.

/// One instruction. A label is the list of its signs, where `true` is a tab.
#[derive(Drop)]
pub enum Op {
    Push(i64),
    Duplicate,
    Swap,
    Discard,
    Copy(i64),
    Slide(i64),
    Add,
    Subtract,
    Multiply,
    Divide,
    Modulo,
    Store,
    Retrieve,
    Mark(Vec<bool>),
    Call(Vec<bool>),
    Jump(Vec<bool>),
    JumpIfZero(Vec<bool>),
    JumpIfNegative(Vec<bool>),
    Return,
    End,
    WriteCharacter,
    WriteNumber,
    ReadCharacter,
    ReadNumber,
}
