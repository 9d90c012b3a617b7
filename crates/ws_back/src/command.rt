// The instructions that are written.

/// A place that is marked.
#[derive(Clone, Copy)]
pub enum Place {
    /// The end of the code.
    End,
    /// Where a block is looked up by its number.
    Dispatch,
    /// Where the blocks below this number are looked up.
    Branch(u32),
    /// The front of the block of this number.
    Block(u32),
}

/// An instruction of Whitespace, of those that a program is translated to.
#[derive(Clone, Copy)]
pub enum Command {
    Push(i64),
    Add,
    Subtract,
    Multiply,
    Divide,
    Modulo,
    Store,
    Retrieve,
    Mark(Place),
    Jump(Place),
    JumpIfZero(Place),
    JumpIfNegative(Place),
    End,
    WriteCharacter,
    ReadCharacter,
}
