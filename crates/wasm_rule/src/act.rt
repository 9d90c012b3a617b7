// What one step does.

/// What an instruction does with the values that it meets.
#[derive(Clone, Copy)]
pub enum Act {
    /// So many values are taken.
    Take(u32),
    /// Values are taken, and one is put.
    Put { taken: u32, value: u32 },
    /// Values are taken, and the local of this index gets one.
    SetLocal { taken: u32, index: u32, value: u32 },
    /// A value is taken, and the global of this index gets it.
    SetGlobal { index: u32, value: u32 },
    /// Two values are taken, and so many bytes of the word go into the memory from the address on, if they lie in it.
    Store { count: u32, address: u64, word: u32 },
    /// The memory grows by so many pages, if it may.
    Grow(u32),
    /// Values are taken, and a block begins, which leaves a value or not.
    Block { taken: u32, gives: bool },
    /// A loop begins.
    Loop,
    /// A value is taken, and a block begins at its `else`, or at its `end` where it has none.
    Otherwise { gives: bool },
    /// The innermost block is left, and the code goes on behind its `end`.
    Leave,
    /// The innermost block ends, or else the call.
    End,
    /// Values are taken, and a branch goes to the block so far out.
    Branch { taken: u32, depth: u32 },
    /// The call ends.
    Return,
    /// The function of this index among the module's own is called.
    Call(u32),
    /// A byte of the input is put.
    Read,
    /// A value is taken, and this byte is written.
    Write(u8),
    /// The run stops at a fault with this code.
    Stop(u8),
}
