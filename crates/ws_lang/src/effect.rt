// What an instruction does, before it is done.

/// What an instruction does.
#[derive(Clone, Copy)]
pub enum Effect {
    /// Goes on with a value in the place of so many values at the top.
    Put(usize, i64),
    /// Goes on without so many values at the top.
    Discard(usize),
    /// Goes on with the two values at the top swapped.
    Swap,
    /// Goes to a place without so many values at the top.
    Jump(usize, u32),
    Call(u32),
    Return,
    End,
    /// Goes on without two values, and with a value at an address.
    Store(i64, i64),
    /// Goes on without a value, and writes a byte.
    Write(u8),
    /// Goes on without a value, and writes a number.
    Spell(i64),
    /// Goes on without a value, and takes a byte to this address.
    Take(i64),
    /// Begins to read a number to this address.
    Await(i64),
    Fault(u8),
}
