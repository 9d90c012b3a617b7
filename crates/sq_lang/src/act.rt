// What one step does.

/// What three words in a row ask for.
#[derive(Clone, Copy)]
pub enum Act {
    /// The cell at this address becomes the next byte of the input.
    Take(u64),
    /// The cell at this address is written, as a byte.
    Write(u64),
    /// The cell at the second address becomes its difference with the one at the first. Where that is at
    /// most 0, the run goes on at the target.
    Subtract(u64, u64, i64),
    /// The run stops at a fault with this code.
    Stop(u8),
}
