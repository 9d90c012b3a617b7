// What an instruction does to the stack.

/// What an instruction that is no block does to the stack.
#[derive(Clone, Copy)]
pub enum Effect {
    /// It takes so many values from the top, and gives so many.
    Turns(u64, u64),
    /// It takes so many values, and control never comes to what follows it.
    Breaks(u64),
}
