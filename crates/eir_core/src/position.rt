// A position in a program.

/// A position in a program: the number of a block, and the index of an operation in it.
#[derive(Clone, Copy)]
pub struct Position {
    pub block: u32,
    pub index: u32,
}
