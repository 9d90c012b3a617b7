// Arguments, and what is called with them.

use crate::operand::Value;

/// An argument: its place in the text, and its value.
#[derive(Clone, Copy)]
pub struct Argument {
    pub at: u32,
    pub value: Value,
}

/// What is called.
#[derive(Clone, Copy)]
pub enum Callee {
    /// A function of a type, and whether it has a definition.
    Direct(usize, bool),
    /// `printf`.
    Format,
    /// The value of an expression, of a type.
    Through(usize),
}
