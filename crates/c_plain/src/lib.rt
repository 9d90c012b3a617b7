//! Plain code of C: instructions on a stack of values, in which types have become kinds of cells and numbers of words,
//! and names have become numbers.
#![tactic(auto)]

mod code;
mod instruction;

pub use code::{Entry, Plain};
pub use instruction::{
    Arguments, BuiltIn, Fetch, First, Instruction, Operation, Span, Step, Unary,
};
