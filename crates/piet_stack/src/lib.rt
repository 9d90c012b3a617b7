//! The commands that stand for operations of EIR, on a stack that holds the registers and the memory.
#![tactic(auto)]

mod memory;
mod number;
mod operation;
mod registers;

pub use memory::{put_ensure, put_grow};
pub use number::put_number;
pub use operation::{Ways, block_lane, put_op, put_second};
