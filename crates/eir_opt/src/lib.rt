//! A smaller EIR program that does what a program does: its blocks with constants folded, and without the operations
//! that make no difference.
#![tactic(auto)]

mod by_register;
mod fold;
mod laws;
mod program;
mod trim;

pub use laws::{
    folding_keeps_steps, last_operations_are_kept, overwritten_registers_are_not_read,
    trimming_leaves_steps_out,
};
pub use program::optimise;
