//! The back end to Brainfuck.
//!
//! A program begins by laying its data words down, record by record, and by choosing the first operation. Then one
//! loop on the cell 0 makes a step of the program in each turn (`bf_turn`), and ends where the program does.
#![tactic(auto)]

mod back;
mod data;
mod laws;
mod translation;

pub use back::Brainfuck;
pub use laws::{few_commands_follow, own_texts_are_short, programs_have_code};
pub use translation::translate;
