//! Jumps of plain code of C that are told behind the code that they jump over: choices and loops.
#![tactic(auto)]

mod choices;
mod loops;

pub use choices::{both_sides, one_side, other_side};
pub use loops::{begin_turn, end_do, end_loop};
