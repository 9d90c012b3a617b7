//! Boards: images that run lanes of commands, one after the other.
#![tactic(auto)]

mod board;
mod cell;
mod command;
mod laws;
mod row;
mod shade;

pub use board::{Board, WriteFault};
pub use command::Command;
pub use laws::boards_run_their_lanes;
