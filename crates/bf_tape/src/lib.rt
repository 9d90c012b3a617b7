//! Pieces of Brainfuck over the named cells of a frame, each with its effect on a tape.
//!
//! A frame is the 256 cells from some place of the tape on, its base, and a cell is named by its distance from there. What
//! commands do is said of every place in a program (`Does` in specs/Does): they take a tape with the head at one named cell
//! to a tape with the head at another, within a number of commands run.
#![tactic(auto)]

pub mod code;
mod frag;
mod laws;
mod loops;
mod send;

pub use frag::Frag;
pub use laws::walks_move_the_base;
