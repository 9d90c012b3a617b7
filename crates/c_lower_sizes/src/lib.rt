//! Programs within a room: code and data words become a program, if its size is at most so much.
#![tactic(auto)]

mod sizes;

pub use sizes::sized;
