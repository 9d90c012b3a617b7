//! What files of WebAssembly are read by: pieces of a file, numbers in LEB128, runs of bytes and names, and the faults.
#![tactic(auto)]

pub mod cursor;
pub mod fault;
pub mod items;
mod laws;
pub mod number;
pub mod text;

pub use laws::signed_numbers_are_spelled;
