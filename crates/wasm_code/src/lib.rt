//! The WebAssembly module of an EIR program: one function, which is a loop round a nest of blocks, one for each block of
//! the program.
#![tactic(auto)]

mod body;
mod code;
mod data;
mod laws;
mod module;

pub use laws::{modules_are_linkable, modules_are_spelled, modules_are_valid};
pub use module::module_for;
