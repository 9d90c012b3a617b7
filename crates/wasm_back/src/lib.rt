//! The WebAssembly back end: the module for an EIR program does what the program does, step by step.
#![tactic(auto)]

mod back;
mod laws;

pub use back::WebAssembly;
pub use laws::{few_steps_follow, few_steps_load, module_simulates};
