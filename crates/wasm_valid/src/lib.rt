//! The validity of WebAssembly 1.0 modules with 32-bit integers.
#![tactic(auto)]

mod answer;
mod body;
mod effect;
mod fault;
mod frames;
mod instruction;
mod laws;
mod level;
mod names;
mod rules;
mod shape;
mod state;

pub use answer::{Valid, validate};
pub use fault::ValidFault;
pub use instruction::function_type;
pub use laws::{code_keeps_what_lies_beneath, modules_have_one_answer};
