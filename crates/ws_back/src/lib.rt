//! From EIR to Whitespace: one Whitespace program for each EIR program, which follows it step by step.
#![tactic(auto)]

mod back;
mod code;
mod command;
mod handing;
mod laws;
mod piece;
mod text;

pub use back::Whitespace;
pub use laws::{code_simulates, few_steps_follow};
