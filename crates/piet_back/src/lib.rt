//! From EIR to Piet: one board for each EIR program, whose lanes follow it step by step.
#![tactic(auto)]

mod back;
mod lanes;
mod laws;
mod layout;

pub use back::Piet;
pub use laws::board_simulates;
