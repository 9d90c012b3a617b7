//! A machine that runs plain code of C, instruction by instruction.
#![tactic(auto)]

mod exchange;
mod execute;
mod machine;
mod quiet;
mod silent;
mod start;
mod state;
mod takes;

pub use machine::{CMachine, Funded};
pub use state::CState;
