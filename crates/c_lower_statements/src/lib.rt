//! The code to which statements of C are lowered.
#![tactic(auto)]

mod asides;
mod locals;
mod statements;
mod switches;
mod targets;

pub use statements::{all_statements, statement};
pub use targets::Targets;
