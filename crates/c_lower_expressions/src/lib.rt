//! The code to which expressions of C are lowered.
#![tactic(auto)]

mod expressions;

pub use expressions::{place, step, truth, value};
