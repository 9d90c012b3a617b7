//! The code of EIR to which C is lowered, as a definition.
#![tactic(auto)]

mod laws;

pub use laws::{code_is_closed, jumps_are_counted};
