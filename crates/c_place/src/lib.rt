//! Code of EIR as a flat list of operations, which is cut into blocks behind its jumps.
#![tactic(auto)]

mod cutting;
mod laws;

pub use cutting::{cut, is_jump, program};
pub use laws::{code_stands, cut_is_program, operations_run, quiet_code_runs};
