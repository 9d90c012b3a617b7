//! The exact commands of EIR's operations on a Brainfuck tape do what the calls of `bf_ops` promise of them, with no call
//! made: so what is said of a text holds however the memory for it was found.
#![tactic(auto)]

mod laws;

pub use laws::{
    comparisons_are_posed_by_code, goals_are_noted, jumps_are_decided, memory_is_served,
    operations_are_performed,
};
