//! Brainfuck: the texts of its programs, and what they do.
#![tactic(auto)]

mod command;
mod fold;
mod joining;
mod laws;
mod machine;
mod pairing;
mod plan;
mod program;
mod quiet;
mod state;
mod text;

pub use command::Command;
pub use laws::{
    commands_are_spelled, faults_are_silent, jumps_go_to_partners, partners_are_mutual,
    texts_are_read_in_one_way,
};
pub use machine::BfMachine;
pub use program::BfProgram;
pub use state::BfState;
pub use text::{BfFault, read_bf};
