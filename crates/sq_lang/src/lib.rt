//! SUBLEQ: the texts of its programs, and what they do.
#![tactic(auto)]

mod act;
mod buffered;
mod cells;
mod laws;
mod machine;
mod number;
mod program;
mod state;
mod text;

pub use act::Act;
pub use laws::{cells_stand_from_zero, cells_stay_in_range, faults_are_silent, texts_are_decided};
pub use machine::SqMachine;
pub use program::SqProgram;
pub use state::SqState;
pub use text::{SqFault, read_sq};
